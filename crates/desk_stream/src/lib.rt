// A window of the desk's input, answered record by record into a lent buffer. The box is its numbers, lent for each window and each
// record, and found there as they are left.
#![tactic(auto)]

ghost use Rattle.std.specs.Prelude.{◌≡◌, ◌+◌, ◌≤◌, true, not, [], length, drop, IfOk, is_err, if◌then◌else◌};
ghost use Rattle.rules.specs.Machine.{step};
ghost use Rattle.answers.specs.Asked.{asked, replied};
ghost use Rattle.desk_text.specs.Put.{Puts};
ghost use Rattle.desk_line.specs.Line.{line_room};
ghost use Rattle.stored.specs.Stored.{is_box};
ghost use Rattle.desk_stream.specs.Desk.{reply_room, hears, call_with, bad_line, bad_text};
ghost use Rattle.desk_stream.specs.Window.{waits, answered_by, piece, replied_in};
ghost use Rattle.desk_stream.specs.Held.{Turns, Serves};
ghost use Rattle.desk_stream.specs.Boxed.{box_in, barred_by, number_of_record, came_of, turn_of, serving, performing};

use answers::{Request, Why};
use desk_records::Found;
use stored::WORDS;

// The reply that serves all fetches of a window.
const REPLY_ROOM: usize = 259;

// What came of a window: how far it is read, how much text stands in the lines, and whether a bad record was met, which is C's third
// number of progress.
#[derive(Clone, Copy)]
pub struct Came {
    pub read: usize,
    pub written: usize,
    pub ended: bool,
}

// What came of one record: whether it is accepted, or why it is refused; none where no record reads. What an acceptance reports
// stands in the line.
#[derive(Clone, Copy)]
pub struct Performed {
    pub outcome: Option<Result<(), Why>>,
    pub came: Came,
}

fn put_bad(out: &mut [u8], at: usize, offset: u64) -> usize
    ensures { Puts out.old at (bad_line offset) result out.new }
{
    let a = desk_text::put_bytes(out, at, b"bad ");
    let b = desk_text::put_decimal(out, a, offset);
    desk_text::put_byte(out, b, b'\n')
}

// ---- one record's piece of the input
// What is lent goes name by name: a struct of it would be made for one call and taken apart in it, as each clause speaks of one. That
// the numbers are a box is a `requires` and no type, since a host lends any.

// Where no record reads: a cut one waits for more input, if more may come; any other is bad.
fn stop(s: &[u8], at: usize, base: u64, last: bool, out: &mut [u8], filled: usize) -> Came
    ensures place { result.read ≡ at }
    ensures ended { result.ended ≡ not (waits last (drop at s.now)) }
    ensures text { Puts out.old filled (if waits last (drop at s.now) then [] else bad_text (base + at)) result.written out.new }
{
    if desk_records::read::is_cut(s, at) & !last {
        return Came {
            read: at,
            written: filled,
            ended: false,
        };
    }
    Came {
        read: at,
        written: put_bad(out, filled, base.wrapping_add(at as u64)),
        ended: true,
    }
}

// One request answered, and its line put; `place` is behind its record.
fn answer(
    w: &mut [u64; WORDS],
    ring: &mut [u8],
    reply: &mut [u8],
    kind: u8,
    request: Request,
    given: &[u8],
    place: usize,
    out: &mut [u8],
    filled: usize,
) -> Performed
    requires boxed { is_box w.old (length ring.old) ≡ true }
    requires roomy { filled + line_room ≤ length out.old }
    ensures place { result.came.read ≡ place }
    ensures turns { Turns (answered_by kind (step (box_in w.old ring.old)
        (call_with (length reply.old) request given.now)) 0)
        out.old filled (number_of_record result.outcome) result.came.written result.came.ended w.new ring.new out.new }
    ensures lent { reply.new
        ≡ replied (asked request given.now reply.old)
        (step (box_in w.old ring.old) (asked request given.now reply.old)) reply.old }
{
    let answer = working::perform(w, ring, request, given, reply);
    let number = answers::number(answer);
    let next = stored::load(w);
    let came = Came {
        read: place,
        written: desk_line::put_line(out, filled, kind, number, next, answer, reply),
        ended: false,
    };
    Performed {
        outcome: Some(answer.map(|_| ())),
        came,
    }
}

// The piece of the input at a place: the record there, answered, or bad. One of no size leaves nothing to go on with.
fn turn(
    w: &mut [u64; WORDS],
    ring: &mut [u8],
    reply: &mut [u8],
    s: &[u8],
    at: usize,
    base: u64,
    last: bool,
    out: &mut [u8],
    filled: usize,
) -> Performed
    requires boxed { is_box w.old (length ring.old) ≡ true }
    requires roomy { filled + line_room ≤ length out.old }
    ensures place { result.came.read
        ≡ at + (piece (length reply.old) (base + at) last (box_in w.old ring.old) (drop at s.now)).size }
    ensures turns { Turns (piece (length reply.old) (base + at) last (box_in w.old ring.old) (drop at s.now))
        out.old filled (number_of_record result.outcome) result.came.written result.came.ended w.new ring.new out.new }
    ensures lent { reply.new
        ≡ replied_in (hears (drop at s.now)) (box_in w.old ring.old) reply.old }
{
    let Ok(heard) = desk_records::read::hear(s, at) else {
        return Performed {
            outcome: None,
            came: stop(s, at, base, last, out, filled),
        };
    };
    let Found {
        kind,
        start,
        len,
        next,
    } = heard.found;
    let request = heard.request;
    let body = desk_records::read::payload(s, start, len);
    let given = desk_kinds::payload::given(kind, body);
    answer(w, ring, reply, kind, request, given, next, out, filled)
}

// ---- a window
// The loop goes by records, and not by an index: a turn tells where the next one begins.
fn serve_with(
    w: &mut [u64; WORDS],
    ring: &mut [u8],
    reply: &mut [u8],
    s: &[u8],
    base: u64,
    last: bool,
    out: &mut [u8],
) -> Came
    requires lent { length reply.old ≡ reply_room }
    requires boxed { is_box w.old (length ring.old) ≡ true }
    ensures { Serves base last w.old ring.old s.now out.old result.read result.written result.ended w.new ring.new out.new }
{
    let mut came = Came {
        read: 0,
        written: 0,
        ended: false,
    };
    while came.read < s.len() {
        if !desk_line::has_room(came.written, out.len()) {
            return came;
        }
        let turn = turn(w, ring, reply, s, came.read, base, last, out, came.written);
        if turn.came.read == came.read {
            return turn.came;
        }
        came = turn.came;
    }
    came
}

// ---- what a host calls
// Why nothing is begun: the numbers are no box; then a line may lack room.
fn barred(w: &[u64; WORDS], length: usize, room: usize) -> Result<(), Why>
    ensures { result ≡ barred_by w.now length room }
{
    if !stored::is_box(w, length) {
        return Err(Why::Unsound);
    }
    if !desk_line::has_room(0, room) {
        return Err(Why::NoRoom);
    }
    Ok(())
}

// Answers the records of a window, each as soon as it is whole and its line has room: the lines go to the front of `out`. `base`
// is the window's offset in the input; `last` says that no input follows it. A refusal leaves all that is lent as it was.
pub fn serve(
    w: &mut [u64; WORDS],
    ring: &mut [u8],
    s: &[u8],
    base: u64,
    last: bool,
    out: &mut [u8],
) -> Result<Came, Why>
    ensures refused { is_err result ≡ is_err (barred_by w.old (length ring.old) (length out.old)) }
    ensures served { came_of result w.new ring.new [] out.new ≡ serving w.old ring.old s.now base last out.old }
    ensures reads_window { IfOk result (λ came. came.read ≤ length s.now) }
    ensures writes_lines { IfOk result (λ came. came.written ≤ length out.new) }
    ensures box_stays { is_box w.new (length ring.new) ≡ is_box w.old (length ring.old) }
{
    barred(w, ring.len(), out.len())?;
    let mut reply = [0; REPLY_ROOM];
    Ok(serve_with(w, ring, &mut reply, s, base, last, out))
}

// Answers the record at the front of the input, and puts its line. `last` says that no input follows: a record that is only cut is
// bad then, and waits otherwise. A refusal leaves all that is lent as it was.
pub fn perform(
    w: &mut [u64; WORDS],
    ring: &mut [u8],
    reply: &mut [u8],
    s: &[u8],
    offset: u64,
    last: bool,
    out: &mut [u8],
) -> Result<Performed, Why>
    ensures refused { is_err result ≡ is_err (barred_by w.old (length ring.old) (length out.old)) }
    ensures performed { turn_of result w.new ring.new reply.new out.new ≡ performing w.old ring.old reply.old s.now offset last out.old }
    ensures box_stays { is_box w.new (length ring.new) ≡ is_box w.old (length ring.old) }
{
    barred(w, ring.len(), out.len())?;
    Ok(turn(w, ring, reply, s, 0, offset, last, out, 0))
}
