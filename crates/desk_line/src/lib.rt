// The desk's line for one answered record. Its room is tested once: behind the test each part asks for the room that it may take.
// Each part has a room of its own, so it asks for it itself; buffer and place are two arguments for the reason at the head of desk_text.
#![tactic(auto)]

mod extra;
mod lent;
mod text;

ghost use Rattle.std.specs.Prelude.{◌≡◌, [], ◌∷◌, ◌++◌, ◌+◌, ◌≤◌, leb, length};
ghost use Rattle.answers.specs.Told.{values_told};
ghost use Rattle.desk_text.specs.Digits.{decimal, hex_byte};
ghost use Rattle.desk_text.specs.Put.{Puts};
ghost use Rattle.desk_line.specs.Line.{scan_letter, feed_letter, count_text, line_of, line_room, roomed};
ghost use Rattle.desk_line.specs.Room.{letter_room, kind_room, number_room, states_room, head_room, count_room, counts_room};

use answers::Answer;
use rules::{Feed, Record, Scan};

// No line is longer.
const LINE_ROOM: usize = 640;

// The letters are functions: `From` belongs to `rules`, which has no letters, and a trait with two impls for two calls is no plainer.
fn scan_letter(s: Scan) -> u8
    ensures { result ≡ scan_letter s }
{
    match s {
        Scan::Idle => b'I',
        Scan::Pending => b'P',
        Scan::Scanning => b'S',
        Scan::Finishing => b'F',
        Scan::Erred => b'E',
    }
}

fn feed_letter(f: Feed) -> u8
    ensures { result ≡ feed_letter f }
{
    match f {
        Feed::Unloaded => b'U',
        Feed::Loaded => b'L',
        Feed::Busy => b'B',
        Feed::Erred => b'E',
    }
}

// ---- columns, each with the space behind it
fn put_letter(out: &mut [u8], at: usize, b: u8) -> usize
    requires { at + letter_room ≤ length out.old }
    ensures puts { Puts out.old at (b ∷ 32 ∷ []) result out.new }
    ensures inside { result ≤ at + letter_room }
{
    let space = text::set_byte(out, at, b);
    text::set_byte(out, space, b' ')
}

// A digit and its space go to places that `at` alone gives, with no join between: most numbers have one digit.
fn put_number(out: &mut [u8], at: usize, n: u64) -> usize
    requires { at + number_room ≤ length out.old }
    ensures puts { Puts out.old at (decimal n ++ 32 ∷ []) result out.new }
    ensures inside { result ≤ at + number_room }
{
    if n < 10 {
        out[at] = b'0' + n as u8;
        out[at + 1] = b' ';
        return at + 2;
    }
    let space = text::set_long(out, at, n);
    text::set_byte(out, space, b' ')
}

fn put_kind(out: &mut [u8], at: usize, kind: u8) -> usize
    requires { at + kind_room ≤ length out.old }
    ensures puts { Puts out.old at (hex_byte kind ++ 32 ∷ []) result out.new }
    ensures inside { result ≤ at + kind_room }
{
    let space = desk_text::put_hex(out, at, kind);
    text::set_byte(out, space, b' ')
}

// SideCount: −1 is all ones.
fn put_count(out: &mut [u8], at: usize, count: u32) -> usize
    requires { at + count_room ≤ length out.old }
    ensures puts { Puts out.old at (count_text count) result out.new }
    ensures inside { result ≤ at + count_room }
{
    let signed = count.cast_signed();
    if signed < 0 {
        let digits = text::set_byte(out, at, b'-');
        return text::set_decimal(out, digits, u64::from(signed.unsigned_abs()));
    }
    text::set_decimal(out, at, u64::from(count))
}

// ---- the line
fn put_states(out: &mut [u8], at: usize, s: Scan, f: Feed) -> usize
    requires { at + states_room ≤ length out.old }
    ensures puts { Puts out.old at (scan_letter s ∷ 32 ∷ feed_letter f ∷ 32 ∷ []) result out.new }
    ensures inside { result ≤ at + states_room }
{
    let second = put_letter(out, at, scan_letter(s));
    put_letter(out, second, feed_letter(f))
}

fn put_head(out: &mut [u8], at: usize, kind: u8, number: u16, s: Scan, f: Feed) -> usize
    requires { at + head_room ≤ length out.old }
    ensures puts { Puts out.old at
        ((hex_byte kind ++ 32 ∷ []) ++ (decimal number ++ 32 ∷ []) ++ scan_letter s ∷ 32 ∷ feed_letter f ∷ 32 ∷ []) result out.new }
    ensures inside { result ≤ at + head_room }
{
    let second = put_kind(out, at, kind);
    let third = put_number(out, second, u64::from(number));
    put_states(out, third, s, f)
}

fn put_counts(out: &mut [u8], at: usize, job: u32, side: u16, count: u32) -> usize
    requires { at + counts_room ≤ length out.old }
    ensures puts { Puts out.old at
        ((decimal job ++ 32 ∷ []) ++ (decimal side ++ 32 ∷ []) ++ count_text count ++ 32 ∷ []) result out.new }
    ensures inside { result ≤ at + counts_room }
{
    let second = put_number(out, at, u64::from(job));
    let third = put_number(out, second, u64::from(side));
    let space = put_count(out, third, count);
    text::set_byte(out, space, b' ')
}

// The line of an answer with that number, and of the record that it leaves. Each argument has another source, and a struct of them
// would be made for one call.
fn set_line(
    out: &mut [u8],
    at: usize,
    kind: u8,
    number: u16,
    r: Record,
    answer: Answer,
    reply: &[u8],
) -> usize
    requires { at + line_room ≤ length out.old }
    ensures { Puts out.old at (line_of kind number (values_told r reply.now answer) r) result out.new }
{
    let counts = put_head(out, at, kind, number, r.scanner.state, r.feeder.state);
    let extra = put_counts(out, counts, r.job.held, r.side.number, r.side.count);
    let last = extra::put_extra(out, extra, r, answer, reply);
    text::set_byte(out, last, b'\n')
}

// Whether a line has room behind what stands in the buffer.
pub fn has_room(filled: usize, room: usize) -> bool
    ensures { result ≡ leb (filled + line_room) room }
{
    room.checked_sub(LINE_ROOM)
        .is_some_and(|last| filled <= last)
}

// The line, where any line has room; else nothing. The number stands beside the answer: `line_of` is promised for any number. Each
// argument has another source, and a struct of them would be made for one call.
pub fn put_line(
    out: &mut [u8],
    at: usize,
    kind: u8,
    number: u16,
    r: Record,
    answer: Answer,
    reply: &[u8],
) -> usize
    ensures { Puts out.old at
        (roomed (length out.old) at (line_of kind number (values_told r reply.now answer) r)) result out.new }
{
    if !has_room(at, out.len()) {
        return at;
    }
    set_line(out, at, kind, number, r, answer, reply)
}
