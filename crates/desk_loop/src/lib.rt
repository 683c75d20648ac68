// The desk program but for its reads and writes: which window a turn answers, with which offset and whether it is the last, what is
// kept of it, and where the next bytes go.
#![tactic(auto)]

ghost use Rattle.std.specs.Prelude.{◌≡◌, ◌+◌, ◌≤◌, [], length, IfOk};
ghost use Rattle.stored.specs.Stored.{is_box};
ghost use Rattle.desk_stream.specs.Boxed.{came_of};
ghost use Rattle.desk_loop.specs.Loop.{at_first, filled, passing, settled, settled_window, turned};

use answers::Why;
use desk_stream::Came;
use stored::WORDS;

// Where the desk stands: `held` bytes of the input in the window, of which those before `at` are answered, and the offset in the
// input of the byte at `at`; whether the input has ended, whether the window wants more of it, whether all is said; and how much
// text the last turn put. `wants` and `over` may both hold, and `turned`, `Goes` and `room-to-read` tell each: no enum of the next
// step has both. `last` is the input's end, and hides no value. That `at` is no further than `held` is no invariant: `turn` takes any
// flow. The window is a buffer that is lent, since there is no heap.
#[derive(Clone, Copy)]
pub struct Flow {
    pub at: usize,
    pub held: usize,
    pub base: u64,
    pub last: bool,
    pub wants: bool,
    pub over: bool,
    pub written: usize,
}

// At the outset nothing is read.
pub fn begin() -> Flow
    ensures { result ≡ at_first }
{
    Flow {
        at: 0,
        held: 0,
        base: 0,
        last: false,
        wants: true,
        over: false,
        written: 0,
    }
}

// ---- what a read brings
// So many bytes stand behind those that were held. A read that brings nothing ends the input.
fn fill(f: Flow, got: usize, room: usize) -> Flow
    ensures { result ≡ filled f got room }
{
    let held = f.held.saturating_add(got).min(room);
    Flow {
        at: f.at.min(held),
        held,
        last: f.last | f.wants & (got == 0),
        ..f
    }
}

// ---- what is behind a window
// Behind a refusal nothing is read, nothing written, and all is said.
fn pass(f: Flow, served: Result<Came, Why>, room: usize) -> Flow
    requires front { f.at ≤ f.held }
    requires within { IfOk served (λ came. f.at + came.read ≤ f.held) }
    ensures { result ≡ passing f (came_of served [] [] [] []) room }
{
    let Ok(came) = served else {
        return Flow {
            wants: desk_line::has_room(0, room),
            over: true,
            written: 0,
            ..f
        };
    };
    let at = f.at + came.read;
    Flow {
        at,
        base: f.base.wrapping_add(came.read as u64),
        wants: desk_line::has_room(came.written, room),
        over: came.ended | f.last & (at == f.held),
        written: came.written,
        ..f
    }
}

// A window that wants more input begins with what is not answered: so there is room behind it.
fn settle(buf: &mut [u8], f: Flow) -> Flow
    requires front { f.at ≤ f.held }
    requires back { f.held ≤ length buf.old }
    ensures flow { result ≡ settled f }
    ensures window { buf.new ≡ settled_window f buf.old }
{
    if !f.wants {
        return f;
    }
    buf.copy_within(f.at..f.held, 0);
    Flow {
        at: 0,
        held: f.held - f.at,
        ..f
    }
}

// A turn: `got` bytes stand behind those that the window held, and it is answered as far as the lines have room. The text of it
// stands at the front of `out`; where the desk then wants more input, it goes behind the bytes that are held.
pub fn turn(
    w: &mut [u64; WORDS],
    ring: &mut [u8],
    buf: &mut [u8],
    out: &mut [u8],
    f: Flow,
    got: usize,
) -> Flow
    ensures turned { record {
      flow = result;
      words = w.new;
      ring = ring.new;
      window = buf.new;
      lines = out.new;
    }
        ≡ turned got (record {
          flow = f;
          words = w.old;
          ring = ring.old;
          window = buf.old;
          lines = out.old;
        }) }
    ensures window_holds { result.held ≤ length buf.new }
    ensures lines_hold { result.written ≤ length out.new }
    ensures box_stays { is_box w.new (length ring.new) ≡ is_box w.old (length ring.old) }
{
    let full = fill(f, got, buf.len());
    let window = &buf[full.at..full.held];
    let served = desk_stream::serve(w, ring, window, full.base, full.last, out);
    settle(buf, pass(full, served, out.len()))
}
