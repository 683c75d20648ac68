// The desk program: records from standard input, a line each on standard output. What stands here reads, takes a turn and writes; all
// else is `desk_loop`.
#![tactic(auto)]

ghost use Rattle.std.specs.Prelude.{◌≡◌, ◌≢◌, true, ◌+◌, ◌≤◌, ◌<◌, [], length, take, drop, replicate, IfOk, OnOk, OnErr, IsErr, IfErr};
ghost use Rattle.std.specs.IoError.{error_kind};
ghost use Rattle.std.specs.Io.KnownBytes.{Appends, Consumes, IsAtEnd, Keeps};
ghost use Rattle.rules.specs.Record.{fresh};
ghost use Rattle.stored.specs.Stored.{kept};
ghost use Rattle.desk_line.specs.Line.{line_room};
ghost use Rattle.desk_stream.specs.Desk.{ring_room};
ghost use Rattle.desk_stream.specs.Window.{longest};
ghost use Rattle.desk_loop.specs.Program.{Brings, Stepped};

use anyhow::Context;
use desk_loop::Flow;
use rules::Record;
use std::io;
use std::io::{ErrorKind, Read, Write};
use stored::WORDS;

// The paper's ring.
const RING: usize = 4096;

// How many bytes the window of the input has, and how many the lines.
const ROOM: usize = 65536;

// Reads what has come, behind the first `held` bytes: at least one is asked for, so that none tells the end. A read that fails brings
// nothing. Buffer and `held` go side by side, as the contract speaks of the bytes before it too.
fn read_behind<R: Read>(input: &mut R, buf: &mut [u8], held: usize) -> io::Result<usize>
    requires { held < length buf.old }
    ensures fits { IfOk result (λ count. held + count ≤ length buf.new) }
    ensures brings { IfOk result (λ count. Brings buf.old held (take count (drop held buf.new)) buf.new) }
    ensures err { OnErr result (Brings buf.old held [] buf.new) }
    ensures err_input { OnErr result (Keeps (R.remaining input.old) (R.remaining input.new)) }
    ensures consumed { IfOk result (λ count. Consumes (R.remaining input.old) (R.remaining input.new) (take count (drop held buf.new))) }
    ensures at_end { IfOk result (λ count. count ≡ 0 → IsAtEnd (R.remaining input.new)) }
{
    input.read(&mut buf[held..])
}

// A turn, and before one that wants more input a read. Only the read can fail: then there is no turn.
fn advance<R: Read>(
    input: &mut R,
    w: &mut [u64; WORDS],
    ring: &mut [u8],
    buf: &mut [u8],
    out: &mut [u8],
    f: Flow,
) -> io::Result<Flow>
    requires within { f.held ≤ length buf.old }
    requires room_to_read { f.wants ≡ true → f.held < length buf.old }
    ensures stepped { IfOk result (λ flow. Stepped
        (record {
          flow = f;
          words = w.old;
          ring = ring.old;
          window = buf.old;
          lines = out.old;
        })
        (record {
          flow = flow;
          words = w.new;
          ring = ring.new;
          window = buf.new;
          lines = out.new;
        })) }
    ensures still_within { IfOk result (λ flow. flow.held ≤ length buf.new) }
    ensures lines_hold { IfOk result (λ flow. flow.written ≤ length out.new) }
    ensures err_wants { IsErr result → f.wants ≡ true }
    ensures err_input { OnErr result (Keeps (R.remaining input.old) (R.remaining input.new)) }
    ensures err_window { OnErr result (Brings buf.old f.held [] buf.new) }
    ensures err_rest { OnErr result ((w.new ≡ w.old) × (ring.new ≡ ring.old) × (out.new ≡ out.old)) }
{
    if !f.wants {
        return Ok(desk_loop::turn(w, ring, buf, out, f, 0));
    }
    let got = read_behind(input, buf, f.held)?;
    Ok(desk_loop::turn(w, ring, buf, out, f, got))
}

// Writes a text out, so that none of it waits in the writer. How much of it is out after an error is not told.
fn write_out<W: Write>(output: &mut W, text: &[u8]) -> io::Result<()>
    ensures { OnOk result (Appends (W.contents output.old) (W.contents output.new) text.now) }
{
    output.write_all(text)?;
    output.flush()
}

// Writes the lines out, and answers whether their reader is there. One that has gone is no failure to speak of; any other is. How
// much of them is out where not all could be written is not told.
fn say<W: Write>(output: &mut W, lines: &[u8]) -> io::Result<bool>
    ensures written { IfOk result (λ is_read. is_read ≡ true → Appends (W.contents output.old) (W.contents output.new) lines.now) }
    ensures err { IfErr result (λ e. error_kind e ≢ ErrorKind.BrokenPipe) }
{
    match write_out(output, lines) {
        Ok(()) => Ok(true),
        Err(e) if e.kind() == ErrorKind::BrokenPipe => Ok(false),
        Err(e) => Err(e),
    }
}

// The text that the last turn put, at the front of the lines.
fn said(lines: &[u8], f: Flow) -> &[u8]
    requires { f.written ≤ length lines.now }
    ensures { result.now ≡ take f.written lines.now }
{
    &lines[..f.written]
}

// Step by step until all is said, from a fresh box with the desk's ring, a window for any record and room for any line. Its error is
// that of a read or of a write, with where it was.
fn pump(
    input: &mut impl Read,
    output: &mut impl Write,
    w: &mut [u64; WORDS],
    ring: &mut [u8],
    buf: &mut [u8],
    out: &mut [u8],
) -> anyhow::Result<()>
    requires fresh_box { w.old ≡ kept fresh }
    requires paper_ring { ring.old ≡ replicate ring_room 0 }
    requires window_roomy { longest ≤ length buf.old }
    requires lines_roomy { line_room ≤ length out.old }
{
    let mut f = desk_loop::begin();
    for _ in 0..u64::MAX {
        if f.over {
            break;
        }
        f = advance(input, w, ring, buf, out, f).context("desk: standard input")?;
        if !say(output, said(out, f)).context("desk: standard output")? {
            break;
        }
    }
    Ok(())
}

fn main(rt: HostRuntime) -> anyhow::Result<()> {
    let mut buf = [0u8; ROOM];
    let mut out = [0u8; ROOM];
    let mut ring = [0u8; RING];
    let mut words = [0u64; WORDS];
    stored::keep(&mut words, Record::fresh());
    pump(
        &mut rt.stdin(),
        &mut rt.stdout(),
        &mut words,
        &mut ring,
        &mut buf,
        &mut out,
    )
}
