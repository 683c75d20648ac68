// A stream all at once, and as it grows by some bytes, with much and with little room for the lines.
use crate::{Case, ROOM};
use std::io;
use stored::WORDS;

// Where a run stands: the bytes before `at` are answered, those before `come` have come, or all of them and the end; and `said` bytes
// of text are gathered. `over` is the loop's end, and hides no value.
#[derive(Clone, Copy)]
struct Run {
    at: usize,
    come: Option<usize>,
    said: usize,
    over: bool,
}

// What has come of `len` bytes behind `come`: `step` more; then all, and then the end.
fn grown(come: usize, step: usize, len: usize) -> Option<usize> {
    (come < len).then_some(come.saturating_add(step).min(len))
}

// Answers what has come, as far as the lines have room; where they had, more comes. A refusal ends the run: in its line are the number,
// no byte read and no byte of text.
fn turn(
    f: Run,
    words: &mut [u64; WORDS],
    ring: &mut [u8],
    s: &[u8],
    step: usize,
    out: &mut [u8],
    to: &mut [u8],
) -> Run {
    let window = s.get(f.at..f.come.unwrap_or(s.len())).unwrap_or(&[]);
    let last = f.come.is_none();
    match desk_stream::serve(words, ring, window, f.at as u64, last, out) {
        Ok(came) => {
            let is_dry = desk_line::has_room(came.written, out.len());
            Run {
                at: f.at.saturating_add(came.read),
                come: if is_dry {
                    f.come.and_then(|come| grown(come, step, s.len()))
                } else {
                    f.come
                },
                said: desk_text::put_bytes(to, f.said, &out[..came.written]),
                over: came.ended | last & is_dry,
            }
        }
        Err(why) => {
            let number = desk_text::put_decimal(to, f.said, u64::from(u16::from(why)));
            Run {
                said: desk_text::put_bytes(to, number, b" 0 0\n"),
                over: true,
                ..f
            }
        }
    }
}

// Answers a stream of which all has come (a step of 0, as a difference tells it), or which grows by `step` bytes, and gathers the text.
fn gather(case: &mut Case<'_, '_>, s: &[u8], step: usize, out: &mut [u8], to: &mut [u8]) -> usize {
    let mut words = case.start;
    let mut f = Run {
        at: 0,
        come: (step > 0).then_some(0),
        said: 0,
        over: false,
    };
    // So many turns at most, since each loop has to end.
    for _ in 0..1000000 {
        if f.over {
            break;
        }
        f = turn(f, &mut words, case.ring, s, step, out, to);
    }
    f.said
}

// Where two texts begin to differ, if they do.
fn difference(a: &[u8], b: &[u8]) -> Option<usize> {
    if a == b {
        return None;
    }
    let end = a.len().min(b.len());
    Some(a.iter().zip(b).position(|(x, y)| x != y).unwrap_or(end))
}

fn cut(
    rt: &impl Print,
    case: &mut Case<'_, '_>,
    s: &[u8],
    step: usize,
    out: &mut [u8],
) -> io::Result<bool> {
    let mut said = [0u8; ROOM];
    let n = gather(case, s, step, out, &mut said);
    let Some(at) = difference(said.get(..n).unwrap_or(&[]), case.right) else {
        return Ok(true);
    };
    let room = out.len();
    print!(rt; "at byte {at} with a step of {step} and room for {room}; ")?;
    Ok(false)
}

// In three rooms.
fn rooms(rt: &impl Print, case: &mut Case<'_, '_>, s: &[u8], step: usize) -> io::Result<bool> {
    let large = cut(rt, case, s, step, &mut [0u8; ROOM])?;
    let one = cut(rt, case, s, step, &mut [0u8; 640])?;
    let some = cut(rt, case, s, step, &mut [0u8; 1000])?;
    Ok(large & one & some)
}

pub fn are_right(rt: &impl Print, case: &mut Case<'_, '_>, s: &[u8]) -> io::Result<bool> {
    for step in [0, 1, 7, 300] {
        if !rooms(rt, case, s, step)? {
            return Ok(false);
        }
    }
    Ok(true)
}
