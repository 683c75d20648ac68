// Damaged input: every prefix of a stream, and the stream with one byte changed. A walk of its own, written from the form of a
// record, says which records are whole and where the first bad one begins; the lines are held to the whole stream's right text.
use crate::cuts::are_right;
use crate::files::lines;
use crate::{Case, Tally};
use desk_stream::Came;
use std::io;

// How many records are whole, and the place behind them: a bad one's, or the end.
#[derive(Clone, Copy)]
struct Reach {
    records: usize,
    at: usize,
}

// A place, and the bits of its byte that are changed; where there are none, the stream ends before it.
#[derive(Clone, Copy)]
struct Spot {
    at: usize,
    bits: Option<u8>,
}

// Which bytes are changed: each in turn, or every seventh.
#[derive(Clone, Copy)]
pub enum Which {
    Each,
    Seventh,
}

// Whether the paper lists a kind with a payload length.
fn is_listed(kind: u8, len: u8) -> bool {
    match kind {
        0x07 | 0x08 | 0x14 | 0x15 | 0x21 | 0x24 => len == 0,
        0x22 | 0x23 => len == 1,
        0x03 | 0x04 | 0x05 | 0x10 | 0x12 => len == 4,
        0x11 | 0x13 => len == 5,
        0x01 => len == 6,
        0x02 => len == 7,
        0x06 => len > 0,
        0x20 => true,
        _ => false,
    }
}

// How many bytes the record at the front has, where it is whole and not bad.
fn size(s: &[u8]) -> Option<usize> {
    let (&[first, second, kind, len], payload) = s.split_first_chunk::<4>()?;
    let n = usize::from(len);
    let is_good = (first == 0xA5) & (second == 0x5A) & is_listed(kind, len) & (n <= payload.len());
    is_good.then_some(4 + n)
}

fn walk(s: &[u8]) -> Reach {
    let mut w = Reach { records: 0, at: 0 };
    for _ in s {
        let Some(n) = s.get(w.at..).and_then(size) else {
            break;
        };
        w = Reach {
            records: w.records.saturating_add(1),
            at: w.at.saturating_add(n),
        };
    }
    w
}

// Whether a text is a line for each whole record, the first of them as in the right text, and behind them nothing but the bad
// line that the walk tells: a bad line is the only one with a `b`.
fn is_told(said: &[u8], right: &[u8], same: usize, w: Reach, is_bad: bool) -> bool {
    let (Some(first), Some(all)) = (lines(right, same), lines(said, w.records)) else {
        return false;
    };
    let mut line = [0u8; 32];
    let offset = desk_text::put_bytes(&mut line, 0, b"bad ");
    let behind = desk_text::put_decimal(&mut line, offset, w.at as u64);
    let end = desk_text::put_byte(&mut line, behind, b'\n');
    let bad = line.get(..if is_bad { end } else { 0 });
    let is_same = said.get(..first) == right.get(..first);
    let is_answered = said.get(first..all).is_some_and(|s| !s.contains(&b'b'));
    is_same & is_answered & (said.get(all..) == bad)
}

fn tell(rt: &impl Print, c: Spot) -> io::Result<()> {
    let Spot { at, bits } = c;
    let bits = bits.unwrap_or(0);
    print!(rt; "with byte {at} changed by {bits}; ")
}

// Tries a damaged stream: what stands before the damaged record is answered as before, and the rest as the walk tells. A refusal reads
// and writes nothing.
fn tried(
    rt: &impl Print,
    case: &mut Case<'_, '_>,
    s: &[u8],
    c: Spot,
    t: &mut Tally,
) -> io::Result<bool> {
    let before = walk(s.get(..c.at).unwrap_or(&[]));
    let w = walk(s);
    let is_bad = w.at < s.len();
    let mut out = [0u8; 16384];
    let mut words = case.start;
    // A refusal reads nothing and writes nothing.
    let came = desk_stream::serve(&mut words, case.ring, s, 0, true, &mut out).unwrap_or(Came {
        read: 0,
        written: 0,
        ended: false,
    });
    let said = out.get(..came.written).unwrap_or(&[]);
    let is_right = (came.read == w.at)
        & (came.ended == is_bad)
        & (before.at <= w.at)
        & is_told(said, case.right, before.records, w, is_bad);
    match c.bits {
        None => t.prefixes = t.prefixes.saturating_add(1),
        Some(_) if is_bad => t.bad = t.bad.saturating_add(1),
        Some(_) => t.answered = t.answered.saturating_add(1),
    }
    if !is_right {
        tell(rt, c)?;
    }
    Ok(is_right)
}

// Tries a stream as a damage leaves it.
fn damaged(
    rt: &impl Print,
    case: &mut Case<'_, '_>,
    s: &mut [u8],
    c: Spot,
    t: &mut Tally,
) -> io::Result<bool> {
    let Some(bits) = c.bits else {
        return tried(rt, case, s.get(..c.at).unwrap_or(&[]), c, t);
    };
    flip(s, c.at, bits);
    let is_right = tried(rt, case, s, c, t)?;
    flip(s, c.at, bits);
    Ok(is_right)
}

fn flip(s: &mut [u8], at: usize, bits: u8) {
    if let Some(b) = s.get_mut(at) {
        *b ^= bits;
    }
}

// The next damage: the byte gets the 255 other values where each is changed, five of them where every seventh is.
fn onward(c: Spot, which: Which, len: usize) -> Spot {
    let (is_changed, step) = match which {
        Which::Each => (true, 1),
        Which::Seventh => (c.at % 7 == 0, 51),
    };
    match c.bits.unwrap_or(0).checked_add(step) {
        Some(bits) if is_changed & (c.at < len) => Spot {
            at: c.at,
            bits: Some(bits),
        },
        _ => Spot {
            at: c.at.saturating_add(1),
            bits: None,
        },
    }
}

// Tries a stream in cuts, and where bytes are changed with damage: each prefix, and these bytes.
pub fn hold(
    rt: &impl Print,
    case: &mut Case<'_, '_>,
    s: &mut [u8],
    changed: Option<Which>,
    t: &mut Tally,
) -> io::Result<bool> {
    if !are_right(rt, case, s)? {
        return Ok(false);
    }
    let Some(which) = changed else {
        return Ok(true);
    };
    let mut c = Spot { at: 0, bits: None };
    // So many turns at most: what a long stream has beyond them is not tried.
    for _ in 0..1000000 {
        if s.len() < c.at {
            break;
        }
        if !damaged(rt, case, s, c, t)? {
            return Ok(false);
        }
        c = onward(c, which, s.len());
    }
    Ok(true)
}
