// The files of data/: bytes, hexadecimal digits, and the list.
use crate::ROOM;
use std::io::Read;
use std::rt::Files;
use std::{fs, io, str};

// How many bytes the first `n` lines have, where there are so many.
pub fn lines(s: &[u8], n: usize) -> Option<usize> {
    let mut at: usize = 0;
    for _ in 0..n {
        let line = s.get(at..)?.iter().position(|&b| b == b'\n')?;
        at = at.saturating_add(line).saturating_add(1);
    }
    Some(at)
}

// A word, up to the first mark, and what stands behind the mark. Where there is no mark, both are empty.
pub fn word(s: &[u8], mark: u8) -> (&[u8], &[u8]) {
    let Some(at) = s.iter().position(|&b| b == mark) else {
        return (&[], &[]);
    };
    let rest = s.get(at.saturating_add(1)..);
    (s.get(..at).unwrap_or(&[]), rest.unwrap_or(&[]))
}

// Reads until the buffer is full, the file ends or a read fails, and answers how many bytes it put at the buffer's front. How far a
// step goes is the read's to tell, so it is no `for`.
fn read_full(file: &mut impl Read, buf: &mut [u8]) -> usize {
    let mut done: usize = 0;
    while done < buf.len() {
        match file.read(&mut buf[done..]) {
            Ok(0) | Err(_) => break,
            Ok(n) => done += n,
        }
    }
    done
}

// How many of a file's bytes are read, as many as the buffer has at most; nothing where there is no such file. A path is text: where the
// bytes are none, it is the empty one, which no file has.
pub fn load(
    rt: &(impl Files + Eprint),
    name: &[u8],
    kind: &[u8],
    buf: &mut [u8],
) -> io::Result<Option<usize>> {
    let mut bytes = [0u8; 64];
    let stem = desk_text::put_bytes(&mut bytes, 0, name);
    let end = desk_text::put_bytes(&mut bytes, stem, kind);
    let path = bytes
        .get(..end)
        .and_then(|b| str::from_utf8(b).ok())
        .unwrap_or("");
    match fs::open(rt, path) {
        Ok(mut file) => Ok(Some(read_full(&mut file, buf))),
        Err(e) => {
            eprintln!(rt; "{path}: {e}")?;
            Ok(None)
        }
    }
}

// A digit's value.
fn digit(b: u8) -> Option<u8> {
    match b {
        b'0'..=b'9' => Some(b - b'0'),
        b'A'..=b'F' => Some(b - b'A' + 10),
        _ => None,
    }
}

// The number that some digits say, as far as it has ten. Any other byte counts as 16: every list gets its cases, and no word is refused.
pub fn number(s: &[u8]) -> u64 {
    let mut n: u64 = 0;
    for &b in s {
        n = n % 1000000000 * 10 + u64::from(digit(b).unwrap_or(16));
    }
    n
}

// The bytes of digits, two to a byte, with blanks, and with comments, which begin with a `#` and end with their line: how many they
// are; nothing where any other byte stands there, a digit has no second, or they do not fit.
fn unhex(s: &[u8], out: &mut [u8]) -> Option<usize> {
    let mut n: usize = 0;
    let mut first: Option<u8> = None;
    let mut is_comment = false;
    for &b in s {
        is_comment = (is_comment | (b == b'#')) & (b != b'\n');
        if is_comment | (b == b' ') | (b == b'\n') {
            continue;
        }
        let d = digit(b)?;
        let Some(high) = first else {
            first = Some(d);
            continue;
        };
        *out.get_mut(n)? = high << 4 | d;
        first = None;
        n = n.saturating_add(1);
    }
    first.is_none().then_some(n)
}

// A stream, of bytes or of digits: how many bytes it has; nothing where it has as many as the buffer, or is not there.
pub fn stream(
    rt: &(impl Files + Eprint),
    name: &[u8],
    kind: &[u8],
    buf: &mut [u8],
) -> io::Result<Option<usize>> {
    if kind != b".hex".as_slice() {
        let len = load(rt, name, kind, buf)?;
        return Ok(len.filter(|&n| n < buf.len()));
    }
    let mut digits = [0u8; ROOM];
    let len = load(rt, name, kind, &mut digits)?;
    Ok(
        len.and_then(|n| digits.get(..n))
            .and_then(|s| unhex(s, buf)),
    )
}
