// The desk held to the cases of data/. Its file `list` has a line for each, such as
//
//     edges/ring_1 .hex 1 fresh 0
//
// The stream is in edges/ring_1.hex, its right lines are in edges/ring_1.txt; the ring has 1 byte, and the record is a fresh one.
// Where the record is not sound with the ring the one line is `604 0 0`: nothing is read, and nothing written.
// Each stream is answered in cuts. Where the last number is not 0, so is each of its prefixes, and the stream with one byte changed:
// each byte in turn (1), or every seventh (any other number).
#![tactic(auto)]

use damage::Which;
use files::word;
use rules::{Failure, Named, Names, Record, Scan, Scanner};
use std::io;
use std::rt::Files;
use stored::WORDS;

mod cuts;
mod damage;
mod files;

// How many bytes of a file are read, and how many the text of a stream has at most. A stream has fewer.
pub const ROOM: usize = 65536;

// What was tried: cases, prefixes, and changes that were answered or bad.
#[derive(Clone, Copy)]
pub struct Tally {
    pub cases: u64,
    pub differ: u64,
    pub prefixes: u64,
    pub answered: u64,
    pub bad: u64,
}

// What a stream is answered by and held to: the box's numbers at the outset, the ring that it is lent, and the right text.
#[derive(Drop)]
pub struct Case<'r, 't> {
    pub start: [u64; WORDS],
    pub ring: &'r mut [u8],
    pub right: &'t [u8],
}

// J0000000001001.jpg, and J0000000001998.jpg.
fn named(second: u64) -> Names {
    let last = Named {
        first: 0x4A30303030303030,
        second,
        third: 0x7067,
        len: 18,
    };
    Names { last }
}

// The record that a word names. Idle with SideNumber 2 is not sound; Idle with a last name is that of a box that other hands have
// kept; any other word is a number, the last job given and the DestinationID.
fn start(word: &[u8]) -> Record {
    let mut r = Record::fresh();
    match word {
        b"fresh" => {}
        b"unsound" => r.side.number = 2,
        b"named" => r.names = named(0x3030313030312E6A),
        b"side_998" => {
            r.scanner = Scanner {
                state: Scan::Pending,
                failure: Failure::None,
            };
            r.job.held = 1;
            r.job.last = 1;
            r.side.number = 998;
            r.names = named(0x3030313939382E6A);
        }
        digits => {
            let n = (files::number(digits) % 4294967296) as u32;
            r.job.last = n;
            r.side.destination = n;
        }
    }
    r
}

// The words of a line: a name, its stream's kind, the ring's length, the record's word, and which bytes are changed.
#[derive(Drop)]
struct Line<'l> {
    name: &'l [u8],
    kind: &'l [u8],
    len: u64,
    record: Record,
    changed: Option<Which>,
}

// The words at the front of what is left of the list. The last is all up to the line's end; one that no mark ends is empty.
fn words(list: &[u8]) -> Line<'_> {
    let (name, rest) = word(list, b' ');
    let (kind, rest) = word(rest, b' ');
    let (len, rest) = word(rest, b' ');
    let (record, rest) = word(rest, b' ');
    let (every, _) = word(rest, b'\n');
    Line {
        name,
        kind,
        len: files::number(len),
        record: start(record),
        changed: match files::number(every) {
            0 => None,
            1 => Some(Which::Each),
            _ => Some(Which::Seventh),
        },
    }
}

// A case's files read, and its stream tried. Where there is no text, zero bytes stand for it, which no stream is answered by.
fn is_right(
    rt: &(impl Files + Print + Eprint),
    line: &Line<'_>,
    t: &mut Tally,
) -> io::Result<bool> {
    let mut input = [0u8; ROOM];
    let mut right = [0u8; ROOM];
    let mut ring = [0u8; 65537];
    let n = files::stream(rt, line.name, line.kind, &mut input)?;
    let m = files::load(rt, line.name, b".txt", &mut right)?.unwrap_or(ROOM);
    let Some(stream) = n.and_then(|n| input.get_mut(..n)) else {
        print!(rt; "not read; ")?;
        return Ok(false);
    };
    let len = usize::try_from(line.len).ok();
    let Some(ring) = len.and_then(|len| ring.get_mut(..len)) else {
        print!(rt; "no such ring; ")?;
        return Ok(false);
    };
    let mut case = Case {
        start: [0; WORDS],
        ring,
        right: right.get(..m).unwrap_or(&[]),
    };
    stored::keep(&mut case.start, line.record);
    damage::hold(rt, &mut case, stream, line.changed, t)
}

// Each line's case. Where it differs is told before its name.
fn cases(rt: &(impl Files + Print + Eprint), list: &[u8], t: &mut Tally) -> io::Result<()> {
    let mut rest = list;
    // So many lines at most, since each loop has to end.
    for _ in 0..1000 {
        if rest.is_empty() {
            break;
        }
        let line = words(rest);
        t.cases = t.cases.saturating_add(1);
        if !is_right(rt, &line, t)? {
            t.differ = t.differ.saturating_add(1);
            rt.write_all(b"differs: ")?;
            rt.write_all(line.name)?;
            rt.write_all(b"\n")?;
        }
        (_, rest) = word(rest, b'\n');
    }
    Ok(())
}

// Where there is no list, zero bytes stand for it: a case with no name, which differs.
fn main(rt: HostRuntime) -> io::Result<()> {
    let mut list = [0u8; ROOM];
    let n = files::load(&rt, b"list", b"", &mut list)?.unwrap_or(ROOM);
    let mut t = Tally {
        cases: 0,
        differ: 0,
        prefixes: 0,
        answered: 0,
        bad: 0,
    };
    cases(&rt, list.get(..n).unwrap_or(&[]), &mut t)?;
    let Tally {
        cases,
        differ,
        prefixes,
        answered,
        bad,
    } = t;
    println!(&rt; "{cases} cases, {differ} differ")?;
    println!(&rt; "{prefixes} prefixes; bytes changed: {answered} answered, {bad} bad")
}
