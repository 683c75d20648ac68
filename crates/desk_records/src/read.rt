// Reading at a place of any bytes. Inside, the first byte that is wrong is known.
ghost use Rattle.std.specs.Prelude.{◌≡◌, Some, drop};
ghost use Rattle.desk_kinds.specs.Numbers.{big_endian};
ghost use Rattle.desk_kinds.specs.Kinds.{limits_of};
ghost use Rattle.desk_records.specs.Reading.{sized, front, read_with, read_at, cut_at, part_of};
ghost use Rattle.desk_records.specs.Hearing.{hear_at};

use crate::{Bad, FIRST_MARK, FORM, Fault, Form, Found, Hearing, KIND_AT, LENGTH_AT, Whole, Wrong};
use desk_kinds::{Limits, numbers, table};

// The length, in one or two bytes at a place; 0 where they are not there.
fn length_in(s: &[u8], i: usize, form: Form) -> usize
    ensures { result ≡ big_endian form.width (drop i s.now) }
{
    match form.width {
        1 => usize::from(numbers::byte_at(s, i)),
        _ => usize::from(numbers::word_at(s, i)),
    }
}

// The length and the payload of a kind that the table was asked for.
#[tactic(auto, unfolding(crate::specs::Reading::sized))]
fn length_and_payload(s: &[u8], kind: u8, limits: Limits, form: Form) -> Result<Whole, Wrong>
    requires limits_of_kind { Some limits ≡ limits_of kind }
    ensures { result ≡ sized kind form.width s.now }
{
    let cut = Wrong {
        fault: Fault::Cut,
        at: s.len(),
    };
    if s.len() < form.head() {
        return Err(cut);
    }
    let len = length_in(s, LENGTH_AT, form);
    if !table::admits(Some(limits), len) {
        return Err(Wrong {
            fault: Fault::Length,
            at: LENGTH_AT,
        });
    }
    if s.len() - form.head() < len {
        return Err(cut);
    }
    Ok(Whole { kind, len })
}

#[tactic(auto, unfolding(crate::specs::Reading::front))]
fn front_with(s: &[u8], form: Form) -> Result<Whole, Wrong>
    ensures { result ≡ front form.mark form.width s.now }
{
    let cut = Wrong {
        fault: Fault::Cut,
        at: s.len(),
    };
    if s.len() < 1 {
        return Err(cut);
    }
    if s[0] != FIRST_MARK {
        return Err(Wrong {
            fault: Fault::Mark,
            at: 0,
        });
    }
    if s.len() < 2 {
        return Err(cut);
    }
    if s[1] != form.mark {
        return Err(Wrong {
            fault: Fault::Mark,
            at: 1,
        });
    }
    if s.len() < LENGTH_AT {
        return Err(cut);
    }
    let kind = s[KIND_AT];
    let limits = table::limits(kind).ok_or(Wrong {
        fault: Fault::Kind,
        at: KIND_AT,
    })?;
    length_and_payload(s, kind, limits, form)
}

// What stands at a place, at or past the end too.
fn front_at(s: &[u8], at: usize, form: Form) -> Result<Whole, Wrong>
    ensures { result ≡ front form.mark form.width (drop at s.now) }
{
    front_with(s.get(at..).unwrap_or(&[]), form)
}

// Whether the head is there is asked once, and not byte by byte: which byte is wrong is for `front_at` to tell. The place is tested
// before it is taken off: `saturating_sub` in its stead takes 17 instructions more for a record, beside 46.
#[tactic(auto, unfolding(crate::specs::Reading::read_with, crate::specs::Reading::placed, crate::specs::Reading::front, crate::specs::Reading::sized))]
fn read_with(s: &[u8], at: usize, form: Form) -> Result<Found, Bad>
    ensures { result ≡ read_with form.mark form.width s.now at }
{
    let bad = Bad { at };
    if s.len() <= at {
        return Err(bad);
    }
    let left = s.len() - at;
    if left < form.head() {
        return Err(bad);
    }
    if (s[at] != FIRST_MARK) | (s[at + 1] != form.mark) {
        return Err(bad);
    }
    let kind = s[at + KIND_AT];
    let len = length_in(s, at + LENGTH_AT, form);
    if !table::admits(table::limits(kind), len) {
        return Err(bad);
    }
    if left - form.head() < len {
        return Err(bad);
    }
    let start = at + form.head();
    Ok(Found {
        kind,
        start,
        len,
        next: start + len,
    })
}

// The record at a place, or bad; for any bytes and any place, at or past their end too.
pub fn read(s: &[u8], at: usize) -> Result<Found, Bad>
    ensures { result ≡ read_at s.now at }
{
    read_with(s, at, FORM)
}

// Whether the bytes from a place on are right as far as they go, and end before a record does.
pub fn is_cut(s: &[u8], at: usize) -> bool
    ensures { result ≡ cut_at s.now at }
{
    front_at(s, at, FORM).is_err_and(|wrong| matches!(wrong.fault, Fault::Cut))
}

// The payload, as a part of the caller's own bytes. Any place and length will do, not only those of a record: `part_of` is promised
// for all.
pub fn payload(s: &[u8], start: usize, len: usize) -> &[u8]
    ensures { result.now ≡ part_of s.now start len }
{
    match s.get(start..) {
        Some(rest) if len <= rest.len() => &rest[..len],
        _ => &[],
    }
}

// The record at a place and what it asks, or bad. A record that reads asks something (`every-record-asks`), so that only
// reading makes it bad.
#[tactic(auto, unfolding(crate::specs::Hearing::hear_at))]
pub fn hear(s: &[u8], at: usize) -> Result<Hearing, Bad>
    ensures { result ≡ hear_at s.now at }
{
    let found = read(s, at)?;
    let body = payload(s, found.start, found.len);
    let request = desk_kinds::payload::request(found.kind, body).ok_or(Bad { at })?;
    Ok(Hearing { request, found })
}
