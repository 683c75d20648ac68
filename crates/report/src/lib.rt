// The five sensor reports; a second is a Tick. A call whose name ends in `_sound` says what it gives on a sound record only: for a
// caller that has tested that already. It takes any record, so soundness is a premise: a type would ask more of whoever calls it.
#![tactic(auto, using(crate::proofs::Room::exceeds, crate::proofs::Named::scans_named), unfolding(rules::specs::Machine::step, rules::specs::Machine::refusals, rules::specs::Machine::report_refusals, rules::specs::Machine::effect, rules::specs::Machine::report_effect, rules::specs::Calls::answer, rules::specs::Moves::filled))]

ghost use Rattle.std.specs.Prelude.{◌≡◌, true, List, [], ℕ, ◌+◌, ◌^◌, ◌<◌, length as len, Ok};
ghost use Rattle.rules.specs.Record.{sound};
ghost use Rattle.rules.specs.Moves.{filled};
ghost use Rattle.rules.specs.Calls.{report, Bytes, SideEnded, Tray, Path, Tick};
ghost use Rattle.rules.specs.Machine.{step};
ghost use Rattle.answers.specs.declared.Told.{Told};
ghost use Rattle.answers.specs.Told.{state_of, gave};

use answers::{Answer, Told, Why};
use rules::{Record, Ring, Scan};

// k bytes more are stored; a sign of life where that is 1 or more.
fn fuller(k: usize, r: Record) -> Record
    requires { r.ring.stored + k < 2 ^ 64 }
    ensures { result ≡ filled k r }
{
    let g = Ring {
        stored: r.ring.stored + k,
        ..r.ring
    };
    moves::hear(k, g, r)
}

// All into the ring or none.
pub fn bytes_sound(r: &mut Record, ring: &mut [u8], given: &[u8]) -> Answer
    ensures { sound r.old (len ring.old) ≡ true
        → gave (record { next = r.new; answer = result }) ring.new [] ≡ step (state_of r.old ring.old) (report (Bytes given.now)) }
{
    if r.scanner.state != Scan::Scanning {
        return Err(Why::WrongState);
    }
    if !ring::put_in(ring, r.ring, given) {
        return Err(Why::NoRoom);
    }
    let k = given.len();
    *r = fuller(k, *r);
    Ok(Told::Stored(k))
}

pub fn bytes(r: &mut Record, ring: &mut [u8], given: &[u8]) -> Answer
    ensures { gave (record { next = r.new; answer = result }) ring.new [] ≡ step (state_of r.old ring.old) (report (Bytes given.now)) }
{
    if !sound::is_sound(*r, ring.len()) {
        return Err(Why::Unsound);
    }
    bytes_sound(r, ring, given)
}

pub fn side_ended_sound(r: &mut Record, ring: &[u8]) -> Answer
    ensures { sound r.old (len ring.now) ≡ true
        → gave (record { next = r.new; answer = result }) ring.now [] ≡ step (state_of r.old ring.now) (report SideEnded) }
{
    if r.scanner.state != Scan::Scanning {
        return Err(Why::WrongState);
    }
    *r = sensors::end_side(*r);
    Ok(Told::Done)
}

pub fn side_ended(r: &mut Record, ring: &[u8]) -> Answer
    ensures { gave (record { next = r.new; answer = result }) ring.now [] ≡ step (state_of r.old ring.now) (report SideEnded) }
{
    if !sound::sound_with(*r, ring) {
        return Err(Why::Unsound);
    }
    side_ended_sound(r, ring)
}

pub fn tray_sound(r: &mut Record, ring: &[u8], value: u8) -> Answer
    ensures { sound r.old (len ring.now) ≡ true
        → gave (record { next = r.new; answer = result }) ring.now [] ≡ step (state_of r.old ring.now) (report (Tray value)) }
{
    if !words::is_marked(value) {
        return Err(Why::Unlisted);
    }
    r.feeder = feeding::set_tray(value, r.feeder);
    Ok(Told::Done)
}

pub fn tray(r: &mut Record, ring: &[u8], value: u8) -> Answer
    ensures { gave (record { next = r.new; answer = result }) ring.now [] ≡ step (state_of r.old ring.now) (report (Tray value)) }
{
    if !sound::sound_with(*r, ring) {
        return Err(Why::Unsound);
    }
    tray_sound(r, ring, value)
}

pub fn path_sound(r: &mut Record, ring: &[u8], value: u8) -> Answer
    ensures { sound r.old (len ring.now) ≡ true
        → gave (record { next = r.new; answer = result }) ring.now [] ≡ step (state_of r.old ring.now) (report (Path value)) }
{
    if !words::is_marked(value) {
        return Err(Why::Unlisted);
    }
    *r = sensors::set_path(value, *r);
    Ok(Told::Done)
}

pub fn path(r: &mut Record, ring: &[u8], value: u8) -> Answer
    ensures { gave (record { next = r.new; answer = result }) ring.now [] ≡ step (state_of r.old ring.now) (report (Path value)) }
{
    if !sound::sound_with(*r, ring) {
        return Err(Why::Unsound);
    }
    path_sound(r, ring, value)
}

// What a ring's bytes are matters to no second, only how many they are. A second of a sound record is accepted, so the record is all.
pub fn tick_sound(r: Record) -> Record
    ensures { (ring : List ℕ) → sound r (len ring) ≡ true
        → gave (record { next = result; answer = Ok Told.Done }) ring [] ≡ step (state_of r ring) (report Tick) }
{
    sensors::tick(r)
}

pub fn tick_in(r: &mut Record, length: usize) -> Answer
    ensures { (ring : List ℕ) → len ring ≡ length
        → gave (record { next = r.new; answer = result }) ring [] ≡ step (state_of r.old ring) (report Tick) }
{
    if !sound::is_sound(*r, length) {
        return Err(Why::Unsound);
    }
    *r = tick_sound(*r);
    Ok(Told::Done)
}

pub fn tick(r: &mut Record, ring: &[u8]) -> Answer
    ensures { gave (record { next = r.new; answer = result }) ring.now [] ≡ step (state_of r.old ring.now) (report Tick) }
{
    tick_in(r, ring.len())
}
