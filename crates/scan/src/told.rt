// The scan calls that only tell.
#![tactic(auto, unfolding(rules::specs::Machine::step, rules::specs::Machine::refusals, rules::specs::Machine::scan_refusals, rules::specs::Machine::effect, rules::specs::Machine::scan_effect, rules::specs::Calls::answer))]

ghost use Rattle.std.specs.Prelude.{◌≡◌, true, [], length};
ghost use Rattle.rules.specs.Record.{sound};
ghost use Rattle.rules.specs.Calls.{scan, GetDestination, GetState, GetSideInformation};
ghost use Rattle.rules.specs.Machine.{step};
ghost use Rattle.answers.specs.Told.{state_of, gave};

use answers::{Answer, Told, Why};
use rules::Record;

// The name is that of the record, which stays.
pub fn get_destination_sound(r: Record, ring: &[u8], job: u32) -> Answer
    ensures { sound r (length ring.now) ≡ true
        → gave (record { next = r; answer = result }) ring.now [] ≡ step (state_of r ring.now) (scan (GetDestination job)) }
{
    if words::not_held(job, r) {
        return Err(Why::OtherJob);
    }
    Ok(Told::Destination(r.side.destination))
}

pub fn get_destination(r: Record, ring: &[u8], job: u32) -> Answer
    ensures { gave (record { next = r; answer = result }) ring.now [] ≡ step (state_of r ring.now) (scan (GetDestination job)) }
{
    if !sound::sound_with(r, ring) {
        return Err(Why::Unsound);
    }
    get_destination_sound(r, ring, job)
}

pub fn get_state_sound(r: Record, ring: &[u8]) -> Answer
    ensures { sound r (length ring.now) ≡ true
        → gave (record { next = r; answer = result }) ring.now [] ≡ step (state_of r ring.now) (scan GetState) }
{
    let c = r.scanner;
    Ok(Told::State(c.state, c.failure))
}

pub fn get_state(r: Record, ring: &[u8]) -> Answer
    ensures { gave (record { next = r; answer = result }) ring.now [] ≡ step (state_of r ring.now) (scan GetState) }
{
    if !sound::sound_with(r, ring) {
        return Err(Why::Unsound);
    }
    get_state_sound(r, ring)
}

// ScanLength stays 0.
pub fn get_side_information_sound(r: Record, ring: &[u8]) -> Answer
    ensures { sound r (length ring.now) ≡ true
        → gave (record { next = r; answer = result }) ring.now [] ≡ step (state_of r ring.now) (scan GetSideInformation) }
{
    let d = r.side;
    Ok(Told::Sides(d.number, d.count, 0))
}

pub fn get_side_information(r: Record, ring: &[u8]) -> Answer
    ensures { gave (record { next = r; answer = result }) ring.now [] ≡ step (state_of r ring.now) (scan GetSideInformation) }
{
    if !sound::sound_with(r, ring) {
        return Err(Why::Unsound);
    }
    get_side_information_sound(r, ring)
}
