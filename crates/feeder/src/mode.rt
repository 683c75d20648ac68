// The feeder's mode and state.
#![tactic(auto, unfolding(rules::specs::Machine::step, rules::specs::Machine::refusals, rules::specs::Machine::feeder_refusals, rules::specs::Machine::effect, rules::specs::Machine::feeder_effect, rules::specs::Calls::answer))]

ghost use Rattle.std.specs.Prelude.{◌≡◌, true, [], length};
ghost use Rattle.rules.specs.Record.{sound};
ghost use Rattle.rules.specs.Calls.{feeder, SetFeederMode, GetFeederState, GetFeederMode};
ghost use Rattle.rules.specs.Machine.{step};
ghost use Rattle.answers.specs.Told.{state_of, gave};

use answers::{Answer, Told, Why};
use rules::{Feed, Feeder, Record};

// The one mode is 0, Simplex.
pub fn set_feeder_mode_sound(r: Record, ring: &[u8], job: u32, mode: u8) -> Answer
    ensures { sound r (length ring.now) ≡ true
        → gave (record { next = r; answer = result }) ring.now [] ≡ step (state_of r ring.now) (feeder (SetFeederMode job mode)) }
{
    if mode != Feeder::SIMPLEX {
        return Err(Why::Unlisted);
    }
    if words::not_ours(job, r) {
        return Err(Why::OtherJob);
    }
    if r.feeder.state != Feed::Unloaded {
        return Err(Why::WrongState);
    }
    Ok(Told::Done)
}

pub fn set_feeder_mode(r: Record, ring: &[u8], job: u32, mode: u8) -> Answer
    ensures { gave (record { next = r; answer = result }) ring.now [] ≡ step (state_of r ring.now) (feeder (SetFeederMode job mode)) }
{
    if !sound::sound_with(r, ring) {
        return Err(Why::Unsound);
    }
    set_feeder_mode_sound(r, ring, job, mode)
}

pub fn get_feeder_mode_sound(r: Record, ring: &[u8]) -> Answer
    ensures { sound r (length ring.now) ≡ true
        → gave (record { next = r; answer = result }) ring.now [] ≡ step (state_of r ring.now) (feeder GetFeederMode) }
{
    Ok(Told::Mode(Feeder::SIMPLEX))
}

pub fn get_feeder_mode(r: Record, ring: &[u8]) -> Answer
    ensures { gave (record { next = r; answer = result }) ring.now [] ≡ step (state_of r ring.now) (feeder GetFeederMode) }
{
    if !sound::sound_with(r, ring) {
        return Err(Why::Unsound);
    }
    get_feeder_mode_sound(r, ring)
}

pub fn get_state_sound(r: Record, ring: &[u8]) -> Answer
    ensures { sound r (length ring.now) ≡ true
        → gave (record { next = r; answer = result }) ring.now [] ≡ step (state_of r ring.now) (feeder GetFeederState) }
{
    let f = r.feeder;
    Ok(Told::Feeding(f.state, f.tray, f.failure))
}

pub fn get_state(r: Record, ring: &[u8]) -> Answer
    ensures { gave (record { next = r; answer = result }) ring.now [] ≡ step (state_of r ring.now) (feeder GetFeederState) }
{
    if !sound::sound_with(r, ring) {
        return Err(Why::Unsound);
    }
    get_state_sound(r, ring)
}
