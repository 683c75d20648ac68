// Stop and Abort.
#![tactic(auto, unfolding(rules::specs::Machine::step, rules::specs::Machine::refusals, rules::specs::Machine::scan_refusals, rules::specs::Machine::effect, rules::specs::Machine::scan_effect, rules::specs::Calls::answer))]

ghost use Rattle.std.specs.Prelude.{◌≡◌, true, [], length};
ghost use Rattle.rules.specs.Record.{sound};
ghost use Rattle.rules.specs.Calls.{scan, Stop, Abort};
ghost use Rattle.rules.specs.Machine.{step};
ghost use Rattle.answers.specs.Told.{state_of, gave};

use answers::{Answer, Told, Why};
use rules::Record;

pub fn stop_sound(r: &mut Record, ring: &[u8], job: u32) -> Answer
    ensures { sound r.old (length ring.now) ≡ true
        → gave (record { next = r.new; answer = result }) ring.now [] ≡ step (state_of r.old ring.now) (scan (Stop job)) }
{
    if words::not_held(job, *r) {
        return Err(Why::OtherJob);
    }
    *r = jobs::stop(*r);
    Ok(Told::Done)
}

pub fn stop(r: &mut Record, ring: &[u8], job: u32) -> Answer
    ensures { gave (record { next = r.new; answer = result }) ring.now [] ≡ step (state_of r.old ring.now) (scan (Stop job)) }
{
    if !sound::sound_with(*r, ring) {
        return Err(Why::Unsound);
    }
    stop_sound(r, ring, job)
}

pub fn abort_sound(r: &mut Record, ring: &[u8], job: u32) -> Answer
    ensures { sound r.old (length ring.now) ≡ true
        → gave (record { next = r.new; answer = result }) ring.now [] ≡ step (state_of r.old ring.now) (scan (Abort job)) }
{
    if words::not_held(job, *r) {
        return Err(Why::OtherJob);
    }
    *r = moves::end(*r);
    Ok(Told::Done)
}

pub fn abort(r: &mut Record, ring: &[u8], job: u32) -> Answer
    ensures { gave (record { next = r.new; answer = result }) ring.now [] ≡ step (state_of r.old ring.now) (scan (Abort job)) }
{
    if !sound::sound_with(*r, ring) {
        return Err(Why::Unsound);
    }
    abort_sound(r, ring, job)
}
