// The feeder calls: the job number must be the one held, 0 when Idle.
// A call's `_sound` is for a caller that knows the record to be sound with the ring: soundness is tested once.
// It takes any record, so soundness is a premise of its promise: a type for sound records would ask more of whoever calls it.
// Load and Reset differ in the rule's input alone: each is a call of the paper, and what they share is `by_rule`.
#![tactic(auto, unfolding(rules::specs::Machine::step, rules::specs::Machine::refusals, rules::specs::Machine::feeder_refusals, rules::specs::Machine::effect, rules::specs::Machine::feeder_effect, rules::specs::Calls::answer, rules::specs::Feeder::fed))]

pub mod mode;

ghost use Rattle.std.specs.Prelude.{◌≡◌, true, cond, [], length, Ok, Err};
ghost use Rattle.rules.specs.Record.{sound};
ghost use Rattle.rules.specs.Calls.{n501, n711, n713, feeder, Load, Eject, Reset};
ghost use Rattle.rules.specs.Feeder.{fed_at, denies, ejecting};
ghost use Rattle.rules.specs.Moves.{fed_by};
ghost use Rattle.rules.specs.Machine.{step};
ghost use Rattle.answers.specs.declared.Why.{Why};
ghost use Rattle.answers.specs.declared.Told.{Told};
ghost use Rattle.answers.specs.Told.{After, state_of, gave};

use answers::{Answer, Told, Why};
use rules::{Denial, Input, Record};

// What the feeder's rule makes of the record, and the answer for its denial: but for 713, a denied input changes nothing.
fn by_rule(input: Input, r: &mut Record) -> Answer
    ensures { ◌≡◌ {A = After} (record { next = r.new; answer = result })
        (cond (denies n501 (fed_at input r.old.feeder)) (record { next = r.old; answer = Err Why.WrongState })
        (cond (denies n711 (fed_at input r.old.feeder)) (record { next = r.old; answer = Err Why.FeederErred })
        (cond (denies n713 (fed_at input r.old.feeder)) (record { next = fed_by input r.old; answer = Err Why.NoSheet })
        (record { next = fed_by input r.old; answer = Ok Told.Done })))) }
{
    match feeding::rule::ask(input, r.feeder).denied {
        None => {
            *r = moves::feed(input, *r);
            Ok(Told::Done)
        }
        Some(Denial::NoSheet) => {
            *r = moves::feed(input, *r);
            Err(Why::NoSheet)
        }
        Some(Denial::WrongState) => Err(Why::WrongState),
        Some(Denial::Erred) => Err(Why::FeederErred),
    }
}

// 0 ejects one sheet, 1 and 2 all of them.
fn ejecting(value: u8) -> Input
    ensures { result ≡ ejecting value }
{
    if value == 0 {
        return Input::EjectOne;
    }
    Input::EjectAll
}

pub fn load_sound(r: &mut Record, ring: &[u8], job: u32) -> Answer
    ensures { sound r.old (length ring.now) ≡ true
        → gave (record { next = r.new; answer = result }) ring.now [] ≡ step (state_of r.old ring.now) (feeder (Load job)) }
{
    if words::not_ours(job, *r) {
        return Err(Why::OtherJob);
    }
    by_rule(Input::Load, r)
}

pub fn load(r: &mut Record, ring: &[u8], job: u32) -> Answer
    ensures { gave (record { next = r.new; answer = result }) ring.now [] ≡ step (state_of r.old ring.now) (feeder (Load job)) }
{
    if !sound::sound_with(*r, ring) {
        return Err(Why::Unsound);
    }
    load_sound(r, ring, job)
}

pub fn eject_sound(r: &mut Record, ring: &[u8], job: u32, value: u8) -> Answer
    ensures { sound r.old (length ring.now) ≡ true
        → gave (record { next = r.new; answer = result }) ring.now [] ≡ step (state_of r.old ring.now) (feeder (Eject job value)) }
{
    if !words::is_listed(value) {
        return Err(Why::Unlisted);
    }
    if words::not_ours(job, *r) {
        return Err(Why::OtherJob);
    }
    by_rule(ejecting(value), r)
}

pub fn eject(r: &mut Record, ring: &[u8], job: u32, value: u8) -> Answer
    ensures { gave (record { next = r.new; answer = result }) ring.now [] ≡ step (state_of r.old ring.now) (feeder (Eject job value)) }
{
    if !sound::sound_with(*r, ring) {
        return Err(Why::Unsound);
    }
    eject_sound(r, ring, job, value)
}

pub fn reset_sound(r: &mut Record, ring: &[u8], job: u32) -> Answer
    ensures { sound r.old (length ring.now) ≡ true
        → gave (record { next = r.new; answer = result }) ring.now [] ≡ step (state_of r.old ring.now) (feeder (Reset job)) }
{
    if words::not_ours(job, *r) {
        return Err(Why::OtherJob);
    }
    by_rule(Input::Reset, r)
}

pub fn reset(r: &mut Record, ring: &[u8], job: u32) -> Answer
    ensures { gave (record { next = r.new; answer = result }) ring.now [] ≡ step (state_of r.old ring.now) (feeder (Reset job)) }
{
    if !sound::sound_with(*r, ring) {
        return Err(Why::Unsound);
    }
    reset_sound(r, ring, job)
}
