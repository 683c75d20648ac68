// Fetch by name.
#![tactic(auto, unfolding(rules::specs::Machine::step, rules::specs::Machine::refusals, rules::specs::Machine::scan_refusals, rules::specs::Machine::effect, rules::specs::Machine::scan_effect, rules::specs::Calls::answer))]

ghost use Rattle.std.specs.Prelude.{◌≡◌, true, Ok, not, ◌||◌, ◌&&◌, ◌-◌, ◌<◌, ◌≤◌, min, eqb, length};
ghost use Rattle.rules.specs.Record.{idle, finishing, sound};
ghost use Rattle.rules.specs.Name.{name, same};
ghost use Rattle.rules.specs.Moves.{least};
ghost use Rattle.rules.specs.Calls.{scan, Fetch};
ghost use Rattle.rules.specs.Machine.{step};
ghost use Rattle.ring.specs.Lent.{has, goes_out};
ghost use Rattle.moves.specs.Holds.{is_named};
ghost use Rattle.answers.specs.Told.{state_of, gave};
ghost use Rattle.fetch.specs.Reply.{reply_with, noted};

use answers::{Answer, Told, Why};
use rules::{Record, Ring, Scan};

// Idle, or not the present name.
fn is_other(called: &[u8], r: Record) -> bool
    ensures { result ≡ (idle r.scanner.state || not (same called.now (name r))) }
{
    (r.scanner.state == Scan::Idle) | !name::is_present(called, r)
}

// As many bytes as find room behind the reply's head, and the head: how many.
#[tactic(auto, using(crate::proofs::Handed::made))]
fn move_out(ring: &[u8], start: usize, want: usize, reply: &mut [u8]) -> usize
    requires { (want < 256) × (4 ≤ length reply.old) }
    ensures value { result ≡ goes_out (length ring.now) start want (length reply.old - 4) }
    ensures reply_after { reply.new ≡ reply_with ring.now start result reply.old }
{
    let k = ring::take_out(ring, start, want, &mut reply[4..]);
    reply[..4].copy_from_slice(&[0xA5, 0x5A, 0x06, k as u8]);
    k
}

// It leaves none stored in Finishing.
fn is_last(left: Ring, r: Record) -> bool
    ensures { result ≡ (finishing r.scanner.state && eqb left.stored 0) }
{
    (r.scanner.state == Scan::Finishing) & (left.stored == 0)
}

// Start moves on by k; the drain step follows the last byte, of a record whose last name is its own.
#[tactic(auto, unfolding(crate::specs::Reply::noted, rules::specs::Moves::fetched, rules::specs::Moves::moved))]
fn note(r: &mut Record, len: usize, k: usize) -> Told
    requires { k < 256 }
    ensures { has r.old.ring len k ≡ true → (finishing r.old.scanner.state ≡ true → is_named r.old ≡ true)
        → record { next = r.new; answer = Ok result } ≡ noted k len r.old }
{
    let left = ring::leave(r.ring, len, k);
    let last = is_last(left, *r);
    *r = moves::hear(k, left, *r);
    if last {
        *r = moves::drain(*r);
    }
    Told::Picture(k as u8, last)
}

// The smaller of what is stored and what is asked for goes out, as far as it finds room.
fn fetch_now(r: &mut Record, ring: &[u8], most: u8, reply: &mut [u8]) -> Told
    requires { 4 ≤ length reply.old }
    ensures value { sound r.old (length ring.now) ≡ true → record { next = r.new; answer = Ok result }
        ≡ noted (least r.old.ring.stored most (length reply.old)) (length ring.now) r.old }
    ensures reply_after { sound r.old (length ring.now) ≡ true → reply.new
        ≡ reply_with ring.now r.old.ring.start (least r.old.ring.stored most (length reply.old)) reply.old }
{
    let want = r.ring.stored.min(usize::from(most));
    let k = move_out(ring, r.ring.start, want, reply);
    note(r, ring.len(), k)
}

// What it gives on a sound record: for a caller that has tested that already. It takes any record, so soundness is a premise.
pub fn fetch_sound(r: &mut Record, ring: &[u8], called: &[u8], most: u8, reply: &mut [u8]) -> Answer
    ensures { sound r.old (length ring.now) ≡ true → gave (record { next = r.new; answer = result }) ring.now reply.new
        ≡ step (state_of r.old ring.now) (scan (Fetch called.now most reply.old)) }
{
    if is_other(called, *r) {
        return Err(Why::OtherName);
    }
    if reply.len() < 4 {
        return Err(Why::NoRoom);
    }
    Ok(fetch_now(r, ring, most, reply))
}

pub fn fetch(r: &mut Record, ring: &[u8], called: &[u8], most: u8, reply: &mut [u8]) -> Answer
    ensures { gave (record { next = r.new; answer = result }) ring.now reply.new
        ≡ step (state_of r.old ring.now) (scan (Fetch called.now most reply.old)) }
{
    if !sound::sound_with(*r, ring) {
        return Err(Why::Unsound);
    }
    fetch_sound(r, ring, called, most, reply)
}
