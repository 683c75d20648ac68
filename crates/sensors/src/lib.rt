// What the sensor reports make of the record.
#![tactic(auto)]

ghost use Rattle.std.specs.Prelude.{◌≡◌, true, cond, ◌+◌, leb};
ghost use Rattle.rules.specs.Moves.{finished, side_ended, feeds, caught, pathed, timed_out, quiet_at, ticked};
ghost use Rattle.moves.specs.Holds.{is_named};

use rules::{Input, Record, Ring, Scan};

// Busy becomes Unloaded, SideCount falls, Finishing; a sign of life.
#[tactic(auto, unfolding(rules::specs::Moves::finished))]
fn finish(r: Record) -> Record
    ensures { result ≡ finished r }
{
    let mut n = moves::feed(Input::SideEnd, r);
    n.side.count = sides::fall(r.side.count);
    n.job.quiet = 0;
    moves::stand(Scan::Finishing, n)
}

// If the ring is empty the drain step follows at once; of a record whose last name is its own. That stays a condition in the contract: a
// type would ask more of callers, who bring any record.
#[tactic(auto, using(rules::proofs::Guards::guards, rules::proofs::Guards::numbers), unfolding(rules::specs::Moves::side_ended, rules::specs::Moves::finished))]
pub fn end_side(r: Record) -> Record
    ensures { is_named r ≡ true → result ≡ side_ended r }
{
    let n = finish(r);
    if r.ring.stored == 0 {
        moves::drain(n)
    } else {
        n
    }
}

// Scanning from the feeder.
fn is_fed(r: Record) -> bool
    ensures { result ≡ feeds r }
{
    (r.scanner.state == Scan::Scanning) & (r.settings.feeder == 1)
}

// The jam of a sheet that is being scanned: the ring is emptied and an asked stop forgotten; a sign of life.
fn catch(r: Record) -> Record
    ensures { result ≡ caught r }
{
    let mut n = moves::feed(Input::Jam, r);
    n.job.quiet = 0;
    n.job.stop = 0;
    n.ring = Ring {
        start: 0,
        stored: 0,
    };
    moves::fault(n)
}

// 0 sets the sensor only; 1 also makes the feeder Erred, Jammed.
#[tactic(auto, using(rules::proofs::Guards::guards, rules::proofs::Guards::numbers), unfolding(rules::specs::Moves::pathed))]
pub fn set_path(value: u8, r: Record) -> Record
    ensures { result ≡ pathed value r }
{
    if value == 1 {
        if is_fed(r) {
            return catch(r);
        }
        return moves::feed(Input::Jam, r);
    }
    moves::with_feeder(feeding::set_path(0, r.feeder), r)
}

// Held: quiet plus 1; where that is due, the job ends by time. By way of 32 bits, which takes two instructions fewer than `saturating_add`.
fn pass_second(due: u16, r: Record) -> Record
    ensures { result ≡ cond (leb due (r.job.quiet + 1)) (timed_out r) (quiet_at (r.job.quiet + 1) r) }
{
    let next = r.job.quiet as u32 + 1;
    if due as u32 <= next {
        return moves::end_by_time(r);
    }
    moves::set_quiet(next as u16, r)
}

// Due at granted, at 300 in Erred.
#[tactic(auto, using(rules::proofs::Guards::guards, rules::proofs::Guards::numbers), unfolding(rules::specs::Moves::ticked))]
pub fn tick(r: Record) -> Record
    ensures { result ≡ ticked r }
{
    if r.scanner.state == Scan::Idle {
        return r;
    }
    pass_second(words::limit_of(r.scanner.state, r.job.granted.seconds), r)
}
