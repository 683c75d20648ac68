// The moves of the record, each under the requirements' name. What they leave alone they keep. A record goes in by value and comes out,
// as in the definitions; by `&mut` each contract would say so of an old and a new one.
#![tactic(auto)]

ghost use Rattle.std.specs.Prelude.{◌≡◌, true};
ghost use Rattle.rules.specs.Moves.{with_feeder, with_ring, standing, quiet_at, stop_at, fed_by, heard, begun, announced, released, ended, timed_out};
ghost use Rattle.rules.specs.Moves.{risen, announced_by, faulted, waited, numbered, drained_on, drained};
ghost use Rattle.moves.specs.Holds.{is_named};

use rules::{Failure, Feeder, Input, Record, Ring, Scan, Scanner, Side};

pub fn with_feeder(f: Feeder, r: Record) -> Record
    ensures { result ≡ with_feeder f r }
{
    let mut n = r;
    n.feeder = f;
    n
}

// The record with its feeder moved by an input.
pub fn feed(input: Input, r: Record) -> Record
    ensures { result ≡ fed_by input r }
{
    with_feeder(feeding::drive(input, r.feeder), r)
}

pub fn set_quiet(quiet: u16, r: Record) -> Record
    ensures { result ≡ quiet_at quiet r }
{
    let mut n = r;
    n.job.quiet = quiet;
    n
}

pub fn set_stop(mark: u8, r: Record) -> Record
    ensures { result ≡ stop_at mark r }
{
    let mut n = r;
    n.job.stop = mark;
    n
}

// The scanner stands so, its FailureCode kept.
pub fn stand(state: Scan, r: Record) -> Record
    ensures { result ≡ standing state r }
{
    let mut n = r;
    n.scanner.state = state;
    n
}

// The ring stands so after k bytes were moved: a sign of life where that is 1 or more.
pub fn hear(k: usize, g: Ring, r: Record) -> Record
    ensures { result ≡ heard k (with_ring g r) }
{
    let mut n = r;
    n.ring = g;
    if 1 <= k {
        n.job.quiet = 0;
    }
    n
}

// ---- a name is announced
// The last name is the present one, whatever it was before; DestinationID rises.
fn raise(r: Record) -> Record
    ensures { result ≡ announced_by (risen r.side.destination) r }
{
    let mut n = r;
    n.side.destination = sides::raise(r.side.destination);
    n.names.last = name::kept(r.job.held, r.settings.append, r.side.number);
    n
}

// Where the present name is the last one, nothing moves.
pub fn announce(r: Record) -> Record
    ensures { result ≡ announced r }
{
    let n = raise(r);
    if n.names == r.names { r } else { n }
}

// ---- a side begins
// From the feeder it becomes Busy. Then Scanning.
#[tactic(auto, unfolding(rules::specs::Moves::begun))]
pub fn begin(r: Record) -> Record
    ensures { result ≡ begun r }
{
    let f = feeding::take_from(r.settings.feeder, r.feeder);
    stand(Scan::Scanning, with_feeder(f, r))
}

// ---- end of job
#[tactic(auto, unfolding(rules::specs::Moves::released))]
fn release(why: Failure, left: Feeder, r: Record) -> Record
    ensures { result ≡ released why left r }
{
    let mut n = r;
    n.scanner = Scanner {
        state: Scan::Idle,
        failure: why,
    };
    n.job.held = 0;
    n.job.quiet = 0;
    n.job.stop = 0;
    n.side.number = 1;
    n.side.count = 0;
    n.feeder = left;
    n.ring = Ring {
        start: 0,
        stored: 0,
    };
    n
}

// FailureCode none; Busy becomes Unloaded.
pub fn end(r: Record) -> Record
    ensures { result ≡ ended r }
{
    release(Failure::None, feeding::free(r.feeder), r)
}

// FailureCode Timeout; a Busy feeder becomes Erred, Timeout.
pub fn end_by_time(r: Record) -> Record
    ensures { result ≡ timed_out r }
{
    release(Failure::Timeout, feeding::be_late(r.feeder), r)
}

// ---- the drain step
pub fn fault(r: Record) -> Record
    ensures { result ≡ faulted r }
{
    let mut n = r;
    n.scanner = Scanner {
        state: Scan::Erred,
        failure: Failure::Jammed,
    };
    n
}

// Pending, with SideCount 0 if it was −1 and kept otherwise.
fn wait(r: Record) -> Record
    ensures { result ≡ waited r }
{
    let mut w = stand(Scan::Pending, r);
    if r.side.count == Side::ENDLESS {
        w.side.count = 0;
    }
    w
}

// SideNumber plus 1, 999 going to 0.
fn number(r: Record) -> Record
    ensures { result ≡ numbered r }
{
    let mut n = r;
    n.side.number = if r.side.number < Side::LAST {
        r.side.number + 1
    } else {
        0
    };
    n
}

// The side has its next number. With Append 1 that is another name; else the name stays, and nothing is compared.
// That the record is named stays a condition in the contract: as a type it would ask more of the callers of `drain`, which take any record.
fn number_on(r: Record) -> Record
    ensures { is_named r ≡ true → result ≡ announced (numbered r) }
{
    let n = number(r);
    if r.settings.append == 1 { raise(n) } else { n }
}

// What follows once the side has its next number and its name.
fn drain_on(r: Record) -> Record
    ensures { result ≡ drained_on r }
{
    if r.side.count == 0 {
        return stand(Scan::Pending, r);
    }
    if feeding::jam_stops(r.settings.feeder, r.feeder) {
        return fault(r);
    }
    if feeding::sheet_stops(r.settings.feeder, r.feeder) {
        return wait(r);
    }
    begin(r)
}

// The drain step of a record whose last name is its own, as a held job's is.
pub fn drain(r: Record) -> Record
    ensures { is_named r ≡ true → result ≡ drained r }
{
    if r.job.stop == 1 {
        return end(r);
    }
    drain_on(number_on(r))
}
