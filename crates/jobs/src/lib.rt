// What StartScan, Start and Stop make of the record.
#![tactic(auto)]

ghost use Rattle.std.specs.Prelude.{◌≡◌, ◌||◌};
ghost use Rattle.rules.specs.Record.{pending, erred};
ghost use Rattle.rules.specs.Moves.{next_job, given, readied, started, stopped};

use rules::{Failure, Granted, Job, Record, Scan, Scanner};

// The job after the last number given; 0 is never given.
fn next_job(r: Record) -> u32
    ensures { result ≡ next_job r }
{
    if r.job.last == Job::GREATEST {
        1
    } else {
        r.job.last + 1
    }
}

// The setting Append, the job and its time stored.
#[tactic(auto, unfolding(rules::specs::Moves::given))]
pub fn give(append: u8, asked: u32, r: Record) -> Record
    ensures { result ≡ given append asked r }
{
    let job = next_job(r);
    let mut n = r;
    n.settings.append = append;
    n.job.held = job;
    n.job.last = job;
    n.job.granted = Granted::grant(asked);
    n
}

// Setting and SideCount stored, FailureCode none.
#[tactic(auto, unfolding(rules::specs::Moves::readied))]
fn ready(from: u8, count: u32, r: Record) -> Record
    ensures { result ≡ readied from count r }
{
    let mut n = r;
    n.scanner = Scanner {
        state: Scan::Pending,
        failure: Failure::None,
    };
    n.settings.feeder = from;
    n.side.count = sides::stored_sides(from, count);
    n.job.quiet = 0;
    n
}

// 0 gives Pending, else a side begins.
#[tactic(auto, using(rules::proofs::Guards::guards, rules::proofs::Guards::numbers), unfolding(rules::specs::Moves::started))]
pub fn start(from: u8, count: u32, r: Record) -> Record
    ensures { result ≡ started from count r }
{
    let n = ready(from, count, r);
    if count == 0 { n } else { moves::begin(n) }
}

// Pending or Erred: no side is under way.
pub fn waits(s: Scan) -> bool
    ensures { result ≡ (pending s || erred s) }
{
    (s == Scan::Pending) | (s == Scan::Erred)
}

// Pending or Erred ends the job; Scanning or Finishing sets stop-asked.
#[tactic(auto, using(rules::proofs::Guards::guards, rules::proofs::Guards::numbers), unfolding(rules::specs::Moves::stopped))]
pub fn stop(r: Record) -> Record
    ensures { result ≡ stopped r }
{
    if waits(r.scanner.state) {
        return moves::end(r);
    }
    moves::set_stop(1, r)
}
