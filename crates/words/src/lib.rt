// The words of the rules as tests: a state's limit of quiet, and what a call brings.
#![tactic(auto)]

ghost use Rattle.std.specs.Prelude.{◌≡◌};
ghost use Rattle.rules.specs.Record.{marked, limit};
ghost use Rattle.rules.specs.Machine.{listed, not_held, not_ours};

use rules::{Granted, Record, Scan, Settings};

// Granted, 300 in Erred.
pub fn limit_of(s: Scan, granted: u16) -> u16
    ensures { result ≡ limit s granted }
{
    match s {
        Scan::Erred => Granted::FAULT,
        _ => granted,
    }
}

// ---- what a call brings
// 0, 1 or 2.
pub fn is_listed(value: u8) -> bool
    ensures { result ≡ listed value }
{
    value <= Settings::DEVICE
}

// 0 or 1.
pub fn is_marked(value: u8) -> bool
    ensures { result ≡ marked value }
{
    value <= 1
}

// Scan calls: not the job held, or any number in Idle.
pub fn not_held(job: u32, r: Record) -> bool
    ensures { result ≡ not_held job r }
{
    (r.scanner.state == Scan::Idle) | (job != r.job.held)
}

// Feeder calls: not the job held, which is 0 when Idle.
pub fn not_ours(job: u32, r: Record) -> bool
    ensures { result ≡ not_ours job r }
{
    job != r.job.held
}
