// StartScan and Start.
#![tactic(auto, unfolding(rules::specs::Machine::step, rules::specs::Machine::refusals, rules::specs::Machine::scan_refusals, rules::specs::Machine::effect, rules::specs::Machine::scan_effect, rules::specs::Calls::answer, rules::specs::Moves::given))]

ghost use Rattle.std.specs.Prelude.{◌≡◌, true, cond, not, ◌&&◌, ◌||◌, [], eqb, leb, length, Ok, Err};
ghost use Rattle.rules.specs.Record.{endless, counted, on, sound};
ghost use Rattle.rules.specs.Feeder.{jam_stops, sheet_stops};
ghost use Rattle.rules.specs.Calls.{scan, StartScan, Start};
ghost use Rattle.rules.specs.Machine.{listed, step};
ghost use Rattle.answers.specs.Told.{state_of, gave};

use answers::{Answer, Told, Why};
use rules::{Feeder, Record, Scan, Side};

// UseFeeder as asked and SideCount; on the glass, which `source` tells once UseFeeder is settled, only −1, 0 or 1.
fn are_listed(from: u8, source: u8, count: u32) -> bool
    ensures { result ≡ (listed from && counted count && (on source || leb count 1 || eqb count endless)) }
{
    let endless = count == Side::ENDLESS;
    words::is_listed(from)
        & ((count <= Side::MOST) | endless)
        & ((source == 1) | (count <= 1) | endless)
}

// Where a side is to begin from the feeder, Erred is 711 and no sheet is 713.
fn can_begin(source: u8, count: u32, f: Feeder) -> Result<(), Why>
    ensures { result ≡
        cond (not (eqb count 0) && jam_stops source f) (Err Why.FeederErred)
        (cond (not (eqb count 0) && sheet_stops source f) (Err Why.NoSheet) (Ok tt)) }
{
    if count == 0 {
        return Ok(());
    }
    if feeding::jam_stops(source, f) {
        return Err(Why::FeederErred);
    }
    if feeding::sheet_stops(source, f) {
        return Err(Why::NoSheet);
    }
    Ok(())
}

// SideCount is in the bits of its two's complement; every asked time is taken. The job's name is announced before it starts.
pub fn start_scan_sound(
    r: &mut Record,
    ring: &[u8],
    from: u8,
    count: u32,
    append: u8,
    asked: u32,
) -> Answer
    ensures { sound r.old (length ring.now) ≡ true
        → gave (record { next = r.new; answer = result }) ring.now []
        ≡ step (state_of r.old ring.now) (scan (StartScan from count append asked)) }
{
    let t = r.settings;
    let source = sides::settle(from, t.feeder);
    if !words::is_listed(append) | !are_listed(from, source, count) {
        return Err(Why::Unlisted);
    }
    if r.scanner.state != Scan::Idle {
        return Err(Why::WrongState);
    }
    can_begin(source, count, r.feeder)?;
    let n = jobs::give(sides::settle(append, t.append), asked, *r);
    *r = jobs::start(source, count, moves::announce(n));
    Ok(Told::Time(n.job.granted.seconds))
}

pub fn start_scan(
    r: &mut Record,
    ring: &[u8],
    from: u8,
    count: u32,
    append: u8,
    asked: u32,
) -> Answer
    ensures { gave (record { next = r.new; answer = result }) ring.now []
        ≡ step (state_of r.old ring.now) (scan (StartScan from count append asked)) }
{
    if !sound::sound_with(*r, ring) {
        return Err(Why::Unsound);
    }
    start_scan_sound(r, ring, from, count, append, asked)
}

pub fn start_sound(r: &mut Record, ring: &[u8], job: u32, from: u8, count: u32) -> Answer
    ensures { sound r.old (length ring.now) ≡ true
        → gave (record { next = r.new; answer = result }) ring.now [] ≡ step (state_of r.old ring.now) (scan (Start job from count)) }
{
    let source = sides::settle(from, r.settings.feeder);
    if !are_listed(from, source, count) {
        return Err(Why::Unlisted);
    }
    if words::not_held(job, *r) {
        return Err(Why::OtherJob);
    }
    if !jobs::waits(r.scanner.state) {
        return Err(Why::WrongState);
    }
    can_begin(source, count, r.feeder)?;
    *r = jobs::start(source, count, *r);
    Ok(Told::Done)
}

pub fn start(r: &mut Record, ring: &[u8], job: u32, from: u8, count: u32) -> Answer
    ensures { gave (record { next = r.new; answer = result }) ring.now [] ≡ step (state_of r.old ring.now) (scan (Start job from count)) }
{
    if !sound::sound_with(*r, ring) {
        return Err(Why::Unsound);
    }
    start_sound(r, ring, job, from, count)
}
