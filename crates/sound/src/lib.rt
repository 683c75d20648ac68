// When a record is sound with a lent ring: the requirements' five points, each over the parts it speaks of, and the last name's.
#![tactic(auto)]

ghost use Rattle.std.specs.Prelude.{◌≡◌, not, length};
ghost use Rattle.rules.specs.Record.{every, idle_points, held_points, ring_points, feeder_points, mark_points, idle, implies, sound};
ghost use Rattle.rules.specs.Name.{name_of, spelt, alike};

use rules::{Feed, Feeder, Granted, Job, Named, Record, Ring, Scan, Settings, Side};

// Idle exactly when job is 0, and what holds then.
fn idle_sound(s: Scan, j: Job, d: Side) -> bool
    ensures { result ≡ every (idle_points s j d) }
{
    let none = j.held == 0;
    if s == Scan::Idle {
        return none & (d.number == 1) & (d.count == 0) & (j.quiet == 0) & (j.stop != 1);
    }
    !none
}

// The ranges of SideNumber and SideCount, and what holds when a job is held.
fn held_sound(s: Scan, j: Job, d: Side) -> bool
    ensures { result ≡ every (held_points s j d) }
{
    let ranged = (d.number <= Side::LAST) & ((d.count <= Side::MOST) | (d.count == Side::ENDLESS));
    if s == Scan::Idle {
        return ranged;
    }
    let g = j.granted.seconds;
    ranged
        & (j.held == j.last)
        & (Granted::LEAST <= g)
        & (g <= Granted::MOST)
        & (j.quiet < words::limit_of(s, g))
}

// The ring's length, start and stored count.
fn ring_sound(s: Scan, g: Ring, len: usize) -> bool
    ensures { result ≡ every (ring_points s g len) }
{
    let inside = (1 <= len) & (len <= Ring::MOST) & (g.start < len) & (g.stored <= len);
    if s == Scan::Scanning {
        return inside;
    }
    if s == Scan::Finishing {
        return inside & (1 <= g.stored);
    }
    inside & (g.stored == 0)
}

// Busy, and SideCount in Scanning and Finishing.
fn feeder_sound(s: Scan, f: Feed, t: Settings, d: Side) -> bool
    ensures { result ≡ every (feeder_points s f t d) }
{
    let b = f == Feed::Busy;
    let from = t.feeder == 1;
    if s == Scan::Scanning {
        if from {
            return b & (d.count != 0);
        }
        return !b & (d.count == 1);
    }
    if s == Scan::Finishing {
        return !b & (from | (d.count == 0));
    }
    !b
}

// Settings, marks and sensors. With no stop asked and no jam, what follows from them is not asked.
fn mark_sound(s: Scan, t: Settings, stop: u8, f: Feeder) -> bool
    ensures { result ≡ every (mark_points s t stop f) }
{
    if (stop == 0) & (f.path == 0) {
        return (t.feeder <= 1) & (t.append <= 1) & (f.tray <= 1);
    }
    (t.feeder <= 1)
        & (t.append <= 1)
        & (stop <= 1)
        & (f.tray <= 1)
        & (f.path <= 1)
        & ((f.path != 1) | (f.state == Feed::Erred))
        & ((stop != 1) | (s == Scan::Scanning) | (s == Scan::Finishing))
}

// While a job is held the last name is that job's.
fn name_sound(s: Scan, job: u32, append: u8, number: u16, last: Named) -> bool
    ensures { result ≡ implies (not (idle s)) (alike last (spelt (name_of job append number))) }
{
    s == Scan::Idle || last == name::kept(job, append, number)
}

// The record is sound with a ring of so many bytes.
#[tactic(auto, unfolding(rules::specs::Record::sound))]
pub fn is_sound(r: Record, len: usize) -> bool
    ensures { result ≡ sound r len }
{
    let s = r.scanner.state;
    idle_sound(s, r.job, r.side)
        && held_sound(s, r.job, r.side)
        && ring_sound(s, r.ring, len)
        && feeder_sound(s, r.feeder.state, r.settings, r.side)
        && mark_sound(s, r.settings, r.job.stop, r.feeder)
        && name_sound(
            s,
            r.job.held,
            r.settings.append,
            r.side.number,
            r.names.last,
        )
}

// The record is sound with the lent ring.
pub fn sound_with(r: Record, ring: &[u8]) -> bool
    ensures { result ≡ sound r (length ring.now) }
{
    is_sound(r, ring.len())
}
