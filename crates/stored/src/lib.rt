// The record as numbers: the form in which a host keeps it, and in which the box works. A version comes first, then the record's
// parts in a row, each in a module with the places of its fields: a part begins where the one before it ends, so that a new field
// moves nothing but its own part's end. Any numbers get an answer.
#![tactic(auto)]

mod at_feeder;
mod at_job;
mod at_names;
mod at_ring;
mod at_scanner;
mod at_settings;
mod at_side;
mod fields;
mod part;

ghost use Rattle.std.specs.Prelude.{◌≡◌, true, length, ◌<◌, ◌≤◌};
ghost use Rattle.rules.specs.Name.{name_room};
ghost use Rattle.rules.specs.Record.{every};
ghost use Rattle.stored.specs.Stored.{number_at, wide16, feeder_kept, feeder_fits, heard_in, fed_in, kept, all_fit, recorded, is_box};

use fields::Field;
use part::Part;
use rules::{Feeder, Job, Names, Record, Ring, Scanner, Settings, Side};

// How many numbers there are.
pub const WORDS: usize = at_names::END;

// How many of them a host asks for: those before the last name.
pub const ASKED: usize = at_ring::END;

// The layout's number. Another layout has another.
pub const VERSION: u64 = 2;

const VERSION_AT: usize = 0;

// The numbers are of this version and each fits its field.
#[tactic(auto, unfolding(crate::specs::Stored::all_fit))]
pub fn fits(w: &[u64; WORDS]) -> bool
    ensures { result ≡ all_fit w.now }
{
    w[VERSION_AT] == VERSION
        && Scanner::fits(w)
        && Job::fits(w)
        && Side::fits(w)
        && Settings::fits(w)
        && Feeder::fits(w)
        && Ring::fits(w)
        && Names::fits(w)
}

// The record of numbers that fit.
pub fn load(w: &[u64; WORDS]) -> Record
    ensures { all_fit w.now ≡ true → result ≡ recorded w.now }
{
    Record {
        scanner: Part::load(w),
        job: Part::load(w),
        side: Part::load(w),
        settings: Part::load(w),
        feeder: Part::load(w),
        ring: Part::load(w),
        names: Part::load(w),
    }
}

// The numbers are a record that is sound with a ring of so many bytes. A function of its own: it is asked once for a window, and as a
// part of what serves one it takes registers from every record.
#[inline(never)]
#[tactic(auto, unfolding(crate::specs::Stored::is_box))]
pub fn is_box(w: &[u64; WORDS], length: usize) -> bool
    ensures { result ≡ is_box w.now length }
{
    fits(w) && sound::is_sound(load(w), length)
}

// A record's numbers, in the place of any others.
pub fn keep(w: &mut [u64; WORDS], r: Record)
    ensures numbers { w.new ≡ kept r }
    ensures fits { r.names.last.len ≤ name_room → all_fit w.new ≡ true }
{
    w[VERSION_AT] = VERSION;
    r.scanner.keep(w);
    r.job.keep(w);
    r.side.keep(w);
    r.settings.keep(w);
    r.feeder.keep(w);
    r.ring.keep(w);
    r.names.keep(w);
}

// ---- for a call that changes little, the numbers that it may have changed, and no others
pub fn keep_heard(w: &mut [u64; WORDS], r: Record)
    ensures numbers { w.new ≡ heard_in r.job.quiet r.ring w.old }
    ensures quiet_fits { r.job.quiet < wide16 }
{
    w[at_job::QUIET] = r.job.quiet.number();
    r.ring.keep(w);
}

pub fn keep_feeder(w: &mut [u64; WORDS], f: Feeder)
    ensures numbers { w.new ≡ fed_in f w.old }
    ensures feeder_fits { every (feeder_fits (number_at (feeder_kept f))) ≡ true }
{
    f.keep(w);
}
