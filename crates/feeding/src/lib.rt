// The feeder's moves, which speak of the feeder alone, and the sheet tests of a side's beginning.
#![tactic(auto)]

pub mod rule;

ghost use Rattle.std.specs.Prelude.{◌≡◌, cond};
ghost use Rattle.rules.specs.Record.{on};
ghost use Rattle.rules.specs.Feeder.{tray_at, path_at, cleared, besides, driven, jam_stops, sheet_stops, taken, freed, late};

use rules::{Failure, Feed, Feeder, Input};

// Reset leads out of Erred: none. Else FailureCode stays.
fn clear(f: Feeder) -> Failure
    ensures { result ≡ cleared f }
{
    if (f.state == Feed::Erred) & (rule::ask(Input::Reset, f).next == Feed::Unloaded) {
        return Failure::None;
    }
    f.failure
}

// What an input changes besides the state.
fn beside(input: Input, f: Feeder) -> Feeder
    ensures { result ≡ besides input f }
{
    match input {
        Input::Load | Input::EjectOne | Input::SideEnd => f,
        Input::EjectAll => set_tray(0, f),
        Input::Reset => Feeder {
            failure: clear(f),
            ..f
        },
        Input::Jam => Feeder {
            failure: Failure::Jammed,
            path: 1,
            ..f
        },
    }
}

// The feeder moved by an input.
pub fn drive(input: Input, f: Feeder) -> Feeder
    ensures { result ≡ driven input f }
{
    Feeder {
        state: rule::ask(input, f).next,
        ..beside(input, f)
    }
}

// A side that is to begin from the feeder finds it Erred.
pub fn jam_stops(from: u8, f: Feeder) -> bool
    ensures { result ≡ jam_stops from f }
{
    (from == 1) & (f.state == Feed::Erred)
}

// A side that is to begin from the feeder finds no sheet.
pub fn sheet_stops(from: u8, f: Feeder) -> bool
    ensures { result ≡ sheet_stops from f }
{
    (from == 1) & (f.state == Feed::Unloaded) & (f.tray == 0)
}

// Where the side begins from the feeder, it becomes Busy.
pub fn take_from(from: u8, f: Feeder) -> Feeder
    ensures { result ≡ cond (on from) (taken f) f }
{
    if from == 1 {
        return Feeder {
            state: Feed::Busy,
            ..f
        };
    }
    f
}

// Busy becomes Unloaded.
pub fn free(f: Feeder) -> Feeder
    ensures { result ≡ freed f }
{
    if f.state == Feed::Busy {
        return Feeder {
            state: Feed::Unloaded,
            ..f
        };
    }
    f
}

// A Busy feeder becomes Erred, Timeout.
pub fn be_late(f: Feeder) -> Feeder
    ensures { result ≡ late f }
{
    if f.state == Feed::Busy {
        return Feeder {
            state: Feed::Erred,
            failure: Failure::Timeout,
            ..f
        };
    }
    f
}

pub fn set_tray(value: u8, f: Feeder) -> Feeder
    ensures { result ≡ tray_at value f }
{
    Feeder { tray: value, ..f }
}

pub fn set_path(value: u8, f: Feeder) -> Feeder
    ensures { result ≡ path_at value f }
{
    Feeder { path: value, ..f }
}
