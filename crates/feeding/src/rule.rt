// The feeder's rule: of mode, state, input, tray and path sensor the next state, and why the input is denied.
ghost use Rattle.std.specs.Prelude.{◌≡◌, cond, ◌&&◌, eqb};
ghost use Rattle.rules.specs.declared.Feed.{Feed};
ghost use Rattle.rules.specs.declared.Denial.{Denial};
ghost use Rattle.rules.specs.Record.{busy, stuck};
ghost use Rattle.rules.specs.Feeder.{becomes, denied, ready, loads, fed, fed_at};

use rules::{Denial, Fed, Feed, Feeder, Input};

fn accept(next: Feed) -> Fed
    ensures { result ≡ becomes next }
{
    Fed { next, denied: None }
}

fn deny(why: Denial, next: Feed) -> Fed
    ensures { result ≡ denied why next }
{
    Fed {
        next,
        denied: Some(why),
    }
}

// 501 if Busy, 711 if Erred; else as told.
fn if_ready(state: Feed, told: Fed) -> Fed
    ensures { result ≡ ready state told }
{
    match state {
        Feed::Busy => deny(Denial::WrongState, state),
        Feed::Erred => deny(Denial::Erred, state),
        _ => told,
    }
}

// Tray empty: 713 and Unloaded, from Loaded too. Else Loaded.
fn load(tray: u8) -> Fed
    ensures { result ≡ loads tray }
{
    if tray == 0 {
        return deny(Denial::NoSheet, Feed::Unloaded);
    }
    accept(Feed::Loaded)
}

// 501 if Busy; Erred with path sensor 0 becomes Unloaded; else nothing changes.
fn reset(state: Feed, path: u8) -> Fed
    ensures { result ≡ cond (busy state) (denied Denial.WrongState state) (becomes (cond (stuck state && eqb path 0) Feed.Unloaded state)) }
{
    match state {
        Feed::Busy => deny(Denial::WrongState, state),
        Feed::Erred if path == 0 => accept(Feed::Unloaded),
        _ => accept(state),
    }
}

// Busy becomes Unloaded.
fn end_side(state: Feed) -> Fed
    ensures { result ≡ becomes (cond (busy state) Feed.Unloaded state) }
{
    match state {
        Feed::Busy => accept(Feed::Unloaded),
        _ => accept(state),
    }
}

// The one mode is Simplex.
#[tactic(auto, unfolding(rules::specs::Feeder::fed))]
pub fn fed(mode: u8, state: Feed, input: Input, tray: u8, path: u8) -> Fed
    ensures { result ≡ fed mode state input tray path }
{
    match input {
        Input::Load => if_ready(state, load(tray)),
        Input::EjectOne | Input::EjectAll => if_ready(state, accept(Feed::Unloaded)),
        Input::Reset => reset(state, path),
        Input::Jam => accept(Feed::Erred),
        Input::SideEnd => end_side(state),
    }
}

// What it gives this feeder.
pub fn ask(input: Input, f: Feeder) -> Fed
    ensures { result ≡ fed_at input f }
{
    fed(Feeder::SIMPLEX, f.state, input, f.tray, f.path)
}
