// What is asked of the box, and what it answers: a case for each kind of values that an acceptance reports, or the reason for
// which the call is refused.
#![tactic(auto)]

ghost use Rattle.std.specs.Prelude.{◌≡◌};
ghost use Rattle.rules.specs.Calls.{number_of};
ghost use Rattle.answers.specs.Told.{reason_of, number_told};

use rules::{Failure, Feed, Scan};

// The calls and reports. A fetch's name, a report's picture bytes and the reply are lent beside.
#[derive(Clone, Copy)]
pub enum Request {
    StartScan(u8, u32, u8, u32),
    Start(u32, u8, u32),
    Stop(u32),
    Abort(u32),
    GetDestination(u32),
    Fetch(u8),
    GetState,
    GetSideInformation,
    Load(u32),
    Eject(u32, u8),
    Reset(u32),
    SetFeederMode(u32, u8),
    GetFeederState,
    GetFeederMode,
    Bytes,
    SideEnded,
    Tray(u8),
    Path(u8),
    Tick,
}

// The reasons, in order of test.
#[derive(Clone, Copy, PartialEq, Eq)]
pub enum Why {
    Unsound,
    Unlisted,
    OtherJob,
    OtherName,
    WrongState,
    FeederErred,
    NoSheet,
    NoRoom,
}

// The reason number, as the desk prints it.
impl From<Why> for u16 {
    ghost from_gives = { λ why n. n ≡ number_of (reason_of why) };

    fn from(why: Why) -> u16 {
        match why {
            Why::Unsound => 604,
            Why::Unlisted => 601,
            Why::OtherJob => 712,
            Why::OtherName => 404,
            Why::WrongState => 501,
            Why::FeederErred => 711,
            Why::NoSheet => 713,
            Why::NoRoom => 603,
        }
    }
}

// What an acceptance reports: nothing; the granted time; DestinationID, the name being the next record's; k and whether it is the last,
// the bytes standing in the reply; scan state and FailureCode; SideNumber, SideCount, ScanLength; the feeder's state, MorePages,
// FailureCode; the mode; how many bytes went in.
#[derive(Clone, Copy, PartialEq, Eq)]
pub enum Told {
    Done,
    Time(u16),
    Destination(u32),
    Picture(u8, bool),
    State(Scan, Failure),
    Sides(u16, u32, u32),
    Feeding(Feed, u8, Failure),
    Mode(u8),
    Stored(usize),
}

// Accepted, with what is reported; or refused, and why.
pub type Answer = Result<Told, Why>;

// 0 is acceptance, else the reason's: as the desk prints it, and C gets it.
pub fn number(answer: Answer) -> u16
    ensures { result ≡ number_told answer }
{
    match answer {
        Ok(_) => 0,
        Err(why) => why.into(),
    }
}
