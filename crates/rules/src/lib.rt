// The record of the bench box, in small parts by what changes together, and the two makers of its values.
#![tactic(auto)]

ghost use Rattle.std.specs.Prelude.{◌≡◌};
ghost use Rattle.rules.specs.Record.{granting, fresh};

// Scan state.
#[derive(Clone, Copy, PartialEq, Eq)]
pub enum Scan {
    Idle,
    Pending,
    Scanning,
    Finishing,
    Erred,
}

// Feeder state.
#[derive(Clone, Copy, PartialEq, Eq)]
pub enum Feed {
    Unloaded,
    Loaded,
    Busy,
    Erred,
}

// FailureCode. `None` is one of the paper's three, and no Option: cases and the stored form have it beside the others.
#[derive(Clone, Copy, PartialEq, Eq)]
pub enum Failure {
    None,
    Jammed,
    Timeout,
}

#[derive(Clone, Copy, PartialEq, Eq)]
pub struct Scanner {
    pub state: Scan,
    pub failure: Failure,
}

// The granted time.
#[derive(Clone, Copy, PartialEq, Eq)]
pub struct Granted {
    pub seconds: u16,
}

// The job held (0 for none), the last number given, its time, its quiet seconds, the stop-asked mark. Numbers as the paper has them, and
// marks that are numbers and no bool: any record gets an answer, and soundness tests that a mark, a setting or a sensor is 0 or 1.
#[derive(Clone, Copy, PartialEq, Eq)]
pub struct Job {
    pub held: u32,
    pub last: u32,
    pub granted: Granted,
    pub quiet: u16,
    pub stop: u8,
}

// UseFeeder and AppendSideNumber.
#[derive(Clone, Copy, PartialEq, Eq)]
pub struct Settings {
    pub feeder: u8,
    pub append: u8,
}

// Where the stored picture bytes start in the lent ring, and how many there are.
#[derive(Clone, Copy, PartialEq, Eq)]
pub struct Ring {
    pub start: usize,
    pub stored: usize,
}

// SideNumber, SideCount as the bits of its two's complement, DestinationID.
#[derive(Clone, Copy, PartialEq, Eq)]
pub struct Side {
    pub number: u16,
    pub count: u32,
    pub destination: u32,
}

// The feeder with the tray sensor (MorePages) and the path sensor (1 is jammed).
#[derive(Clone, Copy, PartialEq, Eq)]
pub struct Feeder {
    pub state: Feed,
    pub failure: Failure,
    pub tray: u8,
    pub path: u8,
}

// What moves the feeder: Load, Eject one, Eject all, Reset, path 1, side ended.
#[derive(Clone, Copy, PartialEq, Eq)]
pub enum Input {
    Load,
    EjectOne,
    EjectAll,
    Reset,
    Jam,
    SideEnd,
}

// Why the feeder's rule denies an input: 501, 711, 713.
#[derive(Clone, Copy, PartialEq, Eq)]
pub enum Denial {
    WrongState,
    Erred,
    NoSheet,
}

// What the feeder's rule gives: the next state, and why the input is denied, where it is. Both, and no Result: 713 has a next state.
#[derive(Clone, Copy, PartialEq, Eq)]
pub struct Fed {
    pub next: Feed,
    pub denied: Option<Denial>,
}

// A name in eighteen bytes, unused ones 0, and its length: three numbers, of eight, eight and two bytes, the first byte highest.
#[derive(Clone, Copy, PartialEq, Eq)]
pub struct Named {
    pub first: u64,
    pub second: u64,
    pub third: u16,
    pub len: u8,
}

// The last name that any job held.
#[derive(Clone, Copy, PartialEq, Eq)]
pub struct Names {
    pub last: Named,
}

#[derive(Clone, Copy, PartialEq, Eq)]
pub struct Record {
    pub scanner: Scanner,
    pub job: Job,
    pub side: Side,
    pub settings: Settings,
    pub feeder: Feeder,
    pub ring: Ring,
    pub names: Names,
}

impl Feeder {
    // The one mode.
    pub const SIMPLEX: u8 = 0;
}

impl Job {
    // The greatest job number.
    pub const GREATEST: u32 = u32::MAX;
}

impl Side {
    // SideCount −1.
    pub const ENDLESS: u32 = u32::MAX;

    pub const MOST: u32 = 999;

    pub const LAST: u16 = 999;
}

impl Settings {
    // Device-setting: keep the setting.
    pub const DEVICE: u8 = 2;
}

impl Ring {
    pub const MOST: usize = 65536;
}

impl Granted {
    // In a fault.
    pub const FAULT: u16 = 300;

    pub const LEAST: u16 = 5;

    pub const MOST: u16 = 600;

    pub const USUAL: u16 = 60;

    // Every asked time is taken, whatever 32 bits hold.
    pub fn grant(asked: u32) -> Granted
        ensures { result ≡ granting asked }
    {
        let seconds = if asked == 0 {
            Granted::USUAL
        } else {
            asked.clamp(Granted::LEAST.into(), Granted::MOST.into()) as u16
        };
        Granted { seconds }
    }
}

impl Record {
    pub fn fresh() -> Record
        ensures { result ≡ fresh }
    {
        Record {
            scanner: Scanner {
                state: Scan::Idle,
                failure: Failure::None,
            },
            job: Job {
                held: 0,
                last: 0,
                granted: Granted {
                    seconds: Granted::USUAL,
                },
                quiet: 0,
                stop: 0,
            },
            side: Side {
                number: 1,
                count: 0,
                destination: 0,
            },
            settings: Settings {
                feeder: 1,
                append: 1,
            },
            feeder: Feeder {
                state: Feed::Unloaded,
                failure: Failure::None,
                tray: 0,
                path: 0,
            },
            ring: Ring {
                start: 0,
                stored: 0,
            },
            names: Names {
                last: Named {
                    first: 0,
                    second: 0,
                    third: 0,
                    len: 0,
                },
            },
        }
    }
}
