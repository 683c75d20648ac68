// A field as one of the record's numbers, and back: bytes, words, longs, and states and codes in the order of their cases.
ghost use Rattle.std.specs.Prelude.{◌≡◌, ◌<◌, ℕ, ltb};
ghost use Rattle.stored.specs.Stored.{wide8, wide16, wide32, scan_number, feed_number, failure_number, scan_at, feed_at, failure_at};
ghost use Rattle.rules.specs.declared.Scan.{Scan};
ghost use Rattle.rules.specs.declared.Feed.{Feed};
ghost use Rattle.rules.specs.declared.Failure.{Failure};

use rules::{Failure, Feed, Scan};

pub(crate) trait Field {
    // How many numbers fit: those from 0 on.
    const WIDE: u64;

    ghost WIDE: { ℕ };

    ghost as_number: { Self → ℕ };

    ghost read: { ℕ → Self };

    fn fits(n: u64) -> bool
        ensures { result ≡ ltb n WIDE }
    {
        n < Self::WIDE
    }

    fn number(self) -> u64
        ensures value { result ≡ as_number self }
        ensures upper_bound { result < WIDE };

    // The field of a number that fits: `fits` lets no other through.
    fn of(n: u64) -> Self
        ensures { n < WIDE → result ≡ read n };
}

// Three widths, an impl each: what differs is the type of the cast, and no macro of the project may write an impl.
impl Field for u8 {
    const WIDE: u64 = 256;

    ghost WIDE = { wide8 };

    ghost as_number = { λ x. x };

    ghost read = { λ n. n };

    fn number(self) -> u64 {
        self.into()
    }

    fn of(n: u64) -> u8 {
        (n % 256) as u8
    }
}

impl Field for u16 {
    const WIDE: u64 = 65536;

    ghost WIDE = { wide16 };

    ghost as_number = { λ x. x };

    ghost read = { λ n. n };

    fn number(self) -> u64 {
        self.into()
    }

    fn of(n: u64) -> u16 {
        (n % 65536) as u16
    }
}

impl Field for u32 {
    const WIDE: u64 = 4294967296;

    ghost WIDE = { wide32 };

    ghost as_number = { λ x. x };

    ghost read = { λ n. n };

    fn number(self) -> u64 {
        self.into()
    }

    fn of(n: u64) -> u32 {
        (n % 4294967296) as u32
    }
}

// States and codes: a case has its number by the cast, but a number no cast to its case, so that `of` is a match.
impl Field for Scan {
    const WIDE: u64 = 5;

    ghost WIDE = { 5 };

    ghost as_number = { scan_number };

    ghost read = { scan_at };

    fn number(self) -> u64 {
        self as u64
    }

    fn of(n: u64) -> Scan {
        match n {
            0 => Scan::Idle,
            1 => Scan::Pending,
            2 => Scan::Scanning,
            3 => Scan::Finishing,
            _ => Scan::Erred,
        }
    }
}

impl Field for Feed {
    const WIDE: u64 = 4;

    ghost WIDE = { 4 };

    ghost as_number = { feed_number };

    ghost read = { feed_at };

    fn number(self) -> u64 {
        self as u64
    }

    fn of(n: u64) -> Feed {
        match n {
            0 => Feed::Unloaded,
            1 => Feed::Loaded,
            2 => Feed::Busy,
            _ => Feed::Erred,
        }
    }
}

impl Field for Failure {
    const WIDE: u64 = 3;

    ghost WIDE = { 3 };

    ghost as_number = { failure_number };

    ghost read = { failure_at };

    fn number(self) -> u64 {
        self as u64
    }

    fn of(n: u64) -> Failure {
        match n {
            0 => Failure::None,
            1 => Failure::Jammed,
            _ => Failure::Timeout,
        }
    }
}
