// Desk records: mark A5 5A, kind, length, payload.
#![tactic(auto)]

ghost use Rattle.std.specs.Prelude.{◌≡◌, ◌≤◌};
ghost use Rattle.desk_records.specs.Reading.{head_of};

use answers::Request;

pub mod read;
pub mod write;

const FIRST_MARK: u8 = 0xA5;

// Where the kind stands, behind the mark, and then the length.
const KIND_AT: usize = 2;

const LENGTH_AT: usize = 3;

// The form of a record: the second byte of its mark, and the width of its length.
#[derive(Clone, Copy)]
struct Form {
    mark: u8,
    width: usize,
    ghost one_or_two: { (1 ≤ width) × (width ≤ 2) },
}

// The desk's.
const FORM: Form = Form {
    mark: 0x5A,
    width: 1,
};

impl Form {
    // How long mark, kind and length are.
    fn head(self) -> usize
        ensures { result ≡ head_of self.width }
    {
        LENGTH_AT + self.width
    }
}

// Which byte of a record is wrong; or the bytes are right, and end before the record does.
#[derive(Clone, Copy)]
pub enum Fault {
    Mark,
    Kind,
    Length,
    Cut,
}

// What stands at the front of some bytes: a record with its kind and its payload's length, ..
#[derive(Clone, Copy)]
pub struct Whole {
    pub kind: u8,
    pub len: usize,
}

// .. or the first byte that is wrong.
#[derive(Clone, Copy)]
pub struct Wrong {
    pub fault: Fault,
    pub at: usize,
}

// What reading at a place answers: a record, where its payload is, and the next place; ..
#[derive(Clone, Copy)]
pub struct Found {
    pub kind: u8,
    pub start: usize,
    pub len: usize,
    pub next: usize,
}

// .. or bad, with its place.
#[derive(Clone, Copy)]
pub struct Bad {
    pub at: usize,
}

// What is heard at a place: a record that reads, with what it asks.
#[derive(Clone, Copy)]
pub struct Hearing {
    pub request: Request,
    pub found: Found,
}
