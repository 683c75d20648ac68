// The table, read by the reader and the writer of records alike.
ghost use Rattle.std.specs.Prelude.{◌≡◌};
ghost use Rattle.desk_kinds.specs.Kinds.{said_of, limits_of, within};

use crate::Limits;
use crate::kinds::*;

// A kind, with the least and the greatest length of its payload. No names: a row of named fields would take five lines, and the table
// be read no more as one.
#[derive(Clone, Copy)]
struct Row(u8, u8, u8);

const KINDS: [Row; 19] = [
    Row(START_SCAN, 6, 6),
    Row(START, 7, 7),
    Row(STOP, 4, 4),
    Row(ABORT, 4, 4),
    Row(GET_DESTINATION, 4, 4),
    Row(FETCH, 1, 255),
    Row(GET_STATE, 0, 0),
    Row(GET_SIDE_INFORMATION, 0, 0),
    Row(LOAD, 4, 4),
    Row(EJECT, 5, 5),
    Row(RESET, 4, 4),
    Row(SET_FEEDER_MODE, 5, 5),
    Row(GET_FEEDER_STATE, 0, 0),
    Row(GET_FEEDER_MODE, 0, 0),
    Row(BYTES, 0, 255),
    Row(SIDE_ENDED, 0, 0),
    Row(TRAY, 1, 1),
    Row(PATH, 1, 1),
    Row(TICK, 0, 0),
];

// What a row says of a kind.
fn said(row: Row, kind: u8) -> Option<Limits>
    ensures { result ≡ said_of row.0 row.1 row.2 kind }
{
    let Row(listed, least, greatest) = row;
    (listed == kind).then_some(Limits {
        least: usize::from(least),
        greatest: usize::from(greatest),
    })
}

// Each arm is one row, so that the compiler knows it: nothing is laid out or sought as the program runs.
#[tactic(auto, unfolding(crate::specs::Kinds::entries, crate::specs::Kinds::entry_in, crate::specs::Kinds::limits_of))]
pub fn limits(kind: u8) -> Option<Limits>
    ensures { result ≡ limits_of kind }
{
    let rows = KINDS;
    match kind {
        START_SCAN => said(rows[0], kind),
        START => said(rows[1], kind),
        STOP => said(rows[2], kind),
        ABORT => said(rows[3], kind),
        GET_DESTINATION => said(rows[4], kind),
        FETCH => said(rows[5], kind),
        GET_STATE => said(rows[6], kind),
        GET_SIDE_INFORMATION => said(rows[7], kind),
        LOAD => said(rows[8], kind),
        EJECT => said(rows[9], kind),
        RESET => said(rows[10], kind),
        SET_FEEDER_MODE => said(rows[11], kind),
        GET_FEEDER_STATE => said(rows[12], kind),
        GET_FEEDER_MODE => said(rows[13], kind),
        BYTES => said(rows[14], kind),
        SIDE_ENDED => said(rows[15], kind),
        TRAY => said(rows[16], kind),
        PATH => said(rows[17], kind),
        TICK => said(rows[18], kind),
        _ => None,
    }
}

// Whether a payload length is listed.
pub fn admits(found: Option<Limits>, n: usize) -> bool
    ensures { result ≡ within found n }
{
    found.is_some_and(|limits| (limits.least <= n) & (n <= limits.greatest))
}
