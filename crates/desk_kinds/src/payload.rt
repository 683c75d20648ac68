// A payload as a request, and the bytes that go with it.
ghost use Rattle.std.specs.Prelude.{◌≡◌};
ghost use Rattle.desk_kinds.specs.Numbers.{word_at, extended};
ghost use Rattle.desk_kinds.specs.Kinds.{asking_of, given_of};

use crate::kinds::*;
use crate::numbers::{byte_at, long_at, word_at};
use answers::Request;

// SideCount's 16 bits as the 32 that the record keeps.
fn extend(c: u16) -> u32
    ensures { result ≡ extended c }
{
    i32::from(c.cast_signed()).cast_unsigned()
}

fn count_at(s: &[u8], i: usize) -> u32
    ensures { result ≡ extended (word_at s.now i) }
{
    extend(word_at(s, i))
}

// What a record of that kind and payload asks.
#[tactic(auto, unfolding(crate::specs::Kinds::entries, crate::specs::Kinds::entry_in, crate::specs::Kinds::asking_of))]
pub fn request(kind: u8, body: &[u8]) -> Option<Request>
    ensures { result ≡ asking_of kind body.now }
{
    match kind {
        START_SCAN => Some(Request::StartScan(
            byte_at(body, 0),
            count_at(body, 1),
            byte_at(body, 3),
            u32::from(word_at(body, 4)),
        )),
        START => Some(Request::Start(long_at(body, 0), byte_at(body, 4), count_at(body, 5))),
        STOP => Some(Request::Stop(long_at(body, 0))),
        ABORT => Some(Request::Abort(long_at(body, 0))),
        GET_DESTINATION => Some(Request::GetDestination(long_at(body, 0))),
        FETCH => Some(Request::Fetch(byte_at(body, 0))),
        GET_STATE => Some(Request::GetState),
        GET_SIDE_INFORMATION => Some(Request::GetSideInformation),
        LOAD => Some(Request::Load(long_at(body, 0))),
        EJECT => Some(Request::Eject(long_at(body, 0), byte_at(body, 4))),
        RESET => Some(Request::Reset(long_at(body, 0))),
        SET_FEEDER_MODE => Some(Request::SetFeederMode(long_at(body, 0), byte_at(body, 4))),
        GET_FEEDER_STATE => Some(Request::GetFeederState),
        GET_FEEDER_MODE => Some(Request::GetFeederMode),
        BYTES => Some(Request::Bytes),
        SIDE_ENDED => Some(Request::SideEnded),
        TRAY => Some(Request::Tray(byte_at(body, 0))),
        PATH => Some(Request::Path(byte_at(body, 0))),
        TICK => Some(Request::Tick),
        _ => None,
    }
}

// The bytes that go with the request: a fetch's name, a report's picture bytes.
pub fn given(kind: u8, body: &[u8]) -> &[u8]
    ensures { result.now ≡ given_of kind body.now }
{
    if kind == FETCH {
        body.get(1..).unwrap_or(body)
    } else {
        body
    }
}
