// The last column: what an acceptance reports, `-` where refused or not named.
ghost use Rattle.std.specs.Prelude.{◌∷◌, ◌++◌, ◌+◌, ◌≤◌, length};
ghost use Rattle.answers.specs.Told.{values_told};
ghost use Rattle.desk_text.specs.Digits.{decimal};
ghost use Rattle.desk_text.specs.Put.{Puts};
ghost use Rattle.desk_line.specs.Line.{failure_text, extra_of};
ghost use Rattle.desk_line.specs.Room.{failure_room, extra_room};

use crate::{lent, text};
use answers::{Answer, Told};
use rules::{Failure, Record};

// Each word is put where it is matched, with its length known there.
fn put_failure(out: &mut [u8], at: usize, f: Failure) -> usize
    requires { at + failure_room ≤ length out.old }
    ensures puts { Puts out.old at (failure_text f) result out.new }
    ensures inside { result ≤ at + failure_room }
{
    match f {
        Failure::None => text::set_bytes(out, at, b"none"),
        Failure::Jammed => text::set_bytes(out, at, b"Jammed"),
        Failure::Timeout => text::set_bytes(out, at, b"Timeout"),
    }
}

// The feeder's GetState: MorePages and FailureCode.
fn put_tray(out: &mut [u8], at: usize, tray: u8, f: Failure) -> usize
    requires { at + extra_room ≤ length out.old }
    ensures puts { Puts out.old at (decimal tray ++ 58 ∷ failure_text f) result out.new }
    ensures inside { result ≤ at + extra_room }
{
    let colon = text::set_decimal(out, at, u64::from(tray));
    let next = text::set_byte(out, colon, b':');
    put_failure(out, next, f)
}

// What an answer tells of the record that is left and of the reply.
pub(crate) fn put_extra(out: &mut [u8], at: usize, r: Record, answer: Answer, reply: &[u8]) -> usize
    requires { at + extra_room ≤ length out.old }
    ensures puts { Puts out.old at (extra_of (values_told r reply.now answer)) result out.new }
    ensures inside { result ≤ at + extra_room }
{
    match answer {
        Ok(Told::Done | Told::Sides(..)) => text::set_byte(out, at, b'-'),
        Ok(Told::Time(seconds)) => text::set_decimal(out, at, u64::from(seconds)),
        Ok(Told::Destination(id)) => lent::put_destination(out, at, r, id),
        Ok(Told::Picture(k, last)) => lent::put_picture(out, at, k, last, reply),
        Ok(Told::State(_, f)) => put_failure(out, at, f),
        Ok(Told::Feeding(_, tray, f)) => put_tray(out, at, tray, f),
        Ok(Told::Mode(_)) => text::set_bytes(out, at, b"Simplex"),
        Ok(Told::Stored(k)) => text::set_decimal(out, at, k as u64),
        Err(_) => text::set_byte(out, at, b'-'),
    }
}
