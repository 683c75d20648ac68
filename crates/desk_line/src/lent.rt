// Extras out of lent bytes: a name, a picture.
ghost use Rattle.std.specs.Prelude.{◌≡◌, ◌∷◌, ◌++◌, ◌+◌, ◌≤◌, length, take, drop};
ghost use Rattle.rules.specs.Moves.{headed};
ghost use Rattle.rules.specs.Name.{name, name_room};
ghost use Rattle.desk_text.specs.Digits.{decimal, hexes};
ghost use Rattle.desk_text.specs.Put.{Puts};
ghost use Rattle.desk_line.specs.Line.{last_text};
ghost use Rattle.desk_line.specs.Room.{moved_room, extra_room};

use crate::text;
use rules::Record;

// ---- GetDestination: the name and DestinationID
fn put_name(out: &mut [u8], at: usize, r: Record) -> usize
    requires { at + name_room ≤ length out.old }
    ensures puts { Puts out.old at (name r) result out.new }
    ensures inside { result ≤ at + name_room }
{
    text::set_bytes(out, at, name::present(r).as_bytes())
}

pub(crate) fn put_destination(out: &mut [u8], at: usize, r: Record, id: u32) -> usize
    requires { at + extra_room ≤ length out.old }
    ensures puts { Puts out.old at (name r ++ 58 ∷ decimal id) result out.new }
    ensures inside { result ≤ at + extra_room }
{
    let colon = put_name(out, at, r);
    let next = text::set_byte(out, colon, b':');
    text::set_decimal(out, next, u64::from(id))
}

// ---- Fetch: k, `!` if last, `:`, bytes
fn put_last(out: &mut [u8], at: usize, last: bool) -> usize
    requires { at + 1 ≤ length out.old }
    ensures puts { Puts out.old at (last_text last) result out.new }
    ensures inside { result ≤ at + 1 }
{
    if last {
        return text::set_byte(out, at, b'!');
    }
    at
}

// At most k bytes, straight after the reply's head.
fn picture(reply: &[u8], k: usize) -> &[u8]
    ensures { result.now ≡ take k (drop headed reply.now) }
{
    let behind = reply.get(4..).unwrap_or(&[]);
    &behind[..k.min(behind.len())]
}

fn put_moved(out: &mut [u8], at: usize, k: u8, last: bool) -> usize
    requires { at + moved_room ≤ length out.old }
    ensures puts { Puts out.old at (decimal k ++ last_text last) result out.new }
    ensures inside { result ≤ at + moved_room }
{
    let mark = text::set_decimal(out, at, u64::from(k));
    put_last(out, mark, last)
}

pub(crate) fn put_picture(out: &mut [u8], at: usize, k: u8, last: bool, reply: &[u8]) -> usize
    requires { at + extra_room ≤ length out.old }
    ensures puts { Puts out.old at
        (decimal k ++ last_text last ++ 58 ∷ hexes (take k (drop headed reply.now))) result out.new }
    ensures inside { result ≤ at + extra_room }
{
    let colon = put_moved(out, at, k, last);
    let next = text::set_byte(out, colon, b':');
    desk_text::put_hexes(out, next, picture(reply, usize::from(k)))
}
