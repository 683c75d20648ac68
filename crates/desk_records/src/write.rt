// Writing into the front of a lent buffer.
ghost use Rattle.std.specs.Prelude.{◌≡◌};
ghost use Rattle.desk_text.specs.Put.{Puts};
ghost use Rattle.desk_records.specs.Writing.{in_bytes, record_with, number_in, length_of, writing_with, writing};

use crate::{FIRST_MARK, FORM, Form};
use answers::Why;
use desk_kinds::table;

#[tactic(auto, unfolding(crate::specs::Writing::in_bytes))]
fn put_number(out: &mut [u8], at: usize, form: Form, n: usize) -> usize
    ensures { Puts out.old at (in_bytes form.width n) result out.new }
{
    let [.., high, low] = n.to_be_bytes();
    if form.width == 1 {
        return desk_text::put_byte(out, at, low);
    }
    let next = desk_text::put_byte(out, at, high);
    desk_text::put_byte(out, next, low)
}

fn put_record(out: &mut [u8], form: Form, kind: u8, body: &[u8]) -> usize
    ensures { Puts out.old 0 (record_with form.mark form.width kind body.now) result out.new }
{
    let a = desk_text::put_byte(out, 0, FIRST_MARK);
    let b = desk_text::put_byte(out, a, form.mark);
    let c = desk_text::put_byte(out, b, kind);
    let d = put_number(out, c, form, body.len());
    desk_text::put_bytes(out, d, body)
}

#[tactic(auto, unfolding(crate::specs::Writing::writing_with))]
fn write_with(out: &mut [u8], form: Form, kind: u8, body: &[u8]) -> Result<usize, Why>
    ensures { record {
      number = number_in result;
      long = length_of result;
      buffer = out.new;
    }
        ≡ writing_with form.mark form.width kind body.now out.old }
{
    let n = body.len();
    if !table::admits(table::limits(kind), n) {
        return Err(Why::Unlisted);
    }
    let need = form.head() + n;
    if out.len() < need {
        return Err(Why::NoRoom);
    }
    Ok(put_record(out, form, kind, body))
}

// A record of a kind with a payload. The buffer stays as it was where the answer is a refusal.
pub fn write(out: &mut [u8], kind: u8, body: &[u8]) -> Result<usize, Why>
    ensures { record {
      number = number_in result;
      long = length_of result;
      buffer = out.new;
    }
        ≡ writing kind body.now out.old }
{
    write_with(out, FORM, kind, body)
}
