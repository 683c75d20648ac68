// Text into a buffer that has room for it, which nothing tests again. The functions of desk_text test it at each text, and these are
// no more than what stands behind such a test.
ghost use Rattle.std.specs.Prelude.{◌≡◌, [], ◌∷◌, ◌+◌, ◌<◌, ◌≤◌, length};
ghost use Rattle.desk_text.specs.Digits.{most_digits, decimal};
ghost use Rattle.desk_text.specs.Put.{Puts};

pub(crate) fn set_byte(out: &mut [u8], at: usize, b: u8) -> usize
    requires { at < length out.old }
    ensures puts { Puts out.old at (b ∷ []) result out.new }
    ensures behind { result ≡ at + 1 }
{
    out[at] = b;
    at + 1
}

pub(crate) fn set_bytes(out: &mut [u8], at: usize, s: &[u8]) -> usize
    requires { at + length s.now ≤ length out.old }
    ensures puts { Puts out.old at s.now result out.new }
    ensures behind { result ≡ at + length s.now }
{
    let end = at + s.len();
    out[at..end].copy_from_slice(s);
    end
}

// A number of more than one digit. Two and three digits go round no loop, and their room is not asked for again, as `put_decimal` does.
pub(crate) fn set_long(out: &mut [u8], at: usize, n: u64) -> usize
    requires { (9 < n) × (at + most_digits ≤ length out.old) }
    ensures puts { Puts out.old at (decimal n) result out.new }
    ensures inside { result ≤ at + most_digits }
{
    if n < 100 {
        out[at] = b'0' + (n / 10) as u8;
        out[at + 1] = b'0' + (n % 10) as u8;
        return at + 2;
    }
    if n < 1_000 {
        out[at] = b'0' + (n / 100) as u8;
        out[at + 1] = b'0' + (n / 10 % 10) as u8;
        out[at + 2] = b'0' + (n % 10) as u8;
        return at + 3;
    }
    desk_text::put_decimal(out, at, n)
}

// Most numbers have one digit, which is put where the call stands.
pub(crate) fn set_decimal(out: &mut [u8], at: usize, n: u64) -> usize
    requires { at + most_digits ≤ length out.old }
    ensures puts { Puts out.old at (decimal n) result out.new }
    ensures inside { result ≤ at + most_digits }
{
    if n < 10 {
        out[at] = b'0' + n as u8;
        return at + 1;
    }
    set_long(out, at, n)
}
