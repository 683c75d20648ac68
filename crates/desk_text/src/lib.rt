// Text into a lent buffer, as far as there is room. Each function puts its text at a place and answers the place behind it,
// so that one text is put behind another with no test in between.
// Buffer and place stay two arguments: as one struct with methods they prove and cost the same, but each contract then says beside
// what is put that the struct holds the same buffer still, and who puts one text makes a struct for it.
#![tactic(auto)]

ghost use Rattle.std.specs.Prelude.{◌≡◌, cond, [], ◌∷◌, ◌-◌, ◌*◌, ◌<◌, min, ltb, length};
ghost use Rattle.desk_text.specs.Put.{Puts};
ghost use Rattle.desk_text.specs.Digits.{decimal, hex_digit, hex_byte, hexes};

pub fn put_byte(out: &mut [u8], at: usize, b: u8) -> usize
    ensures { Puts out.old at (b ∷ []) result out.new }
{
    if at < out.len() {
        out[at] = b;
        return at + 1;
    }
    at
}

pub fn put_bytes(out: &mut [u8], at: usize, s: &[u8]) -> usize
    ensures { Puts out.old at s.now result out.new }
{
    if out.len() <= at {
        return at;
    }
    let n = s.len().min(out.len() - at);
    out[at..at + n].copy_from_slice(&s[..n]);
    at + n
}

// How many digits a number has that is not 0.
fn width(n: u64) -> usize
    requires { 0 < n }
    ensures { result ≡ length (decimal n) }
{
    n.ilog10() as usize + 1
}

// The digits of n, from the last to the first, in a part that is as long as they are.
// By index: what a loop over `part.iter_mut().rev()` wrote is not known behind it, and the last turn needs no division.
fn fill_digits(part: &mut [u8], n: u64)
    requires { length part.old ≡ length (decimal n) }
    ensures { part.new ≡ decimal n }
{
    let mut left = n;
    for i in (1..part.len()).rev() {
        part[i] = b'0' + (left % 10) as u8;
        left /= 10;
    }
    part[0] = b'0' + left as u8;
}

// The w digits of n as far as there is room, by way of a buffer that has room for them all.
fn cut_decimal(out: &mut [u8], at: usize, n: u64, w: usize) -> usize
    requires { w ≡ length (decimal n) }
    ensures { Puts out.old at (decimal n) result out.new }
{
    let mut buffer = [0u8; 20];
    fill_digits(&mut buffer[..w], n);
    put_bytes(out, at, &buffer[..w])
}

// A number of more than one digit. Where there is room for all, they are put straight into their places. A function of its own: what
// calls it stays small enough to become a part of each column of a line.
#[inline(never)]
fn put_digits(out: &mut [u8], at: usize, n: u64) -> usize
    requires { 9 < n }
    ensures { Puts out.old at (decimal n) result out.new }
{
    if out.len() <= at {
        return at;
    }
    let w = width(n);
    if out.len() - at < w {
        return cut_decimal(out, at, n, w);
    }
    let end = at + w;
    fill_digits(&mut out[at..end], n);
    end
}

// A number in decimal, with no zeros in front. Most have one digit, which is put where the call stands.
pub fn put_decimal(out: &mut [u8], at: usize, n: u64) -> usize
    ensures { Puts out.old at (decimal n) result out.new }
{
    if n < 10 {
        return put_byte(out, at, b'0' + n as u8);
    }
    put_digits(out, at, n)
}

// Seven signs stand between 9 and A.
fn beyond_nine(n: u8) -> u8
    ensures { result ≡ cond (ltb n 10) 0 7 }
{
    if n < 10 { 0 } else { 7 }
}

// A sum, so that a loop of these is vectorised: with an `if` of two letters, a picture byte takes two fifths of an instruction more.
fn hex_digit(n: u8) -> u8
    requires { n < 16 }
    ensures { result ≡ hex_digit n }
{
    b'0' + n + beyond_nine(n)
}

// A byte as two digits, 0 to 9 and A to F.
pub fn put_hex(out: &mut [u8], at: usize, b: u8) -> usize
    ensures { Puts out.old at (hex_byte b) result out.new }
{
    let next = put_byte(out, at, hex_digit(b / 16));
    put_byte(out, next, hex_digit(b % 16))
}

// The digits of each byte, in a part that is as long as they are.
// By index: what a loop over `part.chunks_exact_mut(2)` wrote is not known behind it.
fn fill_hexes(part: &mut [u8], s: &[u8])
    requires { length part.old ≡ 2 * length s.now }
    ensures { part.new ≡ hexes s.now }
{
    for (i, &b) in s.iter().enumerate() {
        part[2 * i] = hex_digit(b / 16);
        part[2 * i + 1] = hex_digit(b % 16);
    }
}

// The digits of each byte, as far as there is room.
fn cut_hexes(out: &mut [u8], at: usize, s: &[u8]) -> usize
    ensures { Puts out.old at (hexes s.now) result out.new }
{
    let mut next = at;
    for &b in s {
        next = put_hex(out, next, b);
    }
    next
}

// Where there is room for all, there is one test for them and none for each.
pub fn put_hexes(out: &mut [u8], at: usize, s: &[u8]) -> usize
    ensures { Puts out.old at (hexes s.now) result out.new }
{
    if out.len() <= at {
        return at;
    }
    if (out.len() - at) / 2 < s.len() {
        return cut_hexes(out, at, s);
    }
    let end = at + 2 * s.len();
    fill_hexes(&mut out[at..end], s);
    end
}
