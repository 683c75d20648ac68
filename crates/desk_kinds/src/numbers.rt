// Numbers big-endian, at a place of any bytes. A byte that is not there counts as 0.
ghost use Rattle.std.specs.Prelude.{◌≡◌, drop};
ghost use Rattle.desk_kinds.specs.Numbers.{byte_at, word_at, long_at};

#[tactic(auto, using(crate::proofs::BigEndian::numbers))]
pub fn byte_at(s: &[u8], i: usize) -> u8
    ensures { result ≡ byte_at s.now i }
{
    s.get(i).copied().unwrap_or(0)
}

// The bytes from a place on, none where it is past the end.
fn from(s: &[u8], i: usize) -> &[u8]
    ensures { result.now ≡ drop i s.now }
{
    s.get(i..).unwrap_or(&[])
}

// All bytes are there in the usual case, which takes one test.
#[tactic(auto, using(crate::proofs::BigEndian::numbers))]
pub fn word_at(s: &[u8], i: usize) -> u16
    ensures { result ≡ word_at s.now i }
{
    match from(s, i) {
        [high, low, ..] => u16::from_be_bytes([*high, *low]),
        rest => u16::from_be_bytes([byte_at(rest, 0), 0]),
    }
}

// A function beside `word_at`, since each type of the library is made of its own number of bytes.
#[tactic(auto, using(crate::proofs::BigEndian::numbers))]
pub fn long_at(s: &[u8], i: usize) -> u32
    ensures { result ≡ long_at s.now i }
{
    match from(s, i) {
        [a, b, c, d, ..] => u32::from_be_bytes([*a, *b, *c, *d]),
        rest => u32::from_be_bytes([byte_at(rest, 0), byte_at(rest, 1), byte_at(rest, 2), 0]),
    }
}
