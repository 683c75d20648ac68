// The present Destination's name, and whether a name is it.
#![tactic(auto)]

ghost use Rattle.std.specs.Prelude.{◌≡◌, [], ◌∷◌, ◌+◌, ◌*◌, ◌%◌};
ghost use Rattle.rules.specs.Name.{name_of, name, same, packed, spelt};
ghost use Rattle.name.specs.Spelled.{digit_of, padded};

pub mod text;

use rules::{Named, Record};
use text::MOST;
pub use text::Name;

fn digit(n: u32) -> u8
    ensures { result ≡ 48 + n % 10 }
{
    b'0' + (n % 10) as u8
}

// J, ten digits of job, three digits of SideNumber if Append is 1, then .jpg. Digit by digit, as the definition unfolds: an array of the
// places would write the same places out, and take the digits apart again.
pub fn present(r: Record) -> Name
    ensures { result ≡ padded (name r) }
{
    let job = r.job.held;
    let number = r.side.number as u32;
    let a = digit(job / 1000000000);
    let b = digit(job / 100000000);
    let c = digit(job / 10000000);
    let e = digit(job / 1000000);
    let f = digit(job / 100000);
    let g = digit(job / 10000);
    let h = digit(job / 1000);
    let i = digit(job / 100);
    let k = digit(job / 10);
    let l = digit(job / 1);
    let x = digit(number / 100);
    let y = digit(number / 10);
    let z = digit(number / 1);
    if r.settings.append == 1 {
        let bytes = [
            b'J', a, b, c, e, f, g, h, i, k, l, x, y, z, b'.', b'j', b'p', b'g',
        ];
        return Name { bytes, len: MOST };
    }
    let bytes = [
        b'J', a, b, c, e, f, g, h, i, k, l, b'.', b'j', b'p', b'g', 0, 0, 0,
    ];
    Name { bytes, len: 15 }
}

// Two digits as two bytes in one number, 0x3030 for 00: 256 for each ten and 1 for each one is 246 for each ten beside the number.
fn pair(n: u32) -> u16
    ensures { result ≡ packed (digit_of n 10 ∷ digit_of n 1 ∷ []) }
{
    let x = n % 100;
    (0x3030 + x + 246 * (x / 10)) as u16
}

// Four numbers of two bytes as one, the first highest; u64::from_be_bytes would take eight bytes, and each pair come apart again.
fn joined(a: u16, b: u16, c: u16, d: u16) -> u64
    ensures { result ≡ a * 281474976710656 + b * 4294967296 + c * 65536 + d }
{
    a as u64 * 281474976710656 + b as u64 * 4294967296 + c as u64 * 65536 + d as u64
}

// J and the first seven digits of a job; 0x4A30 is J0.
fn front(job: u32) -> u64
    ensures { result ≡ packed (74 ∷ digit_of job 1000000000 ∷ digit_of job 100000000 ∷ digit_of job 10000000 ∷ digit_of job 1000000
        ∷ digit_of job 100000 ∷ digit_of job 10000 ∷ digit_of job 1000 ∷ []) }
{
    let high = 0x4A30 + (job / 1000000000) as u16;
    joined(
        high,
        pair(job / 10000000),
        pair(job / 100000),
        pair(job / 1000),
    )
}

// A name as the record keeps it: its bytes in three numbers, two digits at a time. 0x2E6A is .j, 0x7067 pg, 0x6A70 jp.
pub fn kept(job: u32, append: u8, number: u16) -> Named
    ensures { result ≡ spelt (name_of job append number) }
{
    let side = number as u32;
    let first = front(job);
    let next = pair(job / 10);
    let last = digit(job) as u16 * 256;
    if append == 1 {
        let hundreds = digit(side / 100) as u16;
        return Named {
            first,
            second: joined(next, last + hundreds, pair(side), 0x2E6A),
            third: 0x7067,
            len: 18,
        };
    }
    Named {
        first,
        second: joined(next, last + 0x2E, 0x6A70, 0x6700),
        third: 0,
        len: 15,
    }
}

// The name is the present one.
pub fn is_present(called: &[u8], r: Record) -> bool
    ensures { result ≡ same called.now (name r) }
{
    called == present(r).as_bytes()
}
