// The ring of picture bytes: a lent slice, filled behind the stored bytes and read from its start, round its end. Each call
// copies in straight runs, at most two.
#![tactic(auto)]

ghost use Rattle.std.specs.Prelude.{◌≡◌, ◌+◌, ◌<◌, ◌≤◌, length};
ghost use Rattle.rules.specs.Ring.{wrap, put};
ghost use Rattle.ring.specs.Lent.{takes, put_in, has, left_after, goes_out, take_out};

use rules::Ring;

// The ring has k bytes.
fn holds(g: Ring, len: usize, k: usize) -> bool
    ensures { result ≡ has g len k }
{
    (g.start < len) & (g.stored <= len) & (k <= g.stored)
}

// There is room for k more.
fn fits(g: Ring, len: usize, k: usize) -> bool
    ensures { result ≡ takes g len k }
{
    (g.start < len) & (g.stored <= len) & (k <= len.saturating_sub(g.stored))
}

// The place `k` on from `start`, in a ring of `len` bytes; the sum itself might not fit.
fn place(start: usize, k: usize, len: usize) -> usize
    requires { (start < len) × (k ≤ len) }
    ensures { result ≡ wrap len (start + k) }
{
    let left = len - start;
    if k < left { start + k } else { k - left }
}

// The ring without its k oldest bytes; as it was where it does not have them.
pub fn leave(g: Ring, len: usize, k: usize) -> Ring
    ensures { result ≡ left_after g len k }
{
    if !holds(g, len, k) {
        return g;
    }
    Ring {
        start: place(g.start, k, len),
        stored: g.stored - k,
    }
}

// All of `bytes` from the place `at` on.
#[tactic(auto, using(crate::proofs::Runs::fill_end))]
fn fill(ring: &mut [u8], at: usize, bytes: &[u8])
    requires { (at < length ring.old) × (length bytes.now ≤ length ring.old) }
    ensures { ring.new ≡ put ring.old at bytes.now }
{
    let k = bytes.len();
    let run = k.min(ring.len() - at);
    ring[at..at + run].copy_from_slice(&bytes[..run]);
    ring[..k - run].copy_from_slice(&bytes[run..]);
}

// The bytes go in behind the stored ones, all or none: whether they did, which is a test and has one refusal.
pub fn put_in(ring: &mut [u8], g: Ring, bytes: &[u8]) -> bool
    ensures value { result ≡ takes g (length ring.old) (length bytes.now) }
    ensures ring_after { ring.new ≡ put_in ring.old g bytes.now }
{
    let len = ring.len();
    if !fits(g, len, bytes.len()) {
        return false;
    }
    fill(ring, place(g.start, g.stored, len), bytes);
    true
}

// At most `want` bytes from `start` on, into the front of `out`: how many.
#[tactic(auto, using(crate::proofs::Runs::take_end, crate::proofs::Runs::take_none))]
pub fn take_out(ring: &[u8], start: usize, want: usize, out: &mut [u8]) -> usize
    ensures value { result ≡ goes_out (length ring.now) start want (length out.old) }
    ensures out_after { out.new ≡ take_out ring.now start want out.old }
{
    let len = ring.len();
    if len <= start {
        return 0;
    }
    let k = want.min(len).min(out.len());
    let run = k.min(len - start);
    out[..run].copy_from_slice(&ring[start..start + run]);
    out[run..k].copy_from_slice(&ring[..k - run]);
    k
}
