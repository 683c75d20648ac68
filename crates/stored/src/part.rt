// A part of the record as numbers in a row, from its place on.
ghost use Rattle.std.specs.Prelude.{◌≡◌, true, ℕ, Bool, List, ⊤};
ghost use Rattle.rules.specs.Record.{every};
ghost use Rattle.stored.specs.Stored.{number_at, from, written};

use crate::WORDS;

pub(crate) trait Part {
    // Where it begins, its numbers, which of a row's numbers fit its fields, and the part that fitting numbers are.
    ghost at: { ℕ };

    ghost row: { Self → List ℕ };

    ghost fitting: { (ℕ → ℕ) → List Bool };

    ghost read: { (ℕ → ℕ) → Self };

    // What its type does not say of it, so that its own numbers fit.
    ghost whole: { Self → Type 0 } = { λ _. ⊤ };

    fn fits(w: &[u64; WORDS]) -> bool
        ensures { result ≡ every (fitting (from w.now at)) };

    fn load(w: &[u64; WORDS]) -> Self
        ensures { every (fitting (from w.now at)) ≡ true → result ≡ read (from w.now at) };

    fn keep(self, w: &mut [u64; WORDS])
        ensures numbers { w.new ≡ written at (row self) w.old }
        ensures fits { whole self → every (fitting (number_at (row self))) ≡ true };
}
