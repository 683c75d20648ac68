// The last name: its first eight bytes, eight more and the last two, and its length, which is at most eighteen.
ghost use Rattle.std.specs.Prelude.{◌≤◌};
ghost use Rattle.rules.specs.Name.{name_room};
ghost use Rattle.stored.specs.Stored.{names_at, names_kept, names_fits, names_in};

use crate::fields::Field;
use crate::part::Part;
use crate::{WORDS, at_ring};
use rules::{Named, Names};

const AT: usize = at_ring::END;

pub(crate) const FIRST: usize = AT;

pub(crate) const SECOND: usize = AT + 1;

pub(crate) const THIRD: usize = AT + 2;

pub(crate) const LEN: usize = AT + 3;

// How many numbers the part has.
const LENGTH: usize = 4;

pub(crate) const END: usize = AT + LENGTH;

impl Part for Names {
    ghost at = { names_at };

    ghost row = { names_kept };

    ghost fitting = { names_fits };

    ghost read = { names_in };

    ghost whole = { λ m. m.last.len ≤ name_room };

    fn fits(w: &[u64; WORDS]) -> bool {
        u16::fits(w[THIRD]) && w[LEN] <= 18
    }

    fn load(w: &[u64; WORDS]) -> Names {
        Names {
            last: Named {
                first: w[FIRST],
                second: w[SECOND],
                third: Field::of(w[THIRD]),
                len: Field::of(w[LEN]),
            },
        }
    }

    fn keep(self, w: &mut [u64; WORDS]) {
        w[FIRST] = self.last.first;
        w[SECOND] = self.last.second;
        w[THIRD] = self.last.third.number();
        w[LEN] = self.last.len.number();
    }
}
