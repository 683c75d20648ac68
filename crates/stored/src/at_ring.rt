// Where the stored picture bytes start in the lent ring, and how many there are: as wide as a number, so that they always fit.
ghost use Rattle.std.specs.Prelude.{[]};
ghost use Rattle.stored.specs.Stored.{ring_at, ring_kept, ring_in};

use crate::part::Part;
use crate::{WORDS, at_feeder};
use rules::Ring;

const AT: usize = at_feeder::END;

pub(crate) const START: usize = AT;

pub(crate) const STORED: usize = AT + 1;

// How many numbers the part has.
const LENGTH: usize = 2;

pub(crate) const END: usize = AT + LENGTH;

impl Part for Ring {
    ghost at = { ring_at };

    ghost row = { ring_kept };

    ghost fitting = { λ _. [] };

    ghost read = { ring_in };

    // Any two numbers do.
    fn fits(_w: &[u64; WORDS]) -> bool {
        true
    }

    fn load(w: &[u64; WORDS]) -> Ring {
        Ring {
            start: w[START] as usize,
            stored: w[STORED] as usize,
        }
    }

    fn keep(self, w: &mut [u64; WORDS]) {
        w[START] = self.start as u64;
        w[STORED] = self.stored as u64;
    }
}
