// Scan state and FailureCode, behind the version.
ghost use Rattle.stored.specs.Stored.{scanner_at, scanner_kept, scanner_fits, scanner_in};

use crate::WORDS;
use crate::fields::Field;
use crate::part::Part;
use rules::{Failure, Scan, Scanner};

const AT: usize = 1;

pub(crate) const STATE: usize = AT;

pub(crate) const FAILURE: usize = AT + 1;

// How many numbers the part has.
const LENGTH: usize = 2;

pub(crate) const END: usize = AT + LENGTH;

impl Part for Scanner {
    ghost at = { scanner_at };

    ghost row = { scanner_kept };

    ghost fitting = { scanner_fits };

    ghost read = { scanner_in };

    fn fits(w: &[u64; WORDS]) -> bool {
        Scan::fits(w[STATE]) & Failure::fits(w[FAILURE])
    }

    fn load(w: &[u64; WORDS]) -> Scanner {
        Scanner {
            state: Field::of(w[STATE]),
            failure: Field::of(w[FAILURE]),
        }
    }

    fn keep(self, w: &mut [u64; WORDS]) {
        w[STATE] = self.state.number();
        w[FAILURE] = self.failure.number();
    }
}
