// SideNumber, SideCount, DestinationID.
ghost use Rattle.stored.specs.Stored.{side_at, side_kept, side_fits, side_in};

use crate::fields::Field;
use crate::part::Part;
use crate::{WORDS, at_job};
use rules::Side;

const AT: usize = at_job::END;

pub(crate) const NUMBER: usize = AT;

pub(crate) const COUNT: usize = AT + 1;

pub(crate) const DESTINATION: usize = AT + 2;

// How many numbers the part has.
const LENGTH: usize = 3;

pub(crate) const END: usize = AT + LENGTH;

impl Part for Side {
    ghost at = { side_at };

    ghost row = { side_kept };

    ghost fitting = { side_fits };

    ghost read = { side_in };

    fn fits(w: &[u64; WORDS]) -> bool {
        u16::fits(w[NUMBER]) & u32::fits(w[COUNT]) & u32::fits(w[DESTINATION])
    }

    fn load(w: &[u64; WORDS]) -> Side {
        Side {
            number: Field::of(w[NUMBER]),
            count: Field::of(w[COUNT]),
            destination: Field::of(w[DESTINATION]),
        }
    }

    fn keep(self, w: &mut [u64; WORDS]) {
        w[NUMBER] = self.number.number();
        w[COUNT] = self.count.number();
        w[DESTINATION] = self.destination.number();
    }
}
