// The feeder's state and FailureCode, the tray sensor and the path sensor.
ghost use Rattle.stored.specs.Stored.{feeder_at, feeder_kept, feeder_fits, feeder_in};

use crate::fields::Field;
use crate::part::Part;
use crate::{WORDS, at_settings};
use rules::{Failure, Feed, Feeder};

const AT: usize = at_settings::END;

pub(crate) const STATE: usize = AT;

pub(crate) const FAILURE: usize = AT + 1;

pub(crate) const TRAY: usize = AT + 2;

pub(crate) const PATH: usize = AT + 3;

// How many numbers the part has.
const LENGTH: usize = 4;

pub(crate) const END: usize = AT + LENGTH;

impl Part for Feeder {
    ghost at = { feeder_at };

    ghost row = { feeder_kept };

    ghost fitting = { feeder_fits };

    ghost read = { feeder_in };

    fn fits(w: &[u64; WORDS]) -> bool {
        Feed::fits(w[STATE]) && Failure::fits(w[FAILURE]) && u8::fits(w[TRAY]) && u8::fits(w[PATH])
    }

    fn load(w: &[u64; WORDS]) -> Feeder {
        Feeder {
            state: Field::of(w[STATE]),
            failure: Field::of(w[FAILURE]),
            tray: Field::of(w[TRAY]),
            path: Field::of(w[PATH]),
        }
    }

    fn keep(self, w: &mut [u64; WORDS]) {
        w[STATE] = self.state.number();
        w[FAILURE] = self.failure.number();
        w[TRAY] = self.tray.number();
        w[PATH] = self.path.number();
    }
}
