// UseFeeder and AppendSideNumber.
ghost use Rattle.stored.specs.Stored.{settings_at, settings_kept, settings_fits, settings_in};

use crate::fields::Field;
use crate::part::Part;
use crate::{WORDS, at_side};
use rules::Settings;

const AT: usize = at_side::END;

pub(crate) const FEEDER: usize = AT;

pub(crate) const APPEND: usize = AT + 1;

// How many numbers the part has.
const LENGTH: usize = 2;

pub(crate) const END: usize = AT + LENGTH;

impl Part for Settings {
    ghost at = { settings_at };

    ghost row = { settings_kept };

    ghost fitting = { settings_fits };

    ghost read = { settings_in };

    fn fits(w: &[u64; WORDS]) -> bool {
        u8::fits(w[FEEDER]) && u8::fits(w[APPEND])
    }

    fn load(w: &[u64; WORDS]) -> Settings {
        Settings {
            feeder: Field::of(w[FEEDER]),
            append: Field::of(w[APPEND]),
        }
    }

    fn keep(self, w: &mut [u64; WORDS]) {
        w[FEEDER] = self.feeder.number();
        w[APPEND] = self.append.number();
    }
}
