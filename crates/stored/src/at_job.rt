// The job held and the last number given, its time, its quiet seconds, the stop-asked mark.
ghost use Rattle.stored.specs.Stored.{job_at, job_kept, job_fits, job_in};

use crate::fields::Field;
use crate::part::Part;
use crate::{WORDS, at_scanner};
use rules::{Granted, Job};

const AT: usize = at_scanner::END;

pub(crate) const HELD: usize = AT;

pub(crate) const LAST: usize = AT + 1;

pub(crate) const GRANTED: usize = AT + 2;

pub(crate) const QUIET: usize = AT + 3;

pub(crate) const STOP: usize = AT + 4;

// How many numbers the part has.
const LENGTH: usize = 5;

pub(crate) const END: usize = AT + LENGTH;

impl Part for Job {
    ghost at = { job_at };

    ghost row = { job_kept };

    ghost fitting = { job_fits };

    ghost read = { job_in };

    fn fits(w: &[u64; WORDS]) -> bool {
        u32::fits(w[HELD])
            & u32::fits(w[LAST])
            & u16::fits(w[GRANTED])
            & u16::fits(w[QUIET])
            & u8::fits(w[STOP])
    }

    fn load(w: &[u64; WORDS]) -> Job {
        Job {
            held: Field::of(w[HELD]),
            last: Field::of(w[LAST]),
            granted: Granted {
                seconds: Field::of(w[GRANTED]),
            },
            quiet: Field::of(w[QUIET]),
            stop: Field::of(w[STOP]),
        }
    }

    fn keep(self, w: &mut [u64; WORDS]) {
        w[HELD] = self.held.number();
        w[LAST] = self.last.number();
        w[GRANTED] = self.granted.seconds.number();
        w[QUIET] = self.quiet.number();
        w[STOP] = self.stop.number();
    }
}
