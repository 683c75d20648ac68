// Every call and report through one door.
#![tactic(auto)]

ghost use Rattle.std.specs.Prelude.{◌≡◌};
ghost use Rattle.rules.specs.Calls.{lent};
ghost use Rattle.rules.specs.Machine.{step};
ghost use Rattle.answers.specs.Asked.{asked, replied};
ghost use Rattle.answers.specs.Told.{state_of, gave};

use answers::{Answer, Request};
use rules::Record;

// One request; `given` is a fetch's name or a report's picture bytes.
pub fn perform(
    r: &mut Record,
    ring: &mut [u8],
    request: Request,
    given: &[u8],
    reply: &mut [u8],
) -> Answer
    ensures outcome { gave (record { next = r.new; answer = result }) ring.new (lent (asked request given.now reply.new))
        ≡ step (state_of r.old ring.old) (asked request given.now reply.old) }
    ensures reply_left { reply.new
        ≡ replied (asked request given.now reply.old)
        (step (state_of r.old ring.old) (asked request given.now reply.old)) reply.old }
{
    match request {
        Request::StartScan(from, count, append, time) => {
            scan::begin::start_scan(r, ring, from, count, append, time)
        }
        Request::Start(job, from, count) => scan::begin::start(r, ring, job, from, count),
        Request::Stop(job) => scan::end::stop(r, ring, job),
        Request::Abort(job) => scan::end::abort(r, ring, job),
        Request::GetDestination(job) => scan::told::get_destination(*r, ring, job),
        Request::Fetch(most) => fetch::fetch(r, ring, given, most, reply),
        Request::GetState => scan::told::get_state(*r, ring),
        Request::GetSideInformation => scan::told::get_side_information(*r, ring),
        Request::Load(job) => feeder::load(r, ring, job),
        Request::Eject(job, value) => feeder::eject(r, ring, job, value),
        Request::Reset(job) => feeder::reset(r, ring, job),
        Request::SetFeederMode(job, mode) => feeder::mode::set_feeder_mode(*r, ring, job, mode),
        Request::GetFeederState => feeder::mode::get_state(*r, ring),
        Request::GetFeederMode => feeder::mode::get_feeder_mode(*r, ring),
        Request::Bytes => report::bytes(r, ring, given),
        Request::SideEnded => report::side_ended(r, ring),
        Request::Tray(value) => report::tray(r, ring, value),
        Request::Path(value) => report::path(r, ring, value),
        Request::Tick => report::tick(r, ring),
    }
}
