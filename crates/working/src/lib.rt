// The calls on the working record: the numbers of a sound box, changed in place. Nothing tests them again, and each call makes of
// them no more of the record than it uses. That they are a box is a premise and no type, since a host lends any numbers.
#![tactic(auto)]

ghost use Rattle.std.specs.Prelude.{◌≡◌, true, List, [], ℕ, length, Ok};
ghost use Rattle.std.specs.Fn.{FnOnceReturnsAtMut};
ghost use Rattle.rules.specs.Calls.{scan, Fetch, report, Bytes, Tick};
ghost use Rattle.stored.specs.Stored.{all_fit, is_box};
ghost use Rattle.answers.specs.declared.Told.{Told};
ghost use Rattle.working.specs.Worked.{Does, Works};
ghost use Rattle.working.specs.Kept.{is_last, Settled, SettledFed};

use answers::{Answer, Request, Told};
use rules::{Record, Scan};
use stored::WORDS;

// ---- what a call leaves of the record is kept, no more of it than the call may have changed
// All of it, but nothing where the call is refused.
fn settle<F: FnOnce(&mut Record) -> Answer>(w: &mut [u64; WORDS], call: F) -> Answer
    requires { F.IsAlwaysCallable call }
    ensures { all_fit w.old ≡ true → Settled (FnOnceReturnsAtMut F.FnOnce call) w.old result w.new }
{
    let mut r = stored::load(w);
    let answer = call(&mut r);
    if answer.is_ok() {
        stored::keep(w, r);
    }
    answer
}

// The feeder's part, refused or not: another part than `settle` keeps, and under no condition.
fn settle_fed<F: FnOnce(&mut Record) -> Answer>(w: &mut [u64; WORDS], call: F) -> Answer
    requires { F.IsAlwaysCallable call }
    ensures { all_fit w.old ≡ true → SettledFed (FnOnceReturnsAtMut F.FnOnce call) w.old result w.new }
{
    let mut r = stored::load(w);
    let answer = call(&mut r);
    stored::keep_feeder(w, r.feeder);
    answer
}

// ---- a second, a fetch and picture bytes: mostly quiet and the ring's two are changed, but all of the record where a job or a side ends
// What a second makes of the numbers; each second of a box is accepted. By `matches!`: by `==` it takes some sixteen instructions more.
#[inline(always)]
pub fn second(w: &mut [u64; WORDS])
    ensures { (ring : List ℕ) → is_box w.old (length ring) ≡ true
        → Does (report Tick) w.old ring (Ok Told.Done) w.new ring [] }
{
    let r = stored::load(w);
    let next = report::tick_sound(r);
    if matches!(r.scanner.state, Scan::Idle) {
        return;
    }
    if matches!(next.scanner.state, Scan::Idle) {
        stored::keep(w, next);
    } else {
        stored::keep_heard(w, next);
    }
}

// A function of its own: as a part of `perform` it would cost every other request some instructions.
#[inline(never)]
pub fn tick(w: &mut [u64; WORDS]) -> Answer
    ensures { (ring : List ℕ) → is_box w.old (length ring) ≡ true
        → Does (report Tick) w.old ring result w.new ring [] }
{
    second(w);
    Ok(Told::Done)
}

// The last bytes of a side went out.
fn is_last(answer: Answer) -> bool
    ensures { result ≡ is_last answer }
{
    matches!(answer, Ok(Told::Picture(_, true)))
}

fn fetch(w: &mut [u64; WORDS], ring: &[u8], called: &[u8], most: u8, reply: &mut [u8]) -> Answer
    ensures { is_box w.old (length ring.now) ≡ true
        → Does (scan (Fetch called.now most reply.old)) w.old ring.now result
        w.new ring.now reply.new }
{
    let mut r = stored::load(w);
    let answer = fetch::fetch_sound(&mut r, ring, called, most, reply);
    if is_last(answer) {
        stored::keep(w, r);
    } else {
        stored::keep_heard(w, r);
    }
    answer
}

// Picture bytes: quiet and the ring's two.
fn take_bytes(w: &mut [u64; WORDS], ring: &mut [u8], given: &[u8]) -> Answer
    ensures { is_box w.old (length ring.old) ≡ true
        → Does (report (Bytes given.now)) w.old ring.old result w.new ring.new [] }
{
    let mut r = stored::load(w);
    let answer = report::bytes_sound(&mut r, ring, given);
    stored::keep_heard(w, r);
    answer
}

// One request; `given` is a fetch's name or a report's picture bytes. Calls that only tell leave the numbers alone.
pub fn perform(
    w: &mut [u64; WORDS],
    ring: &mut [u8],
    request: Request,
    given: &[u8],
    reply: &mut [u8],
) -> Answer
    ensures { is_box w.old (length ring.old) ≡ true
        → Works request given.now w.old ring.old reply.old
        result w.new ring.new reply.new }
{
    match request {
        Request::StartScan(from, count, append, time) => settle(w, |r| {
            scan::begin::start_scan_sound(r, ring, from, count, append, time)
        }),
        Request::Start(job, from, count) => {
            settle(w, |r| scan::begin::start_sound(r, ring, job, from, count))
        }
        Request::Stop(job) => settle(w, |r| scan::end::stop_sound(r, ring, job)),
        Request::Abort(job) => settle(w, |r| scan::end::abort_sound(r, ring, job)),
        Request::GetDestination(job) => {
            scan::told::get_destination_sound(stored::load(w), ring, job)
        }
        Request::Fetch(most) => fetch(w, ring, given, most, reply),
        Request::GetState => scan::told::get_state_sound(stored::load(w), ring),
        Request::GetSideInformation => {
            scan::told::get_side_information_sound(stored::load(w), ring)
        }
        Request::Load(job) => settle_fed(w, |r| feeder::load_sound(r, ring, job)),
        Request::Eject(job, value) => {
            settle_fed(w, |r| feeder::eject_sound(r, ring, job, value))
        }
        Request::Reset(job) => settle_fed(w, |r| feeder::reset_sound(r, ring, job)),
        Request::SetFeederMode(job, mode) => {
            feeder::mode::set_feeder_mode_sound(stored::load(w), ring, job, mode)
        }
        Request::GetFeederState => feeder::mode::get_state_sound(stored::load(w), ring),
        Request::GetFeederMode => feeder::mode::get_feeder_mode_sound(stored::load(w), ring),
        Request::Bytes => take_bytes(w, ring, given),
        Request::SideEnded => settle(w, |r| report::side_ended_sound(r, ring)),
        Request::Tray(value) => settle_fed(w, |r| report::tray_sound(r, ring, value)),
        Request::Path(value) => settle(w, |r| report::path_sound(r, ring, value)),
        Request::Tick => tick(w),
    }
}
