// The box for a host in C: include/bench_box.h says it in C's words. A box is its numbers; whatever they are, each function answers.
#![tactic(auto)]

ghost use Rattle.std.specs.Prelude.{◌≡◌, true, [], ◌∷◌, length as len};
ghost use Rattle.rules.specs.Record.{fresh};
ghost use Rattle.rules.specs.Calls.{number_of};
ghost use Rattle.answers.specs.Told.{reason_of};
ghost use Rattle.stored.specs.Stored.{kept, all_fit, is_box};
ghost use Rattle.desk_stream.specs.Boxed.{serving, performing};
ghost use Rattle.bench_box.specs.Host.{tick_number, tick_words, answer_to, flag, to_host};

use answers::Why;
use desk_stream::Came;
use rules::Record;
use stored::WORDS;

// The number of acceptance: C gets a number.
const ACCEPTED: u16 = 0;

// The answer to a question that is none: `bench_box_ask` gives C a number.
const NONE: u64 = u64::MAX;

// The number where no record reads, none of the paper's and not acceptance: `bench_box_perform` gives C a number.
const NO_RECORD: u16 = 0xFFFF;

// Three numbers, as the header says them to C.
fn tell(progress: &mut [usize; 3], came: Came)
    ensures { progress.new ≡ came.read ∷ came.written ∷ flag came.ended ∷ [] }
{
    *progress = [came.read, came.written, usize::from(came.ended)];
}

// Nothing is read, and nothing written.
fn refuse(progress: &mut [usize; 3], why: Why) -> u16
    ensures number { result ≡ number_of (reason_of why) }
    ensures none { progress.new ≡ 0 ∷ 0 ∷ 0 ∷ [] }
{
    *progress = [0; 3];
    why.into()
}

// ---- the functions of the header: each answers C by a number
#[unsafe(no_mangle)]
pub extern "C" fn bench_box_fresh(words: &mut [u64; WORDS])
    ensures kept { words.new ≡ kept fresh }
    ensures fit { all_fit words.new ≡ true }
{
    stored::keep(words, Record::fresh());
}

#[unsafe(no_mangle)]
pub extern "C" fn bench_box_tick(words: &mut [u64; WORDS], length: usize) -> u16
    ensures number { result ≡ tick_number words.old length }
    ensures words { words.new ≡ tick_words words.old length }
    ensures box_stays { is_box words.new length ≡ is_box words.old length }
{
    if !stored::is_box(words, length) {
        return Why::Unsound.into();
    }
    // Each second of a box is accepted.
    working::second(words);
    ACCEPTED
}

#[unsafe(no_mangle)]
#[tactic(auto, unfolding(crate::specs::Host::answer_to))]
pub extern "C" fn bench_box_ask(words: &[u64; WORDS], length: usize, question: usize) -> u64
    ensures { result ≡ answer_to words.now length question }
{
    if question < stored::ASKED {
        let told = words[question];
        if stored::is_box(words, length) {
            return told;
        }
    }
    NONE
}

#[unsafe(no_mangle)]
pub extern "C" fn bench_box_serve(
    words: &mut [u64; WORDS],
    ring: &mut [u8],
    input: &[u8],
    offset: u64,
    last: bool,
    lines: &mut [u8],
    progress: &mut [usize; 3],
) -> u16
    ensures told { record {
      number = result;
      words = words.new;
      ring = ring.new;
      reply = [];
      lines = lines.new;
      progress = progress.new;
    }
        ≡ to_host (serving words.old ring.old input.now offset last lines.old) }
    ensures box_stays { is_box words.new (len ring.new) ≡ is_box words.old (len ring.old) }
{
    match desk_stream::serve(words, ring, input, offset, last, lines) {
        Ok(came) => {
            tell(progress, came);
            ACCEPTED
        }
        Err(why) => refuse(progress, why),
    }
}

#[unsafe(no_mangle)]
pub extern "C" fn bench_box_perform(
    words: &mut [u64; WORDS],
    ring: &mut [u8],
    reply: &mut [u8],
    input: &[u8],
    offset: u64,
    last: bool,
    line: &mut [u8],
    progress: &mut [usize; 3],
) -> u16
    ensures told { record {
      number = result;
      words = words.new;
      ring = ring.new;
      reply = reply.new;
      lines = line.new;
      progress = progress.new;
    }
        ≡ to_host (performing words.old ring.old reply.old input.now offset last line.old) }
    ensures box_stays { is_box words.new (len ring.new) ≡ is_box words.old (len ring.old) }
{
    match desk_stream::perform(words, ring, reply, input, offset, last, line) {
        Ok(one) => {
            tell(progress, one.came);
            match one.outcome {
                Some(Ok(())) => ACCEPTED,
                Some(Err(why)) => why.into(),
                None => NO_RECORD,
            }
        }
        Err(why) => refuse(progress, why),
    }
}
