// The tick entry: the box's second timer owns the record, lends it for each tick and finds it updated there.
#![tactic(auto)]

ghost use Rattle.std.specs.Prelude.{◌≡◌};
ghost use Rattle.host_tick.specs.Second.{second_of};

use rules::Record;

// A second's record and number. A number and no `Answer`: a second reports nothing more, and `second-settled` settles it by its number.
#[derive(Clone, Copy)]
pub struct Ticked {
    pub next: Record,
    pub number: u16,
}

// A second, for a ring of so many bytes.
pub fn second(r: Record, length: usize) -> Ticked
    ensures number_value { result.number ≡ (second_of r length).number }
    ensures next_value { result.next ≡ (second_of r length).state.box }
{
    let mut left = r;
    let answer = report::tick_in(&mut left, length);
    Ticked {
        next: left,
        number: answers::number(answer),
    }
}

// The record is lent for each tick and found updated there.
pub fn tick(r: &mut Record, length: usize) -> u16
    ensures { (result ≡ (second_of r.old length).number) × (r.new ≡ (second_of r.old length).state.box) }
{
    let after = second(*r, length);
    *r = after.next;
    after.number
}
