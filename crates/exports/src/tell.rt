// An answer in numbers.
ghost use Rattle.exports.specs.Linked.{Told};

use names::Answer;
use names::refusals::{refusal_number, refusal_place};

// Tells an answer: the refusal's number, or 0; place, counter, rounds and length through `told`.
pub fn tell(a: Answer, told: &mut [u64; 4]) -> u32
    ensures { Told a result told.new }
{
    let place = refusal_place(a.refusal);
    // A cast: Rust has no From of usize for u64, and TryFrom would answer an error that cannot come.
    *told = [place.start, a.counter, a.rounds, a.len as u64];
    refusal_number(a.refusal)
}
