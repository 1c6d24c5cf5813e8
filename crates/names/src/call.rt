// What a call answers, and the call Name: one made name, or a refusal.
ghost use Rattle.std.specs.Prelude.{◌≡◌};
ghost use Rattle.names.specs.CallAnswer.{refused_answer, accepted_answer, name_call};
ghost use Rattle.names.specs.Names.{Bytes};

use crate::make::{gensym, gensym_len};
use crate::refusals::placeless;
use crate::{Answer, MAX_COUNTER, NAME_LIMIT, Reason, Refusal};

// The answer of a refusal: all else is as given.
pub fn refused(refusal: Refusal, counter: u64) -> Answer
    ensures { (buffer : Bytes) → (result, buffer) ≡ refused_answer counter buffer refusal }
{
    Answer {
        refusal: Some(refusal),
        counter,
        rounds: 0,
        len: 0,
    }
}

// The answer of a call that refuses nothing.
pub fn accepted(counter: u64, rounds: u64, len: usize) -> Answer
    ensures { result ≡ accepted_answer counter rounds len }
{
    Answer {
        refusal: None,
        counter,
        rounds,
        len,
    }
}

// Writes the name that `gensym` makes at the front of the result buffer.
pub fn name_call(name: &[u8], counter: u64, res: &mut [u8]) -> Answer
    ensures { (result, res.new) ≡ name_call name.now counter res.old }
{
    if counter > MAX_COUNTER {
        return refused(placeless(Reason::OutOfRange), counter);
    }
    let len = gensym_len(name, counter);
    if len > NAME_LIMIT {
        return refused(placeless(Reason::LongName), counter);
    }
    if len > res.len() {
        return refused(placeless(Reason::ShortBuffer), counter);
    }
    gensym(res, name, counter);
    accepted(counter + 1, 0, len)
}
