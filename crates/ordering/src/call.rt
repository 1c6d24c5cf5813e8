// The call Order: the exact order of one assign's bindings, or a refusal.
ghost use Rattle.std.specs.Prelude.{◌≡◌, ◌-◌, ◌≤◌, length, take, drop};
ghost use Rattle.records.specs.Limits.{most_longest};
ghost use Rattle.ordering.specs.Assign.{SomeLet, AnswersLet};
ghost use Rattle.ordering.specs.Needs.{binding_limit};
ghost use Rattle.ordering.specs.OrderCall.{stuck_answer, order_answer, order_call};
ghost use Rattle.ordering.specs.OrderMeans.{OrderMeans};

use crate::Order;
use crate::assign::toposort_assign_bindings;
use names::bytes::{number, put};
use names::call::{accepted, refused};
use names::refusals::{place_at, placeless, refusing};
use names::{Answer, Place, Reason};
use records::bodies::let_view;
use records::input::open_input;
use records::{LOC_WIDTH, Wanted};

// Writes the order.
fn ordered(o: Order, counter: u64, res: &mut [u8]) -> Answer
    requires { (o.count ≤ binding_limit) × (length o.row ≡ binding_limit) × (o.count ≤ length res.old) }
    ensures { (result, res.new) ≡ order_answer counter res.old o.rounds (take o.count o.row) }
{
    let row = o.row;
    let len = o.count;
    put(res, 0, &row[..len]);
    // A cast: Rust has no From of usize for u64, and TryFrom would answer an error that cannot come.
    accepted(counter, o.rounds as u64, len)
}

// Writes the stuck bindings.
fn stuck(o: Order, place: Place, counter: u64, res: &mut [u8]) -> Answer
    requires { (o.count ≤ binding_limit) × (length o.row ≡ binding_limit) × (o.placed ≤ o.count) × (o.count ≤ length res.old) }
    ensures { (result, res.new) ≡ stuck_answer counter place res.old (take (o.count - o.placed) (drop o.placed o.row)) }
{
    let row = o.row;
    let from = o.placed;
    let end = o.count;
    put(res, 0, &row[from..end]);
    Answer {
        refusal: Some(refusing(Reason::Deadlock, place)),
        counter,
        rounds: 0,
        len: end - from,
    }
}

// The answer for an assign that is read.
fn order_of(counter: u64, s: &[u8], res: &mut [u8]) -> Answer
    requires s_len_bound { length s.now ≤ most_longest }
    requires some_let { SomeLet s.now }
    ensures { AnswersLet s.now counter res.old (result, res.new) }
{
    let v = let_view(s);
    if res.len() < usize::from(v.count) {
        return refused(placeless(Reason::ShortBuffer), counter);
    }
    let o = toposort_assign_bindings(s);
    if o.placed < o.count {
        let loc = v.loc;
        // A cast: Rust has no From of usize for u64, and TryFrom would answer an error that cannot come.
        let place = place_at(number(s, loc, LOC_WIDTH) as u64);
        stuck(o, place, counter, res)
    } else {
        ordered(o, counter, res)
    }
}

// Writes the order of an assign's bindings at the front of the result buffer, or, at a deadlock,
// the stuck ones.
pub fn order_call(f: usize, work: &mut [u8], counter: u64, input: &[u8], res: &mut [u8]) -> Answer
    ensures res_after { (result, res.new) ≡ order_call f (length work.old) counter input.now res.old }
    ensures order_means { OrderMeans input.now (result, res.new) }
{
    match open_input(Wanted::Assign, f, work.len(), counter, input) {
        Err(refusal) => refused(refusal, counter),
        Ok(()) => order_of(counter, input, res),
    }
}
