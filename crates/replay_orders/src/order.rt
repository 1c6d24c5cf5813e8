// The one place that knows the call Order.
ghost use Rattle.std.specs.Prelude.{◌≡◌};
ghost use Rattle.names.specs.Refusals.{refusal_number};
ghost use Rattle.replays.specs.Judging.{Decides};
ghost use Rattle.replay_orders.specs.Orders.{AllHeld, BytesAgree, OrderAgrees, Somewhere, AgreesIn, due_answer};

use names::{Answer, Reason, Refusal};
use ordering::call::order_call;
use replays::{fill, untouched};

// What a case gives the call beside its input, and the refusal and rounds that it must get.
#[derive(Clone, Copy)]
pub struct Case {
    pub f: usize,
    pub counter: u64,
    pub refusal: Option<Refusal>,
    pub rounds: u64,
}

// Whether a byte stands in a list.
fn holds(list: &[u8], byte: u8) -> bool
    ensures { Decides result (Somewhere byte list.now) }
{
    list.contains(&byte)
}

// Whether each byte of one list stands in another.
fn all_held(list: &[u8], bytes: &[u8]) -> bool
    ensures { Decides result (AllHeld bytes.now list.now) }
{
    bytes.iter().all(|b| holds(list, *b))
}

// The answer that a case must get, with so many bytes written.
fn due_answer(c: Case, len: usize) -> Answer
    ensures { result ≡ due_answer c len }
{
    Answer {
        refusal: c.refusal,
        counter: c.counter,
        rounds: c.rounds,
        len,
    }
}

// Whether the bytes written are the wanted ones: of a deadlock in any sequence.
fn same_bytes(refusal: Option<Refusal>, got: &[u8], wanted: &[u8]) -> bool
    ensures { Decides result (BytesAgree (refusal_number refusal) got.now wanted.now) }
{
    if refusal.is_some_and(|r| r.reason == Reason::Deadlock) {
        got.len() == wanted.len() && all_held(got, wanted)
    } else {
        got == wanted
    }
}

// Whether an answer and the buffer that it leaves are those of the case.
fn same_result(c: Case, a: Answer, res: &[u8], wanted: &[u8]) -> bool
    ensures { Decides result (OrderAgrees c wanted.now (a, res.now)) }
{
    let len = a.len;
    a == due_answer(c, wanted.len())
        && len <= res.len()
        && untouched(&res[len..])
        && same_bytes(a.refusal, &res[..len], wanted)
}

// Whether the call answers a case as it must.
pub fn agrees(c: Case, work: &mut [u8], input: &[u8], wanted: &[u8], res: &mut [u8]) -> bool
    ensures { Decides result (AgreesIn c work.old input.now wanted.now res.old) }
{
    fill(res);
    let a = order_call(c.f, work, c.counter, input, res);
    same_result(c, a, res, wanted)
}
