// The one place that knows the calls Whole form, Children only and Single helper.
ghost use Rattle.std.specs.Prelude.{◌≡◌, ◌≤◌, length};
ghost use Rattle.replays.specs.Judging.{Decides};
ghost use Rattle.replay_calls.specs.CallCases.{answer_to, call_of, due_answer, ResultIn, AgreesIn};

use names::{Answer, Refusal};
use replays::{fill, holds, untouched};
use walk::call::{children_only, single_helper, whole_form};

// The calls.
#[derive(Clone, Copy)]
pub enum Call {
    WholeForm,
    ChildrenOnly,
    SingleHelper,
}

// What a case gives beside its input, and the refusal and the counter that it must get.
#[derive(Clone, Copy)]
pub struct Case {
    pub call: Call,
    pub f: usize,
    pub counter: u64,
    pub refusal: Option<Refusal>,
    pub after: u64,
}

// The call of a number, where one has it.
pub fn call_of(number: u8) -> Option<Call>
    ensures { result ≡ call_of number }
{
    match number {
        0 => Some(Call::WholeForm),
        1 => Some(Call::ChildrenOnly),
        2 => Some(Call::SingleHelper),
        _ => None,
    }
}

// What the call of a case answers.
fn answer(c: Case, work: &mut [u8], input: &[u8], res: &mut [u8]) -> Answer
    ensures { (result, res.new) ≡ answer_to c work.old input.now res.old }
{
    match c.call {
        Call::WholeForm => whole_form(c.f, work, c.counter, input, res),
        Call::ChildrenOnly => children_only(c.f, work, c.counter, input, res),
        Call::SingleHelper => single_helper(c.f, work, c.counter, input, res),
    }
}

// The answer that a case must get, with so many bytes written.
fn due_answer(c: Case, len: usize) -> Answer
    ensures { result ≡ due_answer c len }
{
    Answer {
        refusal: c.refusal,
        counter: c.after,
        rounds: 0,
        len,
    }
}

// Whether an answer and the first bytes of memory, the result buffer, are those of the case, and no
// byte behind them changed.
fn same_result(c: Case, a: Answer, mem: &[u8], buffer: usize, wanted: &[u8]) -> bool
    requires { buffer ≤ length mem.now }
    ensures { Decides result (ResultIn c a mem.now buffer wanted.now) }
{
    a == due_answer(c, wanted.len()) && holds(&mem[..buffer], wanted) && untouched(&mem[buffer..])
}

// Whether a case is answered as it must be, with the first bytes of memory as the result buffer.
pub fn agrees(
    c: Case,
    work: &mut [u8],
    input: &[u8],
    wanted: &[u8],
    mem: &mut [u8],
    buffer: usize,
) -> bool
    ensures { Decides result (AgreesIn c work.old input.now wanted.now mem.old buffer) }
{
    if buffer > mem.len() {
        return false;
    }
    fill(mem);
    let a = answer(c, work, input, &mut mem[..buffer]);
    same_result(c, a, mem, buffer, wanted)
}
