// The one place that knows the call Page.
ghost use Rattle.std.specs.Prelude.{◌≡◌};
ghost use Rattle.replays.specs.Judging.{Decides};
ghost use Rattle.replay_pages.specs.Pages.{AgreesIn, due_answer};

use names::{Answer, Refusal};
use outline::page::page_call;
use replays::{fill, holds};

// What a case gives the call beside its input, and the refusal that it must get.
#[derive(Clone, Copy)]
pub struct Case {
    pub f: usize,
    pub refusal: Option<Refusal>,
}

// The answer that a case must get, with so many bytes written.
fn due_answer(c: Case, len: usize) -> Answer
    ensures { result ≡ due_answer c len }
{
    Answer {
        refusal: c.refusal,
        counter: 0,
        rounds: 0,
        len,
    }
}

// Whether the call answers a case as it must.
pub fn agrees(c: Case, work: &mut [u8], input: &[u8], wanted: &[u8], res: &mut [u8]) -> bool
    ensures { Decides result (AgreesIn c work.old input.now wanted.now res.old) }
{
    fill(res);
    let a = page_call(c.f, work, input, res);
    a == due_answer(c, wanted.len()) && holds(res, wanted)
}
