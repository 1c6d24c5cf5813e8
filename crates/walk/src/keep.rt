// Records that a rule keeps as they are, and what is answered of a result that is too long.
ghost use Rattle.std.specs.Prelude.{◌≡◌, ◌+◌, ◌≤◌, length};
ghost use Rattle.walk.specs.Arena.{KeepsBytes};
ghost use Rattle.walk.specs.Steps.{over_long};
ghost use Rattle.walk.specs.Walking.{Finishes};

use crate::Task;
use names::bytes::copy;
use names::refusals::placeless;
use names::{Reason, Refusal};
use records::Step;

// The refusal of a result that is longer than it may be.
pub fn over_long() -> Refusal
    ensures { result ≡ over_long }
{
    placeless(Reason::LongRecord)
}

// A finished record of so many bytes, unless it is longer than F.
pub fn finished(read: usize, written: usize, f: usize, counter: u64) -> Result<Step, Refusal>
    ensures { Finishes read written f counter result }
{
    if f < written {
        return Err(over_long());
    }
    Ok(Step {
        read,
        written,
        counter,
    })
}

// Keeps the n bytes at the start of mem.
pub fn keep(mem: &mut [u8], task: Task, n: usize) -> Result<Step, Refusal>
    requires { (n ≤ task.free) × (task.free + task.f ≤ length mem.old) }
    ensures { KeepsBytes mem.old mem.new n task result }
{
    if task.f < n {
        return Err(over_long());
    }
    copy(mem, 0, task.free, n);
    Ok(Step {
        read: n,
        written: n,
        counter: task.counter,
    })
}
