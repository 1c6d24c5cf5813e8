// The calls Whole form, Children only and Single helper: the record is copied into work memory and
// renamed there, and the result is written to the result buffer.
//
// Each call has a function of its own, since callers name it and its claim is about its own walk. What
// they do alike stands once, and `call` says for which: a closure's clauses would be those of `walk`.
ghost use Rattle.std.specs.Prelude.{◌≡◌, ◌≤◌, length, take};
ghost use Rattle.names.specs.CallAnswer.{delivered};
ghost use Rattle.walk.specs.Assigns.{AssignsOrdered};
ghost use Rattle.walk.specs.Calls.{whole_call, children_call, helper_call, whole_visits, children_visits, helper_visits};
ghost use Rattle.walk.specs.Renaming.{call_by, wanted_by, call_task, CallReady, WalksCall};

use crate::forms::{args_compileform, args_helperform, children_compileform};
use crate::{Request, Task};
use names::bytes::put;
use names::call::{accepted, refused};
use names::refusals::placeless;
use names::{Answer, Reason, Refusal};
use records::input::open_input;
use records::{LEVEL_LIMIT, Step, Wanted};

// Renames a CF (`rename_args_compileform`).
pub fn whole_form(f: usize, work: &mut [u8], counter: u64, input: &[u8], res: &mut [u8]) -> Answer
    ensures res_after { (result, res.new) ≡ whole_call f (length work.old) counter input.now res.old }
    ensures assigns_ordered { AssignsOrdered f (whole_visits f (length work.old) counter input.now) result.refusal }
{
    rename(Request::WholeForm, f, work, counter, input, res)
}

// Renames the helpers and the body of a CF, and keeps its args (`rename_children_compileform`).
pub fn children_only(
    f: usize,
    work: &mut [u8],
    counter: u64,
    input: &[u8],
    res: &mut [u8],
) -> Answer
    ensures res_after { (result, res.new) ≡ children_call f (length work.old) counter input.now res.old }
    ensures assigns_ordered { AssignsOrdered f (children_visits f (length work.old) counter input.now) result.refusal }
{
    rename(Request::ChildrenOnly, f, work, counter, input, res)
}

// Renames an H record (`rename_args_helperform`).
pub fn single_helper(
    f: usize,
    work: &mut [u8],
    counter: u64,
    input: &[u8],
    res: &mut [u8],
) -> Answer
    ensures res_after { (result, res.new) ≡ helper_call f (length work.old) counter input.now res.old }
    ensures assigns_ordered { AssignsOrdered f (helper_visits f (length work.old) counter input.now) result.refusal }
{
    rename(Request::SingleHelper, f, work, counter, input, res)
}

// One of the calls: writes the renamed record at the front of the result buffer, or refuses.
fn rename(
    call: Request,
    f: usize,
    work: &mut [u8],
    counter: u64,
    input: &[u8],
    res: &mut [u8],
) -> Answer
    ensures { (result, res.new) ≡ call_by call f (length work.old) counter input.now res.old }
{
    match open_input(wanted(call), f, work.len(), counter, input) {
        Err(r) => refused(r, counter),
        Ok(()) => {
            let n = input.len();
            put(work, 0, input);
            match walk(call, f, work, n, counter) {
                Err(r) => refused(r, counter),
                Ok(s) => delivered(s, counter, &work[n..], res),
            }
        }
    }
}

// The record that a call reads.
fn wanted(call: Request) -> Wanted
    ensures { result ≡ wanted_by call }
{
    match call {
        Request::WholeForm => Wanted::Form,
        Request::ChildrenOnly => Wanted::Form,
        Request::SingleHelper => Wanted::Helper,
    }
}

// The walk of a call on the record at the start of work memory; its result goes to `free`.
fn walk(
    call: Request,
    f: usize,
    work: &mut [u8],
    free: usize,
    counter: u64,
) -> Result<Step, Refusal>
    requires { CallReady call work.old (call_task free f counter) }
    ensures { WalksCall call work.old work.new (call_task free f counter) result }
{
    let t = Task {
        free,
        map: 0,
        f,
        depth: LEVEL_LIMIT,
        counter,
    };
    match call {
        Request::WholeForm => args_compileform(work, t),
        Request::ChildrenOnly => children_compileform(work, t),
        Request::SingleHelper => args_helperform(work, t),
    }
}

// The answer to a walk that is done, and whose result stands at the start of `made`; the counter is
// the one that it started from.
fn delivered(s: Step, counter: u64, made: &[u8], res: &mut [u8]) -> Answer
    requires { s.written ≤ length made.now }
    ensures { (result, res.new) ≡ delivered counter res.old (take s.written made.now) s.counter }
{
    let len = s.written;
    if res.len() < len {
        return refused(placeless(Reason::ShortBuffer), counter);
    }
    put(res, 0, &made[..len]);
    accepted(s.counter, 0, len)
}
