// Replays stored cases of the calls Whole form, Children only and Single helper: standard input has
// the cases, each with the answer that it must get.
//
// A case is the call (0, 1 or 2), the number, F, the length of work memory, the counter, the
// counter after the call, the place, and the lengths of the result buffer, the input and the result
// (1, 1, 4, 4, 8, 8, 8, 2, 2 and 2 bytes, big-endian); then the input, and then the result.
#![tactic(auto)]

mod calls;

ghost use Rattle.std.specs.Prelude.{◌≡◌, ◌≤◌, length};
ghost use Rattle.replays.specs.declared.Verdict.TheVariants.{Agrees};
ghost use Rattle.replay_calls.specs.CallCases.{case_from, work_of, HeadAgrees};

use calls::{Case, agrees, call_of};
use names::bytes::number;
use records::{MOST_LONGEST, WORK_FACTOR};
use replays::told::told;
use replays::{LONGEST, Verdict, read_part, replay};
use std::io;
use std::io::Read;

// The bytes of a case before its input and result.
const HEAD: usize = 40;

// The most bytes of an input and a result.
const PARTS: usize = 2 * LONGEST;

// How many bytes behind the result buffer must stay as they are.
const BEHIND: usize = 64;

// The longest result buffer, and the bytes behind it.
const MEMORY: usize = LONGEST + BEHIND;

// Work memory for every F, and for some that are too long.
const WORK: usize = WORK_FACTOR * (MOST_LONGEST + 16);

// What a case gives and must get: none where its call or its refusal has no such number. Rust has no
// From between usize and u64.
fn case_of(head: &[u8; HEAD]) -> Option<Case>
    ensures { result ≡ case_from head.now }
{
    Some(Case {
        call: call_of(head[0])?,
        f: number(head, 2, 4),
        counter: number(head, 10, 8) as u64,
        refusal: told(head[1], number(head, 26, 8) as u64)?.err(),
        after: number(head, 18, 8) as u64,
    })
}

// Has the call answer a case, whose result stands behind the input from this place on.
fn judged(head: &[u8; HEAD], work: &mut [u8], mem: &mut [u8], parts: &[u8], res: usize) -> Verdict
    requires { res ≤ length parts.now }
    ensures { result ≡ Agrees → HeadAgrees head.now (length work.old) parts.now res }
{
    if call_of(head[0]).is_none() {
        return Verdict::Broken;
    }
    let Some(c) = case_of(head) else {
        return Verdict::Differs;
    };
    let buffer = number(head, 34, 2);
    replays::judged(agrees(c, work, &parts[..res], &parts[res..], mem, buffer))
}

// Lends as much memory as a case asks for, and has the call answer it.
fn lends(head: &[u8; HEAD], work: &mut [u8], mem: &mut [u8], parts: &[u8], res: usize) -> Verdict
    requires { res ≤ length parts.now }
    ensures { result ≡ Agrees → HeadAgrees head.now (work_of head.now) parts.now res }
{
    let enough = number(head, 6, 4);
    let end = number(head, 34, 2) + BEHIND;
    if enough > work.len() {
        return Verdict::Broken;
    }
    if end > mem.len() {
        return Verdict::Broken;
    }
    judged(head, &mut work[..enough], &mut mem[..end], parts, res)
}

// Reads what follows the head of a case, and has the call answer it.
fn rest(
    stdin: &mut impl Read,
    head: &[u8; HEAD],
    work: &mut [u8],
    mem: &mut [u8],
    buf: &mut [u8],
) -> io::Result<Verdict> {
    let result = number(head, 36, 2);
    let parts = read_part(stdin, buf, result + number(head, 38, 2))?;
    Ok(lends(head, work, mem, parts, result))
}

fn main(rt: HostRuntime) -> io::Result<()> {
    let mut work = [0u8; WORK];
    let mut mem = [0u8; MEMORY];
    let mut buf = [0u8; PARTS];
    replay(&rt, &mut rt.stdin(), b" call", [0; HEAD], |stdin, head| {
        rest(stdin, head, &mut work, &mut mem, &mut buf)
    })
}
