// Replays stored cases of the call Page: standard input has the cases, each with the answer that it
// must get.
//
// A case is F, the lengths of work memory and of the result buffer, the number, the place, how many
// bytes are written and the length of the input (2, 4, 4, 1, 4, 4 and 2 bytes, big-endian); then the
// bytes written, and then the input. `replay_orders` is alike in form: what is the same stands in `replays`,
// and cases, places and the call differ.
#![tactic(auto)]

mod page;

ghost use Rattle.std.specs.Prelude.{◌≡◌, length};
ghost use Rattle.replays.specs.declared.Verdict.TheVariants.{Agrees};
ghost use Rattle.replay_pages.specs.Pages.{case_from, HeadAgrees};

use names::bytes::number;
use page::{Case, agrees};
use records::{MOST_LONGEST, WORK_FACTOR};
use replays::told::told;
use replays::{LONGEST, Verdict, read_part, replay};
use std::io;
use std::io::Read;

// The bytes of a case before those written and the input.
const HEAD: usize = 21;

// The length of work memory that is enough for every F.
const WORK: usize = WORK_FACTOR * MOST_LONGEST;

// The longest result buffer of a stored case.
const MOST_RESULT: usize = 16384;

// What a case gives and must get: none where no refusal has its number. Rust has no From between
// usize and u64.
fn case_of(head: &[u8; HEAD]) -> Option<Case>
    ensures { result ≡ case_from head.now }
{
    Some(Case {
        f: number(head, 0, 2),
        refusal: told(head[10], number(head, 11, 4) as u64)?.err(),
    })
}

// Has the call answer a case, with work memory and a result buffer as long as the case says.
fn judged(
    head: &[u8; HEAD],
    work: &mut [u8],
    res: &mut [u8],
    wanted: &[u8],
    input: &[u8],
) -> Verdict
    ensures { result ≡ Agrees → HeadAgrees head.now wanted.now input.now }
{
    let n = number(head, 2, 4);
    if n > work.len() {
        return Verdict::CutOff;
    }
    let m = number(head, 6, 4);
    if m > res.len() {
        return Verdict::CutOff;
    }
    let Some(c) = case_of(head) else {
        return Verdict::Differs;
    };
    replays::judged(agrees(c, &mut work[..n], input, wanted, &mut res[..m]))
}

// Reads what follows the head of a case, and has the call answer it.
fn rest(
    stdin: &mut impl Read,
    head: &[u8; HEAD],
    work: &mut [u8],
    wanted: &mut [u8],
    buf: &mut [u8],
) -> io::Result<Verdict> {
    let wanted = read_part(stdin, wanted, number(head, 15, 4))?;
    let input = read_part(stdin, buf, number(head, 19, 2))?;
    let mut result = [0u8; MOST_RESULT];
    Ok(judged(head, work, &mut result, wanted, input))
}

fn main(rt: HostRuntime) -> io::Result<()> {
    let mut work = [0u8; WORK];
    let mut wanted = [0u8; MOST_RESULT];
    let mut buf = [0u8; LONGEST];
    replay(&rt, &mut rt.stdin(), b" page", [0; HEAD], |stdin, head| {
        rest(stdin, head, &mut work, &mut wanted, &mut buf)
    })
}
