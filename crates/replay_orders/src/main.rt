// Replays stored cases of the call Order: standard input has the cases, each with the answer that it
// must get.
//
// A case is F, the counter, the length of the result buffer, the number, the place, the rounds, how
// many bytes are written and the length of the input (2, 8, 1, 1, 4, 1, 1 and 2 bytes, big-endian);
// then the bytes written, and then the input. `replay_pages` is alike in form: what is the same stands in
// `replays`, and cases, places and the call differ.
#![tactic(auto)]

mod order;

ghost use Rattle.std.specs.Prelude.{◌≡◌, length};
ghost use Rattle.replays.specs.declared.Verdict.TheVariants.{Agrees};
ghost use Rattle.replay_orders.specs.Orders.{case_from, HeadAgrees};

use names::bytes::number;
use order::{Case, agrees};
use ordering::BINDING_LIMIT;
use records::{MOST_LONGEST, WORK_FACTOR};
use replays::told::told;
use replays::{LONGEST, Verdict, read_part, replay};
use std::io;
use std::io::Read;

// The bytes of a case before those written and the input.
const HEAD: usize = 20;

// The length of work memory that is enough for every F.
const WORK: usize = WORK_FACTOR * MOST_LONGEST;

// The most bytes that a length of one byte can announce.
const MOST_RESULT: usize = 255;

// What a case gives and must get: none where no refusal has its number. Rust has no From between
// usize and u64.
fn case_of(head: &[u8; HEAD]) -> Option<Case>
    ensures { result ≡ case_from head.now }
{
    Some(Case {
        f: number(head, 0, 2),
        counter: number(head, 2, 8) as u64,
        refusal: told(head[11], number(head, 12, 4) as u64)?.err(),
        rounds: u64::from(head[16]),
    })
}

// Has the call answer a case, with a result buffer as long as the case says.
fn judged(head: &[u8; HEAD], work: &mut [u8], wanted: &[u8], input: &[u8]) -> Verdict
    ensures { result ≡ Agrees → HeadAgrees head.now (length work.old) wanted.now input.now }
{
    let Some(c) = case_of(head) else {
        return Verdict::Differs;
    };
    let mut result = [0u8; MOST_RESULT];
    let n = usize::from(head[10]);
    replays::judged(agrees(c, work, input, wanted, &mut result[..n]))
}

// Reads what follows the head of a case, and has the call answer it.
fn rest(
    stdin: &mut impl Read,
    head: &[u8; HEAD],
    work: &mut [u8],
    wanted: &mut [u8],
    buf: &mut [u8],
) -> io::Result<Verdict> {
    let wanted = read_part(stdin, wanted, usize::from(head[17]))?;
    let input = read_part(stdin, buf, number(head, 18, 2))?;
    Ok(judged(head, work, wanted, input))
}

fn main(rt: HostRuntime) -> io::Result<()> {
    let mut work = [0u8; WORK];
    let mut wanted = [0u8; BINDING_LIMIT];
    let mut buf = [0u8; LONGEST];
    replay(&rt, &mut rt.stdin(), b" order", [0; HEAD], |stdin, head| {
        rest(stdin, head, &mut work, &mut wanted, &mut buf)
    })
}
