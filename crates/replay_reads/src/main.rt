// Replays stored reading cases: standard input has the cases, each with the answer that it must get.
//
// A case is its kind, number, F, place and the length of its input (1, 1, 2, 2 and 2 bytes,
// big-endian), and then the input.
#![tactic(auto)]

mod reader;

ghost use Rattle.std.specs.Prelude.{◌≡◌};
ghost use Rattle.replays.specs.declared.Verdict.TheVariants.{Agrees};
ghost use Rattle.replay_reads.specs.Reading.{ReadAgrees};

use names::bytes::number;
use reader::{agrees, wanted};
use replays::told::told;
use replays::{LONGEST, Verdict, read_part, replay};
use std::io;
use std::io::Read;

// The bytes of a case before its input.
const HEAD: usize = 8;

// Has the reader answer a case. Rust has no From between usize and u64.
fn judged(head: &[u8; HEAD], input: &[u8]) -> Verdict
    ensures { result ≡ Agrees → ReadAgrees head.now input.now }
{
    let Some(due) = told(head[1], number(head, 4, 2) as u64) else {
        return Verdict::Differs;
    };
    replays::judged(agrees(wanted(head[0]), number(head, 2, 2), due, input))
}

// Reads what follows the head of a case, and has the reader answer it. A case that cannot be read is cut
// off, whatever the error.
fn rest(stdin: &mut impl Read, head: &[u8; HEAD], buf: &mut [u8]) -> io::Result<Verdict> {
    Ok(match read_part(stdin, buf, number(head, 6, 2)) {
        Ok(input) => judged(head, input),
        Err(_) => Verdict::CutOff,
    })
}

fn main(rt: HostRuntime) -> io::Result<()> {
    let mut buf = [0u8; LONGEST];
    replay(
        &rt,
        &mut rt.stdin(),
        b" reading",
        [0; HEAD],
        |stdin, head| rest(stdin, head, &mut buf),
    )
}
