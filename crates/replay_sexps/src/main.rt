// Replays stored cases of Invent and Substitute: standard input has the cases, each with the answers
// that it must get.
//
// The input of a case is a CF without helpers. Names are drawn from its args; its body is a BV of the
// S record that is then substituted by their map. A case is F, how long the result may be, the
// counter, the rule, the number that Invent gives, the counter after it, the number that Substitute
// gives, and the lengths of the map, the result and the input (2, 2, 8, 1, 1, 8, 1, 2, 2 and 2 bytes,
// big-endian); then the map, the result and the input. The rule is 0 for Substitute, 1 with `qq`
// looked into, 2 inside `qq`, 3 for an S record alone in a body. After a 6 nothing is substituted.
#![tactic(auto)]

mod sexps;

ghost use Rattle.std.specs.Prelude.{◌≡◌, ◌≤◌, length};
ghost use Rattle.replay_sexps.specs.Cases.{case_from, told_after};

use names::Refusal;
use names::bytes::number;
use records::MOST_LONGEST;
use replays::told::told;
use replays::{LONGEST, Verdict, read_part, replay};
use sexps::{Case, FACTOR, agrees, rule_of};
use std::io;
use std::io::Read;

// The bytes of a case before its map, result and input.
const HEAD: usize = 29;

// The most bytes that three lengths of two bytes can announce.
const PARTS: usize = 3 * LONGEST;

// Memory for the longest input with its map, and the most bytes that a result can take.
const MEMORY: usize = FACTOR * MOST_LONGEST + LONGEST;

// What a case tells of Substitute. After a refusal nothing is substituted, and the number is not looked
// at.
fn told_after(invented: Result<(), Refusal>, number: u8) -> Option<Result<(), Refusal>>
    ensures { result ≡ told_after invented number }
{
    match invented {
        Ok(()) => told(number, 0),
        Err(_) => Some(invented),
    }
}

// What a case gives and must get: none where a number that is looked at is no refusal's. Rust has no
// From between usize and u64.
fn case_of(head: &[u8; HEAD]) -> Option<Case>
    ensures { result ≡ case_from head.now }
{
    let invented = told(head[13], 0)?;
    Some(Case {
        f: number(head, 0, 2),
        room: number(head, 2, 2),
        counter: number(head, 4, 8) as u64,
        rule: rule_of(head[12]),
        invented,
        after: number(head, 14, 8) as u64,
        substituted: told_after(invented, head[22])?,
    })
}

// Has the calls answer a case, whose result and input stand behind the map from these places on.
fn judged(head: &[u8; HEAD], mem: &mut [u8], parts: &[u8], res: usize, input: usize) -> Verdict
    requires { (res ≤ input) × (input ≤ length parts.now) }
{
    let Some(c) = case_of(head) else {
        return Verdict::Differs;
    };
    let map = &parts[..res];
    let wanted = &parts[res..input];
    replays::judged(agrees(c, mem, &parts[input..], map, wanted))
}

// Reads what follows the head of a case, and has the calls answer it.
fn rest(
    stdin: &mut impl Read,
    head: &[u8; HEAD],
    mem: &mut [u8],
    buf: &mut [u8],
) -> io::Result<Verdict> {
    let result = number(head, 23, 2);
    let input = result + number(head, 25, 2);
    let parts = read_part(stdin, buf, input + number(head, 27, 2))?;
    Ok(judged(head, mem, parts, result, input))
}

fn main(rt: HostRuntime) -> io::Result<()> {
    let mut mem = [0u8; MEMORY];
    let mut buf = [0u8; PARTS];
    replay(
        &rt,
        &mut rt.stdin(),
        b" S record",
        [0; HEAD],
        |stdin, head| { rest(stdin, head, &mut mem, &mut buf) },
    )
}
