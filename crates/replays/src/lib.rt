// What the programs that replay stored cases share: the loop over the cases, what is said of them,
// and memory that is filled before a call. `told` has what a case tells of a refusal.
#![tactic(auto)]

pub mod told;

ghost use Rattle.std.specs.Prelude.{◌≡◌, ◌≤◌, length, IfOk};
ghost use Rattle.names.specs.CallAnswer.{written};
ghost use Rattle.replays.specs.Judging.{Decides, filling, judged_as, goes_further};

use std::io;
use std::io::{ErrorKind, Read};

// The most bytes that a length of two bytes can announce.
pub const LONGEST: usize = 65535;

// What memory is filled with.
const FILL: u8 = 7;

// What came of one case.
#[derive(Clone, Copy)]
pub enum Verdict {
    Agrees,
    Differs,
    CutOff,
    Broken,
    Ended,
}

// Reads until a buffer is full or the input ends, and answers how many bytes were put at its front.
pub fn read_full(stdin: &mut impl Read, buf: &mut [u8]) -> io::Result<usize>
    ensures { IfOk result (λ done. done ≤ length buf.new) }
{
    let mut done = 0;
    // No range: the place moves by what a read gives.
    while done < buf.len() {
        let n = stdin.read(&mut buf[done..])?;
        if n == 0 {
            return Ok(done);
        }
        done += n;
    }
    Ok(done)
}

// Reads so many bytes to the front of a buffer, and hands them out. Where the buffer is too short for
// them or the input ends before, that is an unexpected end.
pub fn read_part<'a>(stdin: &mut impl Read, buf: &'a mut [u8], count: usize) -> io::Result<&'a [u8]>
    ensures { IfOk result (λ part. length part.now ≡ count) }
{
    let part = buf.get_mut(..count).ok_or(ErrorKind::UnexpectedEof)?;
    if read_full(stdin, part)? < count {
        return Err(io::Error::from(ErrorKind::UnexpectedEof));
    }
    Ok(part)
}

// Agrees, or differs.
pub fn judged(agrees: bool) -> Verdict
    ensures { result ≡ judged_as agrees }
{
    if agrees {
        Verdict::Agrees
    } else {
        Verdict::Differs
    }
}

// Says of the case after `done` others of a kind what is wrong with it.
fn fault(rt: &impl Print, done: u64, kind: &[u8], what: &[u8]) -> io::Result<()> {
    rt.write_all(b"after ")?;
    rt.print(done)?;
    rt.write_all(kind)?;
    rt.write_all(b" cases that agree, the next ")?;
    rt.write_all(what)
}

// Says that all cases of a kind agree.
fn all_agree(rt: &impl Print, done: u64, kind: &[u8]) -> io::Result<()> {
    rt.print(done)?;
    rt.write_all(kind)?;
    rt.write_all(b" cases agree\n")
}

// Says what came of the case after `done` others of a kind, and answers whether to go on. What
// cannot be written is dropped.
pub fn goes_on(rt: &impl Print, outcome: Verdict, done: u64, kind: &[u8]) -> bool
    ensures { result ≡ goes_further outcome }
{
    let _ = match outcome {
        Verdict::Agrees => {
            return true;
        }
        Verdict::Ended => all_agree(rt, done, kind),
        Verdict::Differs => fault(rt, done, kind, b"does not\n"),
        Verdict::CutOff => fault(rt, done, kind, b"is cut off\n"),
        Verdict::Broken => fault(rt, done, kind, b"is broken\n"),
    };
    false
}

// A case in which the input ends is cut off; no other error is of the case.
fn cut_off(error: io::Error) -> io::Result<Verdict> {
    match error.kind() {
        ErrorKind::UnexpectedEof => Ok(Verdict::CutOff),
        _ => Err(error),
    }
}

// What a case begins with: an array of bytes. A bound on a closure cannot name an array's length.
pub trait Head: Drop {
    // All bytes of it.
    fn bytes(&mut self) -> &mut [u8];
}

impl<const N: usize> Head for [u8; N] {
    fn bytes(&mut self) -> &mut [u8] {
        self
    }
}

// Replays cases of a kind while they agree, and says what came of them. What each begins with is
// read into `head`; `judge` reads what follows, and judges the case. A proved loop has to end, and
// nothing says that the input does. So the loop counts, up to a number that no run reaches.
pub fn replay<H: Head, R: Read, F: FnMut(&mut R, &H) -> io::Result<Verdict>>(
    rt: &impl Print,
    stdin: &mut R,
    kind: &[u8],
    mut head: H,
    mut judge: F,
) -> io::Result<()>
    requires { F.IsAlwaysCallable judge }
{
    for done in 0..u64::MAX {
        let bytes = head.bytes();
        let outcome = match read_full(stdin, bytes)? {
            0 => Verdict::Ended,
            n if n < bytes.len() => Verdict::CutOff,
            _ => judge(stdin, &head).or_else(cut_off)?,
        };
        if !goes_on(rt, outcome, done, kind) {
            break;
        }
    }
    Ok(())
}

// Fills memory.
pub fn fill(mem: &mut [u8])
    ensures { mem.new ≡ filling (length mem.old) }
{
    mem.fill(FILL);
}

// Whether no byte differs from what memory was filled with.
pub fn untouched(rest: &[u8]) -> bool
    ensures { Decides result (rest.now ≡ filling (length rest.now)) }
{
    rest.iter().all(|b| *b == FILL)
}

// Whether the wanted bytes stand at the front of a result buffer, and behind them what it was filled
// with.
pub fn holds(buffer: &[u8], wanted: &[u8]) -> bool
    ensures { Decides result (buffer.now ≡ written wanted.now (filling (length buffer.now))) }
{
    match buffer.strip_prefix(wanted) {
        Some(rest) => untouched(rest),
        None => false,
    }
}
