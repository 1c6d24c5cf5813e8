// `rename whole|children|helper FILE F COUNTER OUT`: the calls that rename a record.
use crate::given::{ARGUMENT, argument};
use commands::{WORK, file, refusal, say};
use names::{Answer, MAX_COUNTER};
use records::MOST_LONGEST;
use std::env::Env;
use std::io;
use std::rt::Files;
use walk::call::{children_only, single_helper, whole_form};

// Which of the three.
#[derive(Clone, Copy)]
pub enum Call {
    Whole,
    Children,
    Helper,
}

// Reads FILE and renames its record.
pub fn read(
    rt: &(impl Env + Files + Print),
    err: &impl Print,
    call: Call,
    path: &[u8],
    f: usize,
    counter: u64,
    work: &mut [u8; WORK],
) -> io::Result<()> {
    file::with(rt, err, path, |s| {
        rename(rt, err, call, s, f, counter, work)
    })
}

// Writes bytes to OUT, and answers whether they were written.
fn write(rt: &(impl Env + Files), err: &impl Print, bytes: &[u8]) -> io::Result<bool> {
    let mut out = [0u8; ARGUMENT];
    file::write(rt, err, argument(rt, 5, &mut out), bytes)
}

// Renames a record, writes it to OUT, and prints its length and the new counter, or the refusal.
fn rename(
    rt: &(impl Env + Files + Print),
    err: &impl Print,
    call: Call,
    s: &[u8],
    f: usize,
    counter: u64,
    work: &mut [u8; WORK],
) -> io::Result<()> {
    let mut renamed = [0u8; MOST_LONGEST];
    let a = answer(call, f, work, counter, s, &mut renamed);
    if let Some(refusal) = a.refusal {
        return refusal::print(err, refusal, counter > MAX_COUNTER, s.len() > f);
    }
    let Some(record) = renamed.get(..a.len) else {
        return Ok(());
    };
    if write(rt, err, record)? {
        say::text(rt, b"length ")?;
        say::number(rt, a.len)?;
        say::text(rt, b"\ncounter ")?;
        say::number(rt, a.counter)?;
        say::text(rt, b"\n")?;
    }
    Ok(())
}

// What the call answers.
fn answer(
    call: Call,
    f: usize,
    work: &mut [u8],
    counter: u64,
    input: &[u8],
    res: &mut [u8],
) -> Answer {
    match call {
        Call::Whole => whole_form(f, work, counter, input, res),
        Call::Children => children_only(f, work, counter, input, res),
        Call::Helper => single_helper(f, work, counter, input, res),
    }
}
