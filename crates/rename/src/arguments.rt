// The arguments of each command, read and handed on.
use crate::given::{ARGUMENT, argument, count};
use crate::renaming::Call;
use crate::task::Asked;
use crate::{task, usage};
use commands::{counter, kind};
use std::env::Env;
use std::io;
use std::rt::Files;

// The number that an argument gives.
fn number(rt: &impl Env, err: &impl Print, i: usize, which: &[u8]) -> Option<u64> {
    let mut digits = [0u8; ARGUMENT];
    counter::argument(err, which, argument(rt, i, &mut digits))
}

// The F that an argument gives. Rust has no From between u64 and usize.
fn longest(rt: &impl Env, err: &impl Print, i: usize) -> Option<usize> {
    number(rt, err, i, b"F").map(|f| f as usize)
}

// `rename name NAME COUNTER`. A NAME that its buffer cannot hold is cut: it is too long for a made name
// either way.
pub fn name(rt: &(impl Env + Print), err: &impl Print) -> io::Result<()> {
    if count(rt) != 4 {
        return usage::print(err);
    }
    let Some(counter) = number(rt, err, 3, b"COUNTER") else {
        return Ok(());
    };
    let mut name = [0u8; ARGUMENT];
    match rt.arg(2, &mut name) {
        Ok(n) => commands::name::make(rt, err, &name[..n], counter),
        Err(_) => commands::name::make(rt, err, &name, counter),
    }
}

// `rename check KIND FILE F`.
pub fn check(rt: &(impl Env + Files + Print), err: &impl Print) -> io::Result<()> {
    if count(rt) != 5 {
        return usage::print(err);
    }
    let mut word = [0u8; ARGUMENT];
    let Some(wanted) = kind::argument(err, argument(rt, 2, &mut word)) else {
        return Ok(());
    };
    let Some(f) = longest(rt, err, 4) else {
        return Ok(());
    };
    let mut path = [0u8; ARGUMENT];
    commands::check::check(rt, err, wanted, argument(rt, 3, &mut path), f)
}

// `rename order FILE F` and `rename page FILE F`.
pub fn of_file(rt: &(impl Env + Files + Print), err: &impl Print, asked: Asked) -> io::Result<()> {
    if count(rt) != 4 {
        return usage::print(err);
    }
    match longest(rt, err, 3) {
        Some(f) => task::run(rt, err, asked, f, 0),
        None => Ok(()),
    }
}

// `rename whole|children|helper FILE F COUNTER OUT`.
pub fn renaming(rt: &(impl Env + Files + Print), err: &impl Print, call: Call) -> io::Result<()> {
    if count(rt) != 6 {
        return usage::print(err);
    }
    let Some(f) = longest(rt, err, 3) else {
        return Ok(());
    };
    match number(rt, err, 4, b"COUNTER") {
        Some(counter) => task::run(rt, err, Asked::Renaming(call), f, counter),
        None => Ok(()),
    }
}
