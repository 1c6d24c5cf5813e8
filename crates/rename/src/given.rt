// The arguments that the program was started with, as bytes.
ghost use Rattle.std.specs.Prelude.{◌≤◌, length};

use std::env::{Env, FillError};

// The most bytes of an argument that is read whole.
pub const ARGUMENT: usize = 4096;

// An argument, put at the front of a buffer: no bytes where there is no such argument, or where the
// buffer is too short for it.
pub fn argument<'a>(rt: &impl Env, i: usize, buf: &'a mut [u8]) -> &'a [u8]
    ensures { length result.now ≤ length buf.old }
{
    match rt.arg(i, buf) {
        Ok(n) => &buf[..n],
        Err(_) => b"",
    }
}

// Whether there is such an argument.
fn stands(rt: &impl Env, i: usize) -> bool {
    let mut first = [0u8; 1];
    !matches!(rt.arg(i, &mut first), Err(FillError::NotPresent))
}

// How many arguments there are, the program's own name among them.
pub fn count(rt: &impl Env) -> usize {
    for i in 0..usize::MAX {
        if !stands(rt, i) {
            return i;
        }
    }
    usize::MAX
}
