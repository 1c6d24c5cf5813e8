// A file that an argument names, read or written.
ghost use Rattle.std.specs.Prelude.{◌≤◌, length, IfSome, IfOk};

use crate::say;
use records::MOST_LONGEST;
use std::io::Read;
use std::rt::Files;
use std::{fs, io};

// How much of a file is read: a file that fills it is over every F, and refused as 3.
const MOST_READ: usize = MOST_LONGEST + 1;

// Reads a file, as much of it as MOST_READ, and hands its bytes to a closure, or says that it cannot
// be read. What cannot be written of that is dropped.
pub fn with<F: FnOnce(&[u8]) -> io::Result<()>>(
    rt: &impl Files,
    to: &impl Print,
    path: &[u8],
    then: F,
) -> io::Result<()>
    requires { F.IsAlwaysCallable then }
{
    let mut input = [0u8; MOST_READ];
    match opened(rt, path, &mut input) {
        Some(len) => then(&input[..len]),
        None => {
            let _ = cannot(to, b"read ", path);
            Ok(())
        }
    }
}

// Opens a file and reads it: how many of its bytes stand at the front of the buffer. A path that is no
// text names no file.
fn opened(rt: &impl Files, path: &[u8], input: &mut [u8]) -> Option<usize>
    ensures { IfSome result (λ len. len ≤ length input.old) }
{
    let path = str::from_utf8(path).ok()?;
    let mut file = fs::open(rt, path).ok()?;
    fill(&mut file, input).ok()
}

// Reads an open file up to its end, or as much of it as the buffer holds.
fn fill(file: &mut impl Read, input: &mut [u8]) -> io::Result<usize>
    ensures { IfOk result (λ len. len ≤ length input.old) }
{
    let mut len = 0;
    // No range: the place moves by what a read gives.
    while len < input.len() {
        let n = file.read(&mut input[len..])?;
        if n == 0 {
            break;
        }
        len += n;
    }
    Ok(len)
}

// Writes a file, made or emptied first, and answers whether it was written, or says that it cannot be.
// A bool, and no error: a program that has said so ends well.
pub fn write(rt: &impl Files, to: &impl Print, path: &[u8], bytes: &[u8]) -> io::Result<bool> {
    let written = overwrite(rt, path, bytes).is_some();
    if !written {
        cannot(to, b"write ", path)?;
    }
    Ok(written)
}

// Opens a file and writes it. A path that is no text names no file.
fn overwrite(rt: &impl Files, path: &[u8], bytes: &[u8]) -> Option<()> {
    let path = str::from_utf8(path).ok()?;
    fs::write(rt, path, bytes).ok()
}

// Says what cannot be done with the file.
fn cannot(to: &impl Print, deed: &[u8], path: &[u8]) -> io::Result<()> {
    say::text(to, b"cannot ")?;
    say::text(to, deed)?;
    say::text(to, path)?;
    say::text(to, b"\n")
}
