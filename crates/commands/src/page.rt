// `rename page FILE F`: the call Page, printed.
use crate::{WORK, file, refusal, say};
use outline::LINE_WIDTH;
use outline::page::page_call;
use records::MOST_LONGEST;
use std::io;
use std::rt::Files;

// The bytes of a page that is long enough for every form: a record has a byte at least.
const MOST_PAGE: usize = (LINE_WIDTH + 1) * MOST_LONGEST;

// Reads a file and prints the page of its form. Work memory and the page are lent as arrays, so that
// no proof has to count their bytes. A command is given what `order` is given too: a struct of that would
// be made at the call to be taken apart here.
pub fn page(
    rt: &(impl Files + Print),
    to: &impl Print,
    path: &[u8],
    f: usize,
    work: &mut [u8; WORK],
) -> io::Result<()> {
    let mut lines = [0u8; MOST_PAGE];
    file::with(rt, to, path, |s| print(rt, to, s, f, work, &mut lines))
}

// Prints the page of a form, or the refusal.
fn print(
    out: &impl Print,
    to: &impl Print,
    s: &[u8],
    f: usize,
    work: &mut [u8],
    lines: &mut [u8],
) -> io::Result<()> {
    let a = page_call(f, work, s, lines);
    if let Some(refusal) = a.refusal {
        return refusal::print(to, refusal, false, s.len() > f);
    }
    match lines.get(..a.len) {
        Some(page) => say::text(out, page),
        None => Ok(()),
    }
}
