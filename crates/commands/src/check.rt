// `rename check KIND FILE F`: whether a file holds one record that the calls take.
ghost use Rattle.std.specs.Prelude.{◌≤◌, length};
ghost use Rattle.records.specs.Limits.{most_longest};
ghost use Rattle.commands.specs.Records.{RecordsIn};

use crate::{WORK, file, refusal, say};
use outline::ENTRY_WIDTH;
use outline::index::index_input;
use records::input::open_input;
use records::{MOST_LONGEST, Wanted};
use std::io;
use std::rt::Files;

// The length of work memory that holds the index of every record.
const INDEX: usize = ENTRY_WIDTH * MOST_LONGEST;

// Reads a file and judges its bytes.
pub fn check(
    rt: &(impl Files + Print),
    to: &impl Print,
    wanted: Wanted,
    path: &[u8],
    f: usize,
) -> io::Result<()> {
    file::with(rt, to, path, |input| judge(rt, to, input, wanted, f))
}

// Prints that the bytes of a file are accepted and how many records they have, or the refusal.
fn judge(
    out: &impl Print,
    to: &impl Print,
    input: &[u8],
    wanted: Wanted,
    f: usize,
) -> io::Result<()> {
    match open_input(wanted, f, WORK, 0, input) {
        Err(refusal) => refusal::print(to, refusal, false, input.len() > f),
        Ok(()) => {
            let mut mem = [0u8; INDEX];
            let n = records_in(input, &mut mem);
            say::text(out, b"accepted: ")?;
            say::number(out, n)?;
            if n == 1 {
                say::text(out, b" record\n")
            } else {
                say::text(out, b" records\n")
            }
        }
    }
}

// How many records an accepted input has. Work memory is lent as an array, so that no proof has to
// count its bytes.
fn records_in(input: &[u8], mem: &mut [u8; INDEX]) -> usize
    requires { length input.now ≤ most_longest }
    ensures { RecordsIn input.now result }
{
    index_input(input, mem).count
}
