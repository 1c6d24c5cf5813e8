// The refusals of every call before any work: 1, 3 by length, 2 and 3 by reading, and 4 where a call has it.
// A struct of the five things that each function is given would be made at a call to be taken apart at once.
ghost use Rattle.std.specs.Prelude.{◌≡◌, ◌≤◌, None, length};
ghost use Rattle.records.specs.Limits.{most_longest};
ghost use Rattle.records.specs.Opened.{limits, open_by, read_input, open_input};
ghost use Rattle.records.specs.Read.{outermost};
ghost use Rattle.records.specs.Scan.{Comes, starts, first_of, kept_of, wanted_reader, opening_of};

use crate::record::{assign, read_record};
use crate::start::outermost;
use crate::{Family, LEAST_LONGEST, MOST_LONGEST, Scan, WORK_FACTOR, Wanted};
use names::refusals::{place_at, placeless, refusing};
use names::{MAX_COUNTER, Reason, Refusal};

// Whether F, the length of work memory and the counter are within their limits.
fn within(f: usize, work: usize, counter: u64) -> bool
    ensures { result ≡ limits f work counter }
{
    if f < LEAST_LONGEST {
        return false;
    }
    if f > MOST_LONGEST {
        return false;
    }
    if work < WORK_FACTOR * f {
        return false;
    }
    counter <= MAX_COUNTER
}

// Reads a whole input from its first byte.
fn read_from_first(wanted: Wanted, input: &[u8]) -> Result<Scan, Refusal>
    requires { length input.now ≤ most_longest }
    ensures { Comes (wanted_reader wanted).1 outermost (starts input.entry None) result }
{
    let x = outermost();
    match wanted {
        Wanted::Form => read_record(input, x, Family::Form, None),
        Wanted::Helper => read_record(input, x, Family::Helper, None),
        Wanted::Assign => assign(input, x, None),
    }
}

// The first of the refusals 1, 3 by length, 2 and 3 by reading, or the first BM in a binding body of
// an assign, if there is one.
fn opened(
    wanted: Wanted,
    f: usize,
    work: usize,
    counter: u64,
    input: &[u8],
) -> Result<Option<usize>, Refusal>
    ensures { result ≡ kept_of (open_by first_of (wanted_reader wanted).1 f work counter input.now) }
{
    if !within(f, work, counter) {
        return Err(placeless(Reason::OutOfRange));
    }
    if input.len() > f {
        return Err(placeless(Reason::PastLimit));
    }
    let r = read_from_first(wanted, input)?;
    if r.at < input.len() {
        // A cast: Rust has no From of usize for u64, and TryFrom would answer an error that cannot come.
        return Err(refusing(Reason::NotOneRecord, place_at(r.at as u64)));
    }
    Ok(r.first)
}

// The first of the refusals 1, 3 by length, 2 and 3 by reading, or none: a BM may stand anywhere.
pub fn read_input(
    wanted: Wanted,
    f: usize,
    work: usize,
    counter: u64,
    input: &[u8],
) -> Result<(), Refusal>
    ensures { result ≡ opening_of (read_input (wanted_reader wanted).1 f work counter input.now) }
{
    opened(wanted, f, work, counter, input)?;
    Ok(())
}

// The first of the same refusals and 4 after them, or none.
pub fn open_input(
    wanted: Wanted,
    f: usize,
    work: usize,
    counter: u64,
    input: &[u8],
) -> Result<(), Refusal>
    ensures { result ≡ opening_of (open_input (wanted_reader wanted).1 f work counter input.now) }
{
    match opened(wanted, f, work, counter, input)? {
        // A cast: Rust has no From of usize for u64, and TryFrom would answer an error that cannot come.
        Some(p) => Err(refusing(Reason::ModInBinding, place_at(p as u64))),
        None => Ok(()),
    }
}
