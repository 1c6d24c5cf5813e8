// `rename order FILE F`: the call Order. The rounds are shown as columns, and the stuck bindings with
// the refusal.
ghost use Rattle.std.specs.Prelude.{◌≤◌, length};
ghost use Rattle.names.specs.Names.{Bytes};
ghost use Rattle.records.specs.Limits.{most_longest};
ghost use Rattle.records.specs.Records.{Loc, Body, Bindings};
ghost use Rattle.records.specs.declared.Kind.{Kind};
ghost use Rattle.ordering.specs.Assign.{Let};

use crate::ready::ready;
use crate::{WORK, columns, file, provided, refusal, say, waits};
use names::Reason;
use ordering::assign::find_names;
use ordering::call::order_call;
use ordering::provides::Provided;
use ordering::{BINDING_LIMIT, NEED_LIMIT};
use records::bodies::let_view;
use records::input::open_input;
use records::{COUNT_LIMIT, Wanted};
use std::io;
use std::rt::Files;

// Reads a file and orders its assign. Work memory is lent as an array, so that no proof has to count
// its bytes.
pub fn order(
    rt: &(impl Files + Print),
    to: &impl Print,
    path: &[u8],
    f: usize,
    work: &mut [u8; WORK],
) -> io::Result<()> {
    file::with(rt, to, path, |s| ordered(rt, to, s, f, work))
}

// Orders an assign, and prints what the call answers.
fn ordered(
    out: &impl Print,
    to: &impl Print,
    s: &[u8],
    f: usize,
    work: &mut [u8; WORK],
) -> io::Result<()> {
    let mut row = [0u8; BINDING_LIMIT];
    let a = order_call(f, work, 0, s, &mut row);
    let Some(row) = row.get(..a.len) else {
        return Ok(());
    };
    match a.refusal {
        None if row.is_empty() => say::text(out, b"ordered: there are no bindings\n"),
        None => told(out, s, f, row, a.rounds),
        Some(refusal) => {
            refusal::print(to, refusal, false, s.len() > f)?;
            if refusal.reason == Reason::Deadlock {
                say::text(
                    to,
                    b"stuck, each waiting for names that only stuck bindings provide:\n",
                )?;
                told(to, s, f, row, 0)?;
            }
            Ok(())
        }
    }
}

// Prints the bindings of a row: an order in so many rounds, or with no rounds the stuck ones. The
// input is opened once more, to say that an assign stands in it.
fn told(to: &impl Print, s: &[u8], f: usize, row: &[u8], rounds: u64) -> io::Result<()> {
    match open_input(Wanted::Assign, f, WORK, 0, s) {
        Err(refusal) => refusal::print(to, refusal, false, s.len() > f),
        Ok(()) => names(to, s, row, rounds),
    }
}

// Lists the names that the bindings of an assign provide, and prints those of a row.
fn names(to: &impl Print, s: &[u8], row: &[u8], rounds: u64) -> io::Result<()>
    requires s_len_bound { length s.now ≤ most_longest }
    requires fact { (k : Kind) × (l : Loc) × (w : Bytes) × (h : Bytes) × (bs : Bindings) × (b : Body) × Let s.now k l w h bs b }
{
    let v = let_view(s);
    let count = usize::from(v.count);
    let mut entries = [0usize; NEED_LIMIT];
    let mut bodies = [0usize; BINDING_LIMIT];
    let n = find_names(s, v.first, &mut entries, &mut bodies[..count]);
    let given = Provided {
        bytes: s,
        entries: &entries[..n],
    };
    if rounds == 0 {
        print_stuck(to, &given, &bodies, bits_of(row))
    } else {
        print_ordered(to, &given, &bodies, row, rounds)
    }
}

// The bit of an index.
fn bit(i: u8) -> u64 {
    if i < COUNT_LIMIT {
        return 1u64 << i;
    }
    0
}

// The indices of a row as bits.
fn bits_of(row: &[u8]) -> u64 {
    row.iter().fold(0, |bits, i| bits | bit(*i))
}

// Whether all that a binding needs is provided by the bindings `before`, given as bits.
fn met(given: &Provided, bodies: &[usize], index: usize, before: u64) -> bool {
    index < bodies.len() && ready(given, bodies[index], before)
}

// Prints the bindings in their order, one in each line, marked in the column of its round: a binding
// that needs more than the columns before provide begins the next.
fn print_ordered(
    to: &impl Print,
    given: &Provided,
    bodies: &[usize],
    row: &[u8],
    rounds: u64,
) -> io::Result<()> {
    columns::head(to, rounds)?;
    let mut before = 0;
    let mut seen = 0;
    let mut column = 1;
    for i in row {
        let index = usize::from(*i);
        if !met(given, bodies, index, before) {
            before = seen;
            column += 1;
        }
        seen |= bit(*i);
        columns::mark(to, column, rounds)?;
        print_binding(to, given, index)?;
        say::text(to, b"\n")?;
    }
    Ok(())
}

// Prints the stuck bindings, given as bits, one in each line, with the names that each waits for.
fn print_stuck(to: &impl Print, given: &Provided, bodies: &[usize], stuck: u64) -> io::Result<()> {
    let mut rest = stuck;
    for i in 0..bodies.len() {
        if rest % 2 == 1 {
            print_binding(to, given, i)?;
            say::text(to, b", waits for")?;
            waits::print(to, given, bodies[i], stuck)?;
            say::text(to, b"\n")?;
        }
        rest /= 2;
    }
    Ok(())
}

// Prints a binding's index, and the names that it provides.
fn print_binding(to: &impl Print, given: &Provided, index: usize) -> io::Result<()> {
    say::text(to, b"  binding ")?;
    say::number(to, index)?;
    say::text(to, b" provides")?;
    provided::print(to, given, index)
}
