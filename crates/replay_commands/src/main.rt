// Runs the commands that need no renaming on stored files. What is refused is written to standard
// output too, so that it is compared.
#![tactic(auto)]

use commands::WORK;
use commands::check::check;
use commands::name::make;
use commands::order::order;
use commands::page::page;
use records::Wanted;
use std::io;
use std::rt::Files;

// A form that is accepted, with a byte left over and with too little room, and a helper asked for; a file
// that is not there.
fn checks(rt: &(impl Files + Print)) -> io::Result<()> {
    check(rt, rt, Wanted::Form, b"identity", 64)?;
    check(rt, rt, Wanted::Helper, b"identity", 64)?;
    check(rt, rt, Wanted::Form, b"left-over", 64)?;
    check(rt, rt, Wanted::Assign, b"invoice", 64)?;
    check(rt, rt, Wanted::Form, b"identity", 63)?;
    check(rt, rt, Wanted::Form, b"missing", 64)
}

// Assigns that are ordered, in two rounds and in three with two bindings in some, and one whose bindings
// wait for each other.
fn orders(rt: &(impl Files + Print), work: &mut [u8; WORK]) -> io::Result<()> {
    order(rt, rt, b"total", 256, work)?;
    order(rt, rt, b"payout", 512, work)?;
    order(rt, rt, b"invoice", 256, work)
}

// The page of a form; a byte is left over; an assign is no form.
fn pages(rt: &(impl Files + Print), work: &mut [u8; WORK]) -> io::Result<()> {
    page(rt, rt, b"identity", 64, work)?;
    page(rt, rt, b"left-over", 64, work)?;
    page(rt, rt, b"total", 256, work)
}

// A name, and a counter that is too large.
fn names(rt: &impl Print) -> io::Result<()> {
    make(rt, rt, b"payment", 41)?;
    make(rt, rt, b"payment", 4294967296)
}

// Work memory is lent as an array, so that no proof has to count its bytes.
fn main(rt: HostRuntime) -> io::Result<()> {
    let mut work = [0u8; WORK];
    checks(&rt)?;
    orders(&rt, &mut work)?;
    pages(&rt, &mut work)?;
    names(&rt)
}
