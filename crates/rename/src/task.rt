// What a command asks of the record in FILE.
use crate::given::{ARGUMENT, argument};
use crate::renaming;
use crate::renaming::Call;
use commands::WORK;
use commands::order::order;
use commands::page::page;
use std::env::Env;
use std::io;
use std::rt::Files;

// An order, a page, or a renaming.
#[derive(Clone, Copy)]
pub enum Asked {
    Order,
    Page,
    Renaming(Call),
}

// Does with the record in FILE what is asked. Work memory is lent as an array, so that no proof has to
// count its bytes, and here alone, so that the stack holds it once.
pub fn run(
    rt: &(impl Env + Files + Print),
    err: &impl Print,
    asked: Asked,
    f: usize,
    counter: u64,
) -> io::Result<()> {
    let mut buf = [0u8; ARGUMENT];
    let path = argument(rt, 2, &mut buf);
    let mut work = [0u8; WORK];
    match asked {
        Asked::Order => order(rt, err, path, f, &mut work),
        Asked::Page => page(rt, err, path, f, &mut work),
        Asked::Renaming(call) => renaming::read(rt, err, call, path, f, counter, &mut work),
    }
}
