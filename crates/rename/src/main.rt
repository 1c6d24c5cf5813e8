// The calls of the rename pass from the command line: the first argument says which. Results go to
// standard output, all else to standard error.
#![tactic(auto)]

mod arguments;
mod given;
mod renaming;
mod task;
mod usage;

use given::{ARGUMENT, argument};
use names::bytes::same;
use renaming::Call;
use std::io;
use task::Asked;

// What the first argument asks for.
#[derive(Clone, Copy)]
enum Command {
    Name,
    Check,
    OfFile(Asked),
    Renaming(Call),
}

// The command of a word.
fn asked_by(word: &[u8]) -> Option<Command> {
    if same(word, b"name") {
        return Some(Command::Name);
    }
    if same(word, b"check") {
        return Some(Command::Check);
    }
    if same(word, b"order") {
        return Some(Command::OfFile(Asked::Order));
    }
    if same(word, b"page") {
        return Some(Command::OfFile(Asked::Page));
    }
    if same(word, b"whole") {
        return Some(Command::Renaming(Call::Whole));
    }
    if same(word, b"children") {
        return Some(Command::Renaming(Call::Children));
    }
    if same(word, b"helper") {
        return Some(Command::Renaming(Call::Helper));
    }
    None
}

// Says which commands there are.
fn unknown(err: &impl Print, word: &[u8]) -> io::Result<()> {
    if !word.is_empty() {
        commands::say::wrong(err, b"command", b"one of those below", word)?;
    }
    usage::print(err)
}

// Runs the command that the first argument names.
fn main(rt: HostRuntime) -> io::Result<()> {
    let err = rt.stderr();
    let mut buf = [0u8; ARGUMENT];
    let word = argument(&rt, 1, &mut buf);
    match asked_by(word) {
        Some(Command::Name) => arguments::name(&rt, &err),
        Some(Command::Check) => arguments::check(&rt, &err),
        Some(Command::OfFile(asked)) => arguments::of_file(&rt, &err, asked),
        Some(Command::Renaming(call)) => arguments::renaming(&rt, &err, call),
        None => unknown(&err, word),
    }
}
