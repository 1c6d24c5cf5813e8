// How the program is used.
use commands::say;
use std::io;

// One line for each command.
pub fn print(err: &impl Print) -> io::Result<()> {
    say::text(err, b"usage: rename name NAME COUNTER\n")?;
    say::text(err, b"       rename check form|helper|assign FILE F\n")?;
    say::text(err, b"       rename order FILE F\n")?;
    say::text(err, b"       rename page FILE F\n")?;
    say::text(
        err,
        b"       rename whole|children|helper FILE F COUNTER OUT\n",
    )
}
