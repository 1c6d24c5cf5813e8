// The rounds of an order as columns, each three characters wide, behind a space.
use crate::say;
use std::io;

// Prints how many rounds there are, and then the number of each at the right of its column.
pub fn head(to: &impl Print, rounds: u64) -> io::Result<()> {
    say::text(to, b"ordered, first to last, in ")?;
    say::number(to, rounds)?;
    if rounds == 1 {
        say::text(to, b" round:\n ")?;
    } else {
        say::text(to, b" rounds:\n ")?;
    }
    for n in 1..=rounds {
        if n < 10 {
            say::text(to, b" ")?;
        }
        say::text(to, b" ")?;
        say::number(to, n)?;
    }
    say::text(to, b"\n")
}

// Prints the columns of a line, with a mark at the right of one of them.
pub fn mark(to: &impl Print, column: u64, rounds: u64) -> io::Result<()> {
    say::text(to, b" ")?;
    for n in 1..=rounds {
        if n == column {
            say::text(to, b"  *")?;
        } else {
            say::text(to, b"   ")?;
        }
    }
    Ok(())
}
