// Words and numbers, written to an output.
ghost use Rattle.std.specs.Prelude.{◌≡◌};

use outline::page::visible;
use std::fmt::Display;
use std::io;

// Writes bytes as they are.
pub fn text(to: &impl Print, words: &[u8]) -> io::Result<()> {
    to.write_all(words)
}

// Writes a number of any width in decimal.
pub fn number(to: &impl Print, n: impl Display + Drop) -> io::Result<()> {
    to.print(n)
}

// Writes a name: bytes that are no visible character as `.`, and an empty name as `(empty)`.
pub fn name(to: &impl Print, bytes: &[u8]) -> io::Result<()> {
    if bytes.is_empty() {
        text(to, b"(empty)")?;
    }
    for byte in bytes {
        text(to, &[visible(*byte)])?;
    }
    Ok(())
}

// The value that an argument gives; where it gives none, which argument is wrong is said. What cannot
// be written is dropped.
pub fn expected<T>(
    to: &impl Print,
    value: Option<T>,
    argument: &[u8],
    expected: &[u8],
    got: &[u8],
) -> Option<T>
    ensures { result ≡ value }
{
    if value.is_none() {
        let _ = wrong(to, argument, expected, got);
    }
    value
}

// Says which argument is wrong, what was expected, and what it is.
pub fn wrong(to: &impl Print, argument: &[u8], expected: &[u8], got: &[u8]) -> io::Result<()> {
    text(to, b"wrong ")?;
    text(to, argument)?;
    text(to, b": expected ")?;
    text(to, expected)?;
    text(to, b", got ")?;
    name(to, got)?;
    text(to, b"\n")
}
