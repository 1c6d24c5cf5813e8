// A counter or an F, read from its decimal digits.
ghost use Rattle.std.specs.Prelude.{◌≡◌};
ghost use Rattle.commands.specs.Counters.{counter_of};

use crate::say;

// The number that an argument gives; where it gives none, that is said.
pub fn argument(to: &impl Print, which: &[u8], digits: &[u8]) -> Option<u64>
    ensures { result ≡ counter_of digits.now }
{
    let expected = b"a number of at most 64 bits, in decimal digits";
    say::expected(to, parse(digits), which, expected, digits)
}

// The number that 1 to 20 digits stand for, where it fits.
pub fn parse(text: &[u8]) -> Option<u64>
    ensures { result ≡ counter_of text.now }
{
    if text.len() == 0 {
        return None;
    }
    if text.len() > 20 {
        return None;
    }
    let mut n: u64 = 0;
    for byte in text {
        let d = *byte;
        if d < b'0' {
            return None;
        }
        if d > b'9' {
            return None;
        }
        let digit = u64::from(d - b'0');
        if n > (u64::MAX - digit) / 10 {
            return None;
        }
        n = 10 * n + digit;
    }
    Some(n)
}
