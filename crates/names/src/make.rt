// Made names: a name, `_$_` and a number in decimal.
ghost use Rattle.std.specs.Prelude.{◌≡◌, ◌+◌, ◌^◌, ◌≤◌, ◌<◌, length};
ghost use Rattle.names.specs.CallAnswer.{written};
ghost use Rattle.names.specs.Names.{decimal, gensym};
ghost use Rattle.names.specs.Segments.{Filled};

use crate::bytes::put;

// How many digits a number has in decimal.
pub fn digit_count(n: u64) -> usize
    ensures { result ≡ length (decimal n) }
{
    let mut left = n;
    let mut count = 1;
    // No range: a turn divides what is left, and no index is counted.
    while left >= 10 {
        left /= 10;
        count += 1;
    }
    count
}

// Writes a number in decimal at a place, the last digit first.
fn put_decimal(out: &mut [u8], at: usize, n: u64)
    requires { at + length (decimal n) ≤ length out.old }
    ensures { Filled out.old out.new at (decimal n) (length (decimal n)) }
{
    let mut left = n;
    for i in (at..at + digit_count(n)).rev() {
        // A cast: what is narrowed fits, and TryFrom would answer an error that cannot come.
        out[i] = b'0' + (left % 10) as u8;
        left /= 10;
    }
}

// The length of the name that `gensym` makes.
pub fn gensym_len(name: &[u8], counter: u64) -> usize
    requires { counter + 1 < 2 ^ 64 }
    ensures { result ≡ length (gensym name.now counter) }
{
    name.len() + b"_$_".len() + digit_count(counter + 1)
}

// Makes a name at the front of out, and answers its length.
pub fn gensym(out: &mut [u8], name: &[u8], counter: u64) -> usize
    requires counter_bound { counter + 1 < 2 ^ 64 }
    requires counter_in_bounds { length (gensym name.now counter) ≤ length out.old }
    ensures value { result ≡ length (gensym name.now counter) }
    ensures out_after { out.new ≡ written (gensym name.now counter) out.old }
{
    let mark = name.len();
    let digits = mark + b"_$_".len();
    put(out, 0, name);
    put(out, mark, b"_$_");
    put_decimal(out, digits, counter + 1);
    gensym_len(name, counter)
}
