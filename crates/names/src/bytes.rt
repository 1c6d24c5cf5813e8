// Bytes compared, written, read and moved at a place.
ghost use Rattle.std.specs.Prelude.{◌≡◌, ◌+◌, ◌^◌, ◌≤◌, ◌<◌, length, take, drop};
ghost use Rattle.names.specs.Compare.{comparison};
ghost use Rattle.names.specs.Names.{same, number_field, number_of, name_limit, name_field};
ghost use Rattle.names.specs.Segments.{Filled, Movable};

use crate::{Compared, NAME_WIDTH};

// Compares two names: their lengths, and then their bytes from the last to the first.
pub fn compare(a: &[u8], b: &[u8]) -> Compared
    ensures { result ≡ comparison a.now b.now }
{
    let len = a.len();
    if len != b.len() {
        return Compared {
            equal: false,
            pairs: 0,
        };
    }
    for ending in 0..len {
        let i = len - 1 - ending;
        if a[i] != b[i] {
            return Compared {
                equal: false,
                pairs: ending + 1,
            };
        }
    }
    Compared {
        equal: true,
        pairs: len,
    }
}

// Whether two names are equal.
pub fn same(a: &[u8], b: &[u8]) -> bool
    ensures { result ≡ same a.now b.now }
{
    let c = compare(a, b);
    c.equal
}

// Whether a word stands in s at a place. Where too few bytes are left only the empty word does.
pub fn is_word(s: &[u8], at: usize, word: &[u8]) -> bool
    ensures { result ≡ same (take (length word.now) (drop at s.now)) word.now }
{
    let n = word.len();
    if s.len() < n {
        return false;
    }
    if s.len() - n < at {
        return n == 0;
    }
    same(&s[at..at + n], word)
}

// Writes src into out at a place. No `copy_from_slice`: with it the library for C asks for `memmove` too.
pub fn put(out: &mut [u8], at: usize, src: &[u8])
    requires { at + length src.now ≤ length out.old }
    ensures { Filled out.old out.new at src.now (length src.now) }
{
    for i in 0..src.len() {
        out[at + i] = src[i];
    }
}

// The number that `width` bytes at a place stand for.
pub fn number(s: &[u8], at: usize, width: usize) -> usize
    requires { (width ≤ 8) × (at + width ≤ length s.now) }
    ensures value { result ≡ number_of (take width (drop at s.now)) }
    ensures upper_bound { result < 256 ^ width }
{
    let mut n = 0;
    for byte in &s[at..at + width] {
        n = 256 * n + usize::from(*byte);
    }
    n
}

// Copies n bytes to another place.
pub fn copy(mem: &mut [u8], from: usize, to: usize, n: usize)
    requires { Movable mem.old from to n }
    ensures { Filled mem.old mem.new to (drop from mem.old) n }
{
    mem.copy_within(from..from + n, to);
}

// Writes a number in `width` bytes at a place, the last byte first.
pub fn put_number(mem: &mut [u8], at: usize, width: usize, n: usize)
    requires { (at + width ≤ length mem.old) × (n < 256 ^ width) }
    ensures { Filled mem.old mem.new at (number_field width n) width }
{
    let mut left = n;
    for i in (at..at + width).rev() {
        // A cast: what is narrowed fits, and TryFrom would answer an error that cannot come.
        mem[i] = (left % 256) as u8;
        left /= 256;
    }
}

// Writes a name as a field at a place.
pub fn put_name(mem: &mut [u8], at: usize, name: &[u8])
    requires { (length name.now ≤ name_limit) × (at + length (name_field name.now) ≤ length mem.old) }
    ensures { Filled mem.old mem.new at (name_field name.now) (length (name_field name.now)) }
{
    put_number(mem, at, NAME_WIDTH, name.len());
    put(mem, at + NAME_WIDTH, name);
}
