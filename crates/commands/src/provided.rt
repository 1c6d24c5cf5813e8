// The names that bindings provide, as `ordering::provides` lists them: an entry is the places where a
// name starts and ends, and an entry 0 stands before those of each binding.
use crate::say;
use ordering::PLACES;
use ordering::provides::Provided;
use std::io;

// Prints the name of an entry after a space.
pub fn print_entry(to: &impl Print, s: &[u8], entry: usize) -> io::Result<()> {
    let start = entry / PLACES;
    let end = entry % PLACES;
    if start <= end && end <= s.len() {
        say::text(to, b" ")?;
        say::name(to, &s[start..end])?;
    }
    Ok(())
}

// Prints the names that a binding provides, each after a space.
pub fn print(to: &impl Print, given: &Provided, index: usize) -> io::Result<()> {
    let mut bindings = 0;
    let mut some = false;
    for entry in given.entries {
        if *entry == 0 {
            bindings += 1;
        } else if bindings > 0 && bindings - 1 == index {
            print_entry(to, given.bytes, *entry)?;
            some = true;
        }
    }
    if !some {
        say::text(to, b" no name")?;
    }
    Ok(())
}
