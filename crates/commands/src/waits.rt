// The names that a stuck binding waits for.
ghost use Rattle.std.specs.Prelude.{◌<◌, length};
ghost use Rattle.commands.specs.Waiting.{TellsWord, TellsMissing};

use crate::provided::print_entry;
use ordering::listed::Listed;
use ordering::needs::body_needs;
use ordering::provides::Provided;
use ordering::{NEED_LIMIT, PLACES};
use std::io;

// Whether the name of an entry is among the words of the body at a place: whether the body needs
// something of a lone binding of that name.
fn has_word(s: &[u8], body: usize, entry: usize) -> bool
    ensures { TellsWord s.now body entry result }
{
    let start = entry / PLACES;
    let end = entry % PLACES;
    if start > end || end > s.len() || body > s.len() {
        return false;
    }
    let lone = Provided {
        bytes: s,
        entries: &[0, entry],
    };
    let mut room = [0u64; NEED_LIMIT];
    let mut needs = Listed::new(&mut room);
    body_needs(&lone, &s[body..], &mut needs);
    needs.count > 0
}

// Whether an entry is the first of its name, and every binding that provides the name is stuck.
fn missing(given: &Provided, k: usize, stuck: u64) -> bool
    requires { k < length given.now.entries.now }
    ensures { TellsMissing given.now k stuck result }
{
    let start = given.entries[k] / PLACES;
    let end = given.entries[k] % PLACES;
    let name = &given.bytes[start..end];
    let bits = given.providers(name);
    let before = Provided {
        bytes: given.bytes,
        entries: &given.entries[..k],
    };
    bits & stuck == bits && before.providers(name) == 0
}

// Prints the names that the body at a place needs and that only stuck bindings provide.
pub fn print(to: &impl Print, given: &Provided, body: usize, stuck: u64) -> io::Result<()> {
    for (k, entry) in given.entries.iter().enumerate() {
        if *entry != 0 && missing(given, k, stuck) && has_word(given.bytes, body, *entry) {
            print_entry(to, given.bytes, *entry)?;
        }
    }
    Ok(())
}
