// The entries of an index, written and read.
ghost use Rattle.std.specs.Prelude.{◌+◌, ◌*◌, ◌≤◌, length};
ghost use Rattle.names.specs.Segments.{Filled};
ghost use Rattle.outline.specs.Index.{entry_width, entry_bytes};
ghost use Rattle.outline.specs.Shape.{EntryFits, EntryAt};

use crate::{Around, ENTRY_WIDTH, Entry, PLACE_WIDTH};
use names::bytes::{number, put_number};

// Writes an entry at the start of mem.
pub fn put_entry(mem: &mut [u8], e: Entry)
    requires { (entry_width ≤ length mem.old) × EntryFits e }
    ensures { Filled mem.old mem.new 0 (entry_bytes e) entry_width }
{
    let a = e.around;
    put_number(mem, 0, PLACE_WIDTH, a.offset);
    put_number(mem, PLACE_WIDTH, PLACE_WIDTH, a.depth);
    put_number(mem, 2 * PLACE_WIDTH, PLACE_WIDTH, e.len);
    mem[3 * PLACE_WIDTH] = u8::from(a.inside);
}

// The entry of so many before it.
pub fn entry_at(index: &[u8], k: usize) -> Entry
    requires { entry_width * k + entry_width ≤ length index.now }
    ensures { EntryAt index.now k result }
{
    let at = ENTRY_WIDTH * k;
    let inside = index[at + 3 * PLACE_WIDTH] != 0;
    Entry {
        around: Around {
            offset: number(index, at, PLACE_WIDTH),
            depth: number(index, at + PLACE_WIDTH, PLACE_WIDTH),
            inside,
        },
        len: number(index, at + 2 * PLACE_WIDTH, PLACE_WIDTH),
    }
}
