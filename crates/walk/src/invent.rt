// New names for patterns and args. The map stands at the end of memory, as its last `len` bytes; a
// new entry is written right before it.
ghost use Rattle.walk.specs.Arena.{Writes};
ghost use Rattle.walk.specs.DrawnMaps.{between, entry, EntryRoom, NameRoom, Drawable, Grown, Pushes, InventsAtom, InventsSexp};

use crate::Growth;
use names::bytes::{copy, put_name, put_number, same};
use names::make::{gensym, gensym_len};
use names::refusals::placeless;
use names::{NAME_LIMIT, NAME_WIDTH, Reason, Refusal};
use records::sexps::sexp_view;
use records::skip::skip_sexp;
use records::{NameView, SexpView};

// Writes an entry of a map at a place: a name, which stands before it, and a new one.
fn put_entry(mem: &mut [u8], at: usize, old: NameView, new: &[u8])
    requires { EntryRoom mem.old at old.start old.end new.now }
    ensures { Writes mem.old mem.new at (entry (between mem.old old.start old.end) new.now) }
{
    let n = old.end - old.start;
    let name = at + NAME_WIDTH;
    put_number(mem, at, NAME_WIDTH, n);
    copy(mem, old.start, name, n);
    put_name(mem, name + n, new);
}

// Draws a number for a name, and writes the entry before the map; 6 where the made name is too long.
pub fn push(mem: &mut [u8], old: NameView, len: usize, counter: u64) -> Result<Growth, Refusal>
    requires { NameRoom mem.old old.start old.end len counter }
    ensures grown { Grown mem.old mem.new len 0 result }
    ensures pushes { Pushes mem.old mem.new old.start old.end len counter result }
{
    let NameView { start, end } = old;
    let n = end - start;
    if gensym_len(&mem[start..end], counter) > NAME_LIMIT {
        return Err(placeless(Reason::LongName));
    }
    let mut new = [0; NAME_LIMIT];
    let made = gensym(&mut new, &mem[start..end], counter);
    let len = NAME_WIDTH + n + NAME_WIDTH + made + len;
    put_entry(mem, mem.len() - len, old, &new[..made]);
    let counter = counter + 1;
    Ok(Growth { len, counter, end })
}

// Draws a number for the atom of a name; none for `@`.
fn atom(mem: &mut [u8], name: NameView, len: usize, counter: u64) -> Result<Growth, Refusal>
    requires { NameRoom mem.old name.start name.end len counter }
    ensures grown { Grown mem.old mem.new len 0 result }
    ensures invents_atom { InventsAtom mem.old mem.new name.start name.end len counter result }
{
    if same(&mem[name.start..name.end], b"@") {
        let end = name.end;
        return Ok(Growth { len, counter, end });
    }
    push(mem, name, len, counter)
}

// Draws a number for each atom but `@` of the S record that mem starts with, head before tail; the
// record is at most `depth` SC deep.
pub fn invent_new_names_sexp(
    mem: &mut [u8],
    len: usize,
    counter: u64,
    depth: usize,
) -> Result<Growth, Refusal>
    requires { Drawable mem.old len counter depth }
    ensures { InventsSexp mem.old mem.new 0 len counter result }
{
    let v = sexp_view(mem);
    match v {
        SexpView::Pair(head) => {
            let g = invent_new_names_sexp(&mut mem[head..], len, counter, depth - 1)?;
            let next = head + g.end;
            let u = invent_new_names_sexp(&mut mem[next..], g.len, g.counter, depth - 1)?;
            Ok(Growth {
                end: next + u.end,
                ..u
            })
        }
        SexpView::Atom(name) => atom(mem, name, len, counter),
        _ => Ok(Growth {
            len,
            counter,
            end: skip_sexp(mem),
        }),
    }
}
