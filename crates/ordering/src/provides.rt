// Which bindings provide a name (`make_provides_set`). The names that the patterns of an assign
// provide are listed once. An entry is 65536 times the place where a name starts, and the place where
// it ends; an entry 0 stands before those of each binding.
ghost use Rattle.std.specs.Prelude.{List, ◌≡◌, ◌+◌, ◌*◌, ◌≤◌, ◌<◌, length};
ghost use Rattle.records.specs.Records.{Binding};
ghost use Rattle.records.specs.Parts.{fields_part, pattern_part};
ghost use Rattle.ordering.specs.Listed.{AddsOne};
ghost use Rattle.ordering.specs.Provisions.{places, Provisions, Given, ListsNames};
ghost use Rattle.ordering.specs.Needs.{providers};
ghost use Rattle.ordering.specs.Words.{make_provides_set, pattern_provides, items};

use crate::PLACES;
use crate::listed::Listed;
use names::bytes::same;
use records::SexpView;
use records::past::name_view;
use records::sexps::sexp_view;

// The entries of the names that the bindings of an assign provide, and the bytes that they stand in.
#[derive(Clone, Copy, Drop)]
pub struct Provided<'a> {
    pub bytes: &'a [u8],
    pub entries: &'a [usize],
    pub ghost given: { Given bytes.now entries.now },
}

impl Provided<'_> {
    // The bindings that provide a name, as bits, the first binding's the lowest.
    pub fn providers(&self, name: &[u8]) -> u64
        ensures { (bs : List Binding) → Provisions self.now.bytes.now self.now.entries.now bs → result ≡ providers (items bs) name.now }
    {
        let mut bits = 0;
        let mut found = 0;
        for k in (0..self.entries.len()).rev() {
            let e = self.entries[k];
            let start = e / PLACES;
            let end = e % PLACES;
            if e == 0 {
                bits = 2 * bits + found;
                found = 0;
            } else if same(name, &self.bytes[start..end]) {
                found = 1;
            }
        }
        bits
    }
}

// Lists one name, by the places where it starts and ends, if there is room.
fn entry(entries: &mut Listed<usize>, start: usize, end: usize)
    requires { (start ≤ end) × (end < places) }
    ensures { AddsOne entries.old entries.new (places * start + end) }
{
    entries.push(PLACES * start + end);
}

// Lists what the S record at a place in the assign provides, and answers where the record ends.
fn sexp_names(a: &[u8], at: usize, entries: &mut Listed<usize>) -> usize
    requires { (0 < at) × (at ≤ length a.now) × (length a.now < places) }
    ensures { ListsNames fields_part make_provides_set a.now at entries.old entries.new result }
{
    match sexp_view(&a[at..]) {
        SexpView::Nil(end) => at + end,
        SexpView::Pair(head) => {
            let tail = sexp_names(a, at + head, entries);
            sexp_names(a, tail, entries)
        }
        SexpView::Integer(b) | SexpView::Text(b) | SexpView::Atom(b) => {
            let start = at + b.start;
            let end = at + b.end;
            entry(entries, start, end);
            end
        }
        SexpView::Unknown => a.len(),
    }
}

// Lists what the pattern at a place in the assign provides: 0 and a name, or 1 and an S record. Answers
// where the pattern ends.
pub fn pattern_names(a: &[u8], at: usize, entries: &mut Listed<usize>) -> usize
    requires { (at ≤ length a.now) × (length a.now < places) }
    ensures { ListsNames pattern_part pattern_provides a.now at entries.old entries.new result }
{
    if at >= a.len() {
        return at;
    }
    let next = at + 1;
    if a[at] == 0 {
        let v = name_view(&a[next..], 0);
        let start = next + v.start;
        let end = next + v.end;
        entry(entries, start, end);
        return end;
    }
    sexp_names(a, next, entries)
}
