// The index of a record: an entry for each record in it, itself first, in the sequence of the marks.
// A child is handed on as the bytes from its mark on, with the work memory from its entry on.
ghost use Rattle.std.specs.Prelude.{◌≡◌, ◌≤◌};
ghost use Rattle.records.specs.Limits.{most_longest};
ghost use Rattle.outline.specs.Index.{nothing_around, under};
ghost use Rattle.outline.specs.Shape.{counted_to, IndexRoom, Indexes, Begun};

use crate::entries::put_entry;
use crate::marks::{fields_of, first_mark};
use crate::{Around, Counted, ENTRY_WIDTH, Entry, Field, Mark};
use records::past::{
    byte_at, integer_view, past_bytes, past_hint, past_keyword, past_name, past_raw,
};
use records::{BodyMark, LOC_WIDTH, MARK_WIDTH};

// A record that is being listed: so many records up to a place in its bytes, whose entries stand at
// the start of work memory, and what is around its fields.
#[derive(Drop)]
struct Listing<'a> {
    bytes: &'a [u8],
    mem: &'a mut [u8],
    around: Around,
    count: usize,
    end: usize,
    ghost begun: { Begun bytes.now mem.now around (counted_to count end) },
}

// The entries of the record that s starts with; none where it starts with no mark.
#[cycle(indexing)]
pub fn index(s: &[u8], mem: &mut [u8], around: Around) -> Counted
    requires { IndexRoom s.now mem.old around }
    ensures { Indexes s.now mem.old mem.new around result }
{
    let Some(mark) = first_mark(s) else {
        return Counted {
            count: 0,
            end: s.len(),
        };
    };
    let mut listing = Listing {
        bytes: s,
        mem,
        around: under(mark, around),
        count: 1,
        end: MARK_WIDTH,
    };
    listing.fields(fields_of(mark));
    let r = Counted {
        count: listing.count,
        end: listing.end,
    };
    put_entry(mem, Entry { around, len: r.end });
    r
}

// The entries of a record that is a whole input: nothing stands around it.
pub fn index_input(s: &[u8], mem: &mut [u8]) -> Counted
    requires { IndexRoom s.now mem.old nothing_around }
    ensures { Indexes s.now mem.old mem.new nothing_around result }
{
    let nothing = Around {
        offset: 0,
        depth: 0,
        inside: false,
    };
    index(s, mem, nothing)
}

// Where the fields of a record stand: it is one more around them, and it may be a BM. The offset is
// that of its mark.
#[tactic(auto, unfolding(crate::specs::Index::is_mod))]
fn under(mark: Mark, a: Around) -> Around
    requires { a.depth ≤ most_longest }
    ensures { result ≡ under mark a }
{
    let inside = matches!(mark, Mark::Body(BodyMark::Mod)) || a.inside;
    Around {
        depth: a.depth + 1,
        inside,
        ..a
    }
}

impl Listing<'_> {
    ghost use Rattle.outline.specs.declared.Field.TheVariants as fields;
    ghost use Rattle.outline.specs.Shape.{FieldIs, FieldsAre};
    ghost use Rattle.outline.specs.Listing.{Lists, NextByte};

    // The fields behind a mark.
    #[cycle(indexing)]
    fn fields(&mut self, row: &[Field])
        ensures { Lists (FieldsAre row.now) self.old self.new }
    {
        for f in row {
            self.field(*f);
        }
    }

    // A field.
    #[cycle(indexing)]
    fn field(&mut self, f: Field)
        ensures { Lists (FieldIs f) self.old self.new }
    {
        let s = self.bytes;
        let at = self.end;
        match f {
            Field::Byte => self.end = past_bytes(s, at, 1),
            Field::Loc => self.end = past_bytes(s, at, LOC_WIDTH),
            Field::Keyword => self.end = past_keyword(s, at),
            Field::Hint => self.end = past_hint(s, at),
            Field::Number => self.end = integer_view(s, at).end,
            Field::Name => self.end = past_name(s, at),
            Field::Raw => self.end = past_raw(s, at),
            Field::Record => self.child(),
            Field::Pattern => self.pattern(),
            Field::Tail => self.tail(),
            Field::Several => self.several(),
        }
    }

    // A child record.
    #[cycle(indexing)]
    fn child(&mut self)
        ensures { Lists (FieldIs fields.Record) self.old self.new }
    {
        let at = self.end;
        let from = ENTRY_WIDTH * self.count;
        let around = Around {
            offset: self.around.offset + at,
            ..self.around
        };
        let r = index(&self.bytes[at..], &mut self.mem[from..], around);
        self.count += r.count;
        self.end += r.end;
    }

    // The byte that says what follows, which is then behind.
    fn next_byte(&mut self) -> u8
        ensures { NextByte self.old self.new result }
    {
        let at = self.end;
        self.end = past_bytes(self.bytes, at, 1);
        byte_at(self.bytes, at)
    }

    // A Name or a Complex pattern.
    #[cycle(indexing)]
    fn pattern(&mut self)
        ensures { Lists (FieldIs fields.Pattern) self.old self.new }
    {
        if self.next_byte() == 0 {
            self.end = past_name(self.bytes, self.end);
        } else {
            self.child();
        }
    }

    // The tail of a call.
    #[cycle(indexing)]
    fn tail(&mut self)
        ensures { Lists (FieldIs fields.Tail) self.old self.new }
    {
        if self.next_byte() != 0 {
            self.child();
        }
    }

    // A count, and that many records.
    #[cycle(indexing)]
    fn several(&mut self)
        ensures { Lists (FieldIs fields.Several) self.old self.new }
    {
        let n = self.next_byte();
        for _ in 0..n {
            self.child();
        }
    }
}
