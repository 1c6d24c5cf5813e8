// The outline of a form: its records in the sequence of their marks, and what is made of it.
//
// `marks` knows a record by its mark and the fields that follow it, `index` lists the records of a
// record, `entries` writes and reads the list, and `page` has the call Page.
#![tactic(auto)]

pub mod entries;
pub mod index;
pub mod marks;
pub mod page;

use records::{BodyMark, HelperMark, SexpMark};

// The mark of each kind of record.
#[derive(Clone, Copy)]
pub enum Mark {
    Sexp(SexpMark),
    Body(BodyMark),
    Helper(HelperMark),
    Binding,
    Form,
}

// The fields behind a mark: bytes, records, or bytes that say which and how many records follow.
#[derive(Clone, Copy)]
pub enum Field {
    Byte,
    Loc,
    Keyword,
    Hint,
    Number,
    Name,
    Raw,
    Record,
    Pattern,
    Tail,
    Several,
}

// Where a record stands: the offset of its mark, how many records stand around it, and whether one of
// them is a BM.
#[derive(Clone, Copy)]
pub struct Around {
    pub offset: usize,
    pub depth: usize,
    pub inside: bool,
}

// What the index says of a record: where it stands, and its length.
#[derive(Clone, Copy)]
pub struct Entry {
    pub around: Around,
    pub len: usize,
}

// How many records are listed, and where the last of their bytes ends.
#[derive(Clone, Copy)]
pub struct Counted {
    pub count: usize,
    pub end: usize,
}

// The bytes of each number of an entry.
pub const PLACE_WIDTH: usize = 2;

// The bytes of an entry: offset, depth, length, and whether it stands in a BM.
pub const ENTRY_WIDTH: usize = 3 * PLACE_WIDTH + 1;

// The characters of a line.
pub const LINE_WIDTH: usize = 72;

// Where the first name field of a record stands that is its own: at a place, or in a pattern at a
// place.
#[derive(Clone, Copy)]
pub enum NamePlace {
    At(usize),
    Pattern(usize),
}
