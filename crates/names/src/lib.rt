// Names: comparing, making and looking them up, and the call Name.
//
// `bytes` has what works on plain bytes, `make` the names that `gensym` makes, `map` what a map
// makes of a name, `refusals` places and refusals, and `call` what a call answers and the call Name.
#![tactic(auto)]

pub mod bytes;
pub mod call;
pub mod make;
pub mod map;
pub mod refusals;

// The bytes of the length that stands before a name.
pub const NAME_WIDTH: usize = 1;

// The most bytes that a name may have.
pub const NAME_LIMIT: usize = 255;

// The largest counter that a call takes.
pub const MAX_COUNTER: u64 = 4294967295;

// What comparing two names answers: whether they are equal, and how many byte pairs were read. No
// Option: pairs are read of equal names and of others.
#[derive(Clone, Copy)]
pub struct Compared {
    pub equal: bool,
    pub pairs: usize,
}

// A place: the offset of a byte in the input, or a location.
#[derive(Clone, Copy, PartialEq, Eq)]
pub struct Place {
    pub start: u64,
}

// Why an input is refused: F, the length of work memory or the counter is out of its range; the input
// is not exactly one record of the kind asked for; a limit is passed; a BM stands in a binding body of
// an assign; an assign's bindings have no order; a made name, or a record, would be too long; the
// result buffer is too short for a result, or for a page.
#[derive(Clone, Copy, PartialEq, Eq)]
pub enum Reason {
    OutOfRange,
    NotOneRecord,
    PastLimit,
    ModInBinding,
    Deadlock,
    LongName,
    LongRecord,
    ShortBuffer,
    ShortPage,
}

// A refusal: its reason and its place.
#[derive(Clone, Copy, PartialEq, Eq)]
pub struct Refusal {
    pub reason: Reason,
    pub place: Place,
}

// What a call answers: its refusal, if any, the counter to go on from, the rounds of an order, and how
// many bytes it wrote at the front of the result buffer. No Result: an order that is refused writes too.
#[derive(Clone, Copy, PartialEq, Eq)]
pub struct Answer {
    pub refusal: Option<Refusal>,
    pub counter: u64,
    pub rounds: u64,
    pub len: usize,
}
