// The form records: reading them, and what other crates need of their bytes.
//
// `input` reads what a call is given, `record`, `sexp` and `fields` read one record. Of a record that
// was read, `skip` and `past` say how long it and its fields are, and `bodies`, `helpers` and `sexps`
// where its fields and children start. `start` has where a reading starts.
#![tactic(auto)]

ghost use Rattle.std.specs.Prelude.{◌≤◌, length};

pub mod bodies;
pub mod fields;
pub mod helpers;
pub mod input;
pub mod past;
pub mod record;
pub mod sexp;
pub mod sexps;
pub mod skip;
pub mod start;

// The bytes of a mark.
pub const MARK_WIDTH: usize = 2;

// The bytes of a location.
pub const LOC_WIDTH: usize = 4;

// The bytes of a mark and a location, with which a record starts.
pub const HEAD_WIDTH: usize = MARK_WIDTH + LOC_WIDTH;

// The bytes of the length of a field that is only copied.
pub const RAW_WIDTH: usize = 2;

// The bytes of the count that stands before a number.
pub const INTEGER_WIDTH: usize = 1;

// How deep B, H and CF records nest.
pub const LEVEL_LIMIT: usize = 32;

// How deep SC nest.
pub const CONS_LIMIT: usize = 64;

// How deep BF nest.
pub const LAMBDA_LIMIT: usize = 6;

// The largest count.
pub const COUNT_LIMIT: u8 = 64;

// The least F, the longest record, that a caller may choose.
pub const LEAST_LONGEST: usize = 64;

// The largest F.
pub const MOST_LONGEST: usize = 16384;

// How many times F work memory holds.
pub const WORK_FACTOR: usize = 256;

// The marks of the S records.
#[derive(Clone, Copy)]
pub enum SexpMark {
    Nil,
    Pair,
    Integer,
    Text,
    Atom,
}

// The marks of the B records.
#[derive(Clone, Copy)]
pub enum BodyMark {
    Let,
    Quoted,
    Value,
    Call,
    Mod,
    Lambda,
}

// The marks of the H records.
#[derive(Clone, Copy)]
pub enum HelperMark {
    Constant,
    Macro,
    Function,
    Namespace,
    Reference,
}

// The kinds of a let: let, let* and assign.
#[derive(Clone, Copy, PartialEq, Eq)]
pub enum Kind {
    Parallel,
    Sequential,
    Assign,
}

// Where a record stands: in no assign's binding body; in one, and in no BM; in a BM.
#[derive(Clone, Copy)]
pub enum Zone {
    Plain,
    InBinding,
    InMod,
}

// What a record stands in: the offset of its mark, how many levels of B, H and CF records and of
// BF records may follow, and its zone.
#[derive(Clone, Copy)]
pub struct Context {
    pub mark: usize,
    pub room: usize,
    pub lambdas: usize,
    pub zone: Zone,
}

// The kinds of record that stand in a record.
#[derive(Clone, Copy)]
pub enum Family {
    Body,
    Binding,
    Helper,
    Form,
}

// A reading of the bytes s of a record: the offset of the next byte, from the record's mark, and the
// offset of the first BM met in a binding body of an assign. That the mark's place and the bytes add up to
// a number of the machine is asked by clauses where children are read: a type that says so would ask it of
// plain fields too.
#[derive(Clone, Copy)]
pub struct Scan<'a> {
    pub s: &'a [u8],
    pub at: usize,
    pub first: Option<usize>,
    pub ghost in_bounds: { at ≤ length s.now },
}

// The record that a call wants: a CF, an H record, or one BL of kind 2.
#[derive(Clone, Copy)]
pub enum Wanted {
    Form,
    Helper,
    Assign,
}

// What a step read and wrote, and the counter that it left.
#[derive(Clone, Copy, PartialEq, Eq)]
pub struct Step {
    pub read: usize,
    pub written: usize,
    pub counter: u64,
}

// The bytes of a name: where they start and end.
#[derive(Clone, Copy)]
pub struct NameView {
    pub start: usize,
    pub end: usize,
}

// A byte that says what follows, and where that starts. The byte as it stands: a pattern and a tail mean
// different things by it.
#[derive(Clone, Copy)]
pub struct TaggedView {
    pub tag: u8,
    pub next: usize,
}

// A BL: its kind, where L, K and the hint start, the number of its bindings, and where the
// first of them starts.
#[derive(Clone, Copy)]
pub struct LetView {
    pub kind: Kind,
    pub loc: usize,
    pub keyword: usize,
    pub hint: usize,
    pub count: u8,
    pub first: usize,
}

// A BC: the number of its elements, and where the first of them starts.
#[derive(Clone, Copy)]
pub struct CallView {
    pub count: u8,
    pub first: usize,
}

// A BF: where K, the capture args, the captures, the args and the body start.
#[derive(Clone, Copy)]
pub struct LambdaView {
    pub keyword: usize,
    pub capture_args: usize,
    pub captures: usize,
    pub args: usize,
    pub body: usize,
}

// A CF: where R and the args start, the number of its helpers, and where the first of them starts.
#[derive(Clone, Copy)]
pub struct FormView {
    pub raw: usize,
    pub args: usize,
    pub count: u8,
    pub first: usize,
}

// Where a name and the R behind it start, and what stands after them.
#[derive(Clone, Copy)]
pub struct NamedView {
    pub name: usize,
    pub raw: usize,
    pub next: usize,
}

// Where a name, the R and the args behind it start, and what stands after them.
#[derive(Clone, Copy)]
pub struct ArgsView {
    pub name: usize,
    pub raw: usize,
    pub args: usize,
    pub next: usize,
}

// An HN: where its name and R start, the number of its helpers, and where the first of them starts.
#[derive(Clone, Copy)]
pub struct NamespaceView {
    pub name: usize,
    pub raw: usize,
    pub count: u8,
    pub first: usize,
}

// An S record: where an SN ends; where the head of an SC starts; where the number of an SI, the text
// of an SQ or the name of an SA starts and ends, which is where the record ends; or none of them.
#[derive(Clone, Copy)]
pub enum SexpView {
    Nil(usize),
    Pair(usize),
    Integer(NameView),
    Text(NameView),
    Atom(NameView),
    // No plainer as None: most callers take it with the kinds that they do not look for.
    Unknown,
}
