// The walk of the rename pass.
//
// `invent` draws new names, and keeps them as a map at the end of memory. `substitute` has the names
// of an S record by a map, `plans` how each S record is taken by it, `keep` records kept as they are.
// `scopes` has args and patterns by new names, `places` where parts of a record go. `leaves` takes the
// B records that go no level down, `desugar` a sequential let, and `bodies` has Own and In-body of
// every B record. `forms` has the rules on H records and CF, and `call` the three calls.
#![tactic(auto)]

pub mod bodies;
pub mod call;
pub mod desugar;
pub mod forms;
pub mod invent;
pub mod keep;
pub mod leaves;
pub mod places;
pub mod plans;
pub mod scopes;
pub mod substitute;

// What a step is given beside the record at the start of memory: where its result goes, how many
// bytes the map at the end of memory has, how long the result may be, how deep the record may nest
// (the SC of an S record, the levels of a B record), and the counter. Memory stands beside it and not
// in it, since each step lends a part of memory from the next record's mark on.
#[derive(Clone, Copy)]
pub struct Task {
    pub free: usize,
    pub map: usize,
    pub f: usize,
    pub depth: usize,
    pub counter: u64,
}

// How far names are drawn: how many bytes the map has, the counter, and where the next record
// stands.
#[derive(Clone, Copy, PartialEq, Eq)]
pub struct Growth {
    pub len: usize,
    pub counter: u64,
    pub end: usize,
}

// What a piece of a rule read and wrote, the sum of the results that the rule then holds, and the
// counter.
#[derive(Clone, Copy)]
pub struct Piece {
    pub read: usize,
    pub written: usize,
    pub sum: usize,
    pub counter: u64,
}

// Args or a pattern by names drawn for them: how many bytes were read and written, how many the map
// has then, and the counter.
#[derive(Clone, Copy)]
pub struct Drawn {
    pub read: usize,
    pub written: usize,
    pub map: usize,
    pub counter: u64,
}

// Bindings or patterns made: how many bytes were written, and the sum, the bytes of the map and the
// counter then.
#[derive(Clone, Copy)]
pub struct Made {
    pub written: usize,
    pub sum: usize,
    pub map: usize,
    pub counter: u64,
}

// Where a `qq` matters to the names of an S record: nowhere (`rename_in_cons` without qq); outside one
// (`rename_in_cons` with qq); inside one (`rename_in_qq`).
#[derive(Clone, Copy)]
pub enum Quasi {
    Ignored,
    Outside,
    Inside,
}

// How an S record is substituted.
#[derive(Clone, Copy)]
pub enum Plan {
    // It is kept, and has so many bytes.
    Kept(usize),
    // An atom goes by the map.
    ByMap,
    // A `(quote v)` is rebuilt: where v starts, and where the record ends.
    Requoted(usize, usize),
    // The element that starts there goes on alone by this rule; and where the record ends.
    Alone(Quasi, usize, usize),
    // Both parts go on.
    Parts,
}

// A record that a rule hands on to another use of a rule.
#[derive(Clone, Copy)]
pub enum Child {
    Bodyform,
    Helperform,
    Compileform,
}

// What an H record or a CF ends with: a B record; a CF; a count and so many H records; or these and a
// B record.
#[derive(Clone, Copy)]
pub enum Rest {
    OneBody,
    OneForm,
    Listed,
    Parts,
}

// By which rules, and beside which results: the args-rules; the in-rules; or the in-rules on results
// of the args-rules, which leave the sum when their replacements are added.
#[derive(Clone, Copy)]
pub enum Way {
    Own,
    In,
    Further,
}

// Which call is made: what it reads, and by which rule.
#[derive(Clone, Copy)]
pub enum Request {
    WholeForm,
    ChildrenOnly,
    SingleHelper,
}
