// The order of an assign's bindings, by what each needs and provides, and the call Order.
//
// `listed` has lists that grow, `provides` says which bindings provide a name, `needs` what a body
// needs, `sort` has the exact order over needs, `assign` the order of an assign's bindings, and `call`
// the call Order.
#![tactic(auto)]

use records::COUNT_LIMIT;

pub mod assign;
pub mod call;
pub mod listed;
pub mod needs;
pub mod provides;
pub mod sort;

// The most bindings of an assign. A cast, since a constant calls no From.
pub const BINDING_LIMIT: usize = COUNT_LIMIT as usize;

// More than every place in a record.
pub const PLACES: usize = 65536;

// The most names that the patterns, and that the bodies, of one record can hold: each takes four
// bytes or more.
pub const NEED_LIMIT: usize = 4096;

// How many indices of a row are placed, and in how many rounds.
#[derive(Clone, Copy)]
pub struct Sorted {
    pub placed: usize,
    pub rounds: usize,
}

// The order of `count` bindings. With all of them placed the row is the order; at a deadlock what
// stands in it from `placed` on is stuck. `rounds` is the number of nonempty rounds either way.
#[derive(Clone, Copy)]
pub struct Order {
    pub row: [u8; BINDING_LIMIT],
    pub count: usize,
    pub placed: usize,
    pub rounds: usize,
}
