// Where a reading starts.
ghost use Rattle.std.specs.Prelude.{◌≡◌, ◌≤◌, None, length};
ghost use Rattle.records.specs.Read.{outermost};

use crate::{Context, LAMBDA_LIMIT, LEVEL_LIMIT, Scan, Zone};

// The context of a record that stands in no other.
pub fn outermost() -> Context
    ensures { result ≡ outermost }
{
    Context {
        mark: 0,
        room: LEVEL_LIMIT,
        lambdas: LAMBDA_LIMIT,
        zone: Zone::Plain,
    }
}

// A reading that has come to a place in the bytes of a record.
pub fn from_place(s: &[u8], at: usize) -> Scan
    requires { at ≤ length s.now }
    ensures bytes { result.s ≡ s.entry }
    ensures place { result.at ≡ at }
    ensures first { result.first ≡ None }
{
    Scan { s, at, first: None }
}
