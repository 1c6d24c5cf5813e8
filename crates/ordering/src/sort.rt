// The exact order of bindings over their needs (`toposort`). A need is the bindings that provide one
// needed name, as bits; those of binding i stand in `needs` from `starts[i]` up to `starts[i + 1]`.
ghost use Rattle.std.specs.Prelude.{◌≡◌, ◌≤◌, length, take};
ghost use Rattle.ordering.specs.Items.{indices_from};
ghost use Rattle.ordering.specs.Needs.{binding_limit, bits, marks, Starts, IndicesBelow, TakesTurn, SortsItems};

use crate::Sorted;

// Orders the indices of all bindings in `row`, round by round.
pub fn toposort(needs: &[u64], starts: &[usize], row: &mut [u8]) -> Sorted
    requires { Starts (length row.old) needs.now starts.now }
    ensures placed_in_bounds { (result.placed ≤ length row.new) × (result.rounds ≤ result.placed) }
    ensures indices_below { IndicesBelow row.new }
    ensures sorts_items { SortsItems (length row.old) needs.now starts.now row.new result }
{
    rising(row);
    let mut placed = 0;
    let mut rounds = 0;
    // No range: a turn places as many bindings as are ready.
    while placed < row.len() {
        let round = rounds + 1;
        let done = placed_bits(row, placed);
        let next = turn(needs, starts, row, placed, done);
        if next == placed {
            return Sorted { placed, rounds };
        }
        placed = next;
        rounds = round;
    }
    Sorted { placed, rounds }
}

// All indices, rising.
fn rising(row: &mut [u8])
    requires { length row.old ≤ binding_limit }
    ensures { row.new ≡ indices_from 0 (length row.old) }
{
    for i in 0..row.len() {
        // A cast: what is narrowed fits, and TryFrom would answer an error that cannot come.
        row[i] = i as u8;
    }
}

// The bits of the indices of a row's first `placed`.
fn placed_bits(row: &[u8], placed: usize) -> u64
    requires row_len_bound { (length row.now ≤ binding_limit) × (placed ≤ length row.now) }
    requires indices_below { IndicesBelow row.now }
    ensures { result ≡ bits (marks (length row.now) (take placed row.now)) }
{
    let mut bits = 0;
    for i in &row[..placed] {
        bits |= 1u64 << *i;
    }
    bits
}

// A turn: each index from `placed` on whose needs are all met by `done` changes places with the
// leftmost one not yet placed, and is then placed.
fn turn(needs: &[u64], starts: &[usize], row: &mut [u8], placed: usize, done: u64) -> usize
    requires starts { Starts (length row.old) needs.now starts.now × (placed ≤ length row.old) }
    requires indices_below { IndicesBelow row.old }
    ensures lower_bound { (placed ≤ result) × (result ≤ length row.new) }
    ensures indices_below_2 { IndicesBelow row.new }
    ensures takes_turn { TakesTurn needs.now starts.now row.old placed done row.new result }
{
    let mut left = placed;
    'positions: for p in placed..row.len() {
        let i = row[p];
        let at = usize::from(i);
        for k in starts[at]..starts[at + 1] {
            if needs[k] & done == 0 {
                continue 'positions;
            }
        }
        row[p] = row[left];
        row[left] = i;
        left += 1;
    }
    left
}
