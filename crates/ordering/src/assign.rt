// The order of an assign's bindings (`toposort_assign_bindings`).
ghost use Rattle.std.specs.Prelude.{List, ◌≡◌, ◌≤◌, ◌<◌, length};
ghost use Rattle.records.specs.Limits.{most_longest};
ghost use Rattle.records.specs.Records.{Binding};
ghost use Rattle.ordering.specs.Assign.{need_limit, Bound, ListsBinding, FindsAllNames, Collectable, FindsNeeds, SortsBindings, SomeLet, OrdersLet};
ghost use Rattle.ordering.specs.Needs.{binding_limit, Starts};

use crate::listed::Listed;
use crate::needs::body_needs;
use crate::provides::{Provided, pattern_names};
use crate::sort::toposort;
use crate::{BINDING_LIMIT, NEED_LIMIT, Order, Sorted};
use records::bodies::let_view;
use records::past::{past_bytes, past_head};
use records::skip::past_record;
use records::{Family, LOC_WIDTH};

// Lists what the binding at a place provides, behind a 0, and answers where its body starts.
fn binding_names(s: &[u8], at: usize, entries: &mut Listed<usize>) -> usize
    requires { (at ≤ length s.now) × (length s.now ≤ most_longest) }
    ensures { ListsBinding s.now at entries.old entries.new result }
{
    entries.push(0);
    let head = at + past_head(&s[at..]);
    let pattern = past_bytes(s, head, LOC_WIDTH);
    pattern_names(s, pattern, entries)
}

// Lists what bindings provide that follow each other from a place on, and where their bodies start.
// Answers the number of entries.
pub fn find_names(s: &[u8], first: usize, entries: &mut [usize], bodies: &mut [usize]) -> usize
    requires s_len_bound { (length s.now ≤ most_longest) × (length entries.old ≡ need_limit) }
    requires bound { (bs : List Binding) × Bound s.now first (length bodies.old) bs }
    ensures { FindsAllNames s.now first (length bodies.old) entries.new bodies.new result }
{
    let mut at = first;
    let mut listed = Listed::new(entries);
    for body in bodies.iter_mut() {
        *body = binding_names(s, at, &mut listed);
        at = past_record(Family::Body, s, *body);
    }
    listed.count
}

// Lists the needs of the bodies at the places given, and where those of each start.
fn find_needs(given: &Provided, bodies: &[usize], needs: &mut [u64], starts: &mut [usize])
    requires bodies_len_bound { (length bodies.now ≤ binding_limit) × (length bodies.now < length starts.old) }
    requires collectable { (bs : List Binding) × Collectable given.now bodies.now (length needs.old) bs }
    ensures starts { Starts (length bodies.now) needs.new starts.new }
    ensures finds_needs { FindsNeeds given.now bodies.now needs.old needs.new starts.new }
{
    let mut listed = Listed::new(needs);
    for (j, body) in bodies.iter().enumerate() {
        starts[j] = listed.count;
        body_needs(given, &given.bytes[*body..], &mut listed);
    }
    starts[bodies.len()] = listed.count;
}

// Orders the bindings that follow each other from a place on, with room for what is listed of them.
fn order_bindings(
    s: &[u8],
    first: usize,
    entries: &mut [usize],
    bodies: &mut [usize],
    needs: &mut [u64],
    starts: &mut [usize],
    row: &mut [u8],
) -> Sorted
    requires s_len_bound { (length s.now ≤ most_longest) × (length entries.old ≡ need_limit) × (length needs.old ≡ need_limit) }
    requires bodies_len { (length bodies.old ≡ length row.old) × (length row.old ≤ binding_limit) × (length row.old < length starts.old) }
    requires bound { (bs : List Binding) × Bound s.now first (length row.old) bs }
    ensures placed_in_bounds { result.placed ≤ length row.new }
    ensures sorts_bindings { SortsBindings s.now first (length row.old) row.new result }
{
    let n = find_names(s, first, entries, bodies);
    let given = Provided {
        bytes: s,
        entries: &entries[..n],
    };
    find_needs(&given, bodies, needs, starts);
    toposort(needs, starts, row)
}

// The order of the bindings of the assign at the start of s.
pub fn toposort_assign_bindings(s: &[u8]) -> Order
    requires s_len_bound { length s.now ≤ most_longest }
    requires some_let { SomeLet s.now }
    ensures { OrdersLet s.now result }
{
    let v = let_view(s);
    let count = usize::from(v.count);
    let mut row = [0u8; BINDING_LIMIT];
    let mut bodies = [0usize; BINDING_LIMIT];
    let mut starts = [0usize; BINDING_LIMIT + 1];
    let mut entries = [0usize; NEED_LIMIT];
    let mut needs = [0u64; NEED_LIMIT];
    let r = order_bindings(
        s,
        v.first,
        &mut entries,
        &mut bodies[..count],
        &mut needs,
        &mut starts,
        &mut row[..count],
    );
    Order {
        row,
        count,
        placed: r.placed,
        rounds: r.rounds,
    }
}
