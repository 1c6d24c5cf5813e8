// Where parts of a record stand, and parts moved.
ghost use Rattle.std.specs.Prelude.{◌≡◌, ◌≤◌, ◌<◌, length};
ghost use Rattle.walk.specs.AssignWalks.{FindsStarts};
ghost use Rattle.walk.specs.CallWalks.{BackRoom, PutsBack, backs};

use names::bytes::copy;
use records::Family;
use records::skip::past_record;

// Where the bindings from a place on start, and where the last of them ends.
pub fn binding_starts(s: &[u8], first: usize, starts: &mut [usize])
    requires { (first ≤ length s.now) × (0 < length starts.old) }
    ensures { FindsStarts s.now first starts.old starts.new }
{
    starts[0] = first;
    for i in 1..starts.len() {
        starts[i] = past_record(Family::Binding, s, starts[i - 1]);
    }
}

// Whether the element of this index is put back: element 0 under In-body. A test: no step is chosen.
pub fn goes_back(owning: bool, i: u8) -> bool
    ensures { result ≡ backs owning i }
{
    if owning {
        return false;
    }
    i == 0
}

// How long the result of w bytes is: with `back` the r bytes that it was made of replace it.
pub fn put_back(mem: &mut [u8], at: usize, to: usize, r: usize, w: usize, back: bool) -> usize
    requires { BackRoom mem.old at to r back }
    ensures { PutsBack mem.old mem.new at to r w back result }
{
    if back {
        copy(mem, at, to, r);
        return r;
    }
    w
}
