// The rules on H records and CF (`rename_args_helperform`, `rename_in_helperform`,
// `rename_args_compileform`, `rename_in_compileform`, `rename_children_compileform`): one cycle of
// calls, in which `depth` falls. As in `bodies` the record stands at the start of mem, its result goes
// to `free`, and the map of the in-rules stands at the end of mem. Each of these records is a head,
// perhaps args, and a rest; the head is kept.
//
// What they do alike stands once: `kind` says of which record, `way` and `owning` by which rules. They
// are no closures: in a cycle of calls their clauses would have to be written out at each use.
ghost use Rattle.std.specs.Prelude.{Bool, true, false, ◌≡◌};
ghost use Rattle.walk.specs.FormWalks.{TreeReady, WalksTree, KeepsHelper, WalksChildren, AfterReady, WalksAfter, RenewedReady, WalksRenewed, BothRestReady, WalksBothRest, RestReady, WalksRest, HelpersReady, WalksHelpers, ChildReady, WalksChild, by_args, Sumable, AddsResult, new_sum};
ghost use Rattle.walk.specs.declared.Child.TheVariants.{Helperform, Compileform};
ghost use Rattle.walk.specs.declared.Rest.TheVariants.{Listed, Parts};

use crate::bodies::either;
use crate::keep::{finished, keep, over_long};
use crate::scopes::new_args;
use crate::{Child, Piece, Rest, Task, Way};
use names::Refusal;
use names::bytes::copy;
use records::helpers::{constant_view, form_view, function_view, macro_view, namespace_view};
use records::record::helper_mark;
use records::skip::skip;
use records::{Family, HelperMark, Step};

// `rename_args_helperform` of the H record at the start of mem.
#[cycle(forms)]
pub fn args_helperform(mem: &mut [u8], t: Task) -> Result<Step, Refusal>
    requires { TreeReady Helperform true mem.old t }
    ensures { WalksTree Helperform true mem.old mem.new t result }
{
    match helper_mark(mem) {
        Some(HelperMark::Constant) => {
            let v = constant_view(mem);
            after(mem, v.next, Rest::OneBody, Way::Own, t)
        }
        Some(HelperMark::Macro) => {
            let v = macro_view(mem);
            renewed(mem, v.args, Rest::OneForm, t)
        }
        Some(HelperMark::Function) => {
            let v = function_view(mem);
            renewed(mem, v.args, Rest::OneBody, t)
        }
        Some(HelperMark::Namespace) => {
            let v = namespace_view(mem);
            after(mem, v.first - 1, Rest::Listed, Way::Own, t)
        }
        _ => keep_helper(mem, t),
    }
}

// `rename_in_helperform` of the H record at the start of mem.
#[cycle(forms)]
pub fn in_helperform(mem: &mut [u8], t: Task) -> Result<Step, Refusal>
    requires { TreeReady Helperform false mem.old t }
    ensures { WalksTree Helperform false mem.old mem.new t result }
{
    match helper_mark(mem) {
        Some(HelperMark::Constant) => {
            let v = constant_view(mem);
            after(mem, v.next, Rest::OneBody, Way::In, t)
        }
        Some(HelperMark::Macro) => {
            let v = macro_view(mem);
            after(mem, v.next, Rest::OneForm, Way::In, t)
        }
        Some(HelperMark::Function) => {
            let v = function_view(mem);
            after(mem, v.next, Rest::OneBody, Way::In, t)
        }
        _ => keep_helper(mem, t),
    }
}

// The H record at the start of mem as it is.
fn keep_helper(mem: &mut [u8], t: Task) -> Result<Step, Refusal>
    requires { (owning : Bool) × TreeReady Helperform owning mem.old t }
    ensures { KeepsHelper mem.old mem.new t result }
{
    let n = skip(Family::Helper, mem);
    keep(mem, t, n)
}

// `rename_args_compileform` of the CF at the start of mem.
#[cycle(forms)]
pub fn args_compileform(mem: &mut [u8], t: Task) -> Result<Step, Refusal>
    requires { TreeReady Compileform true mem.old t }
    ensures { WalksTree Compileform true mem.old mem.new t result }
{
    let v = form_view(mem);
    renewed(mem, v.args, Rest::Parts, t)
}

// `rename_in_compileform` of the CF at the start of mem.
#[cycle(forms)]
pub fn in_compileform(mem: &mut [u8], t: Task) -> Result<Step, Refusal>
    requires { TreeReady Compileform false mem.old t }
    ensures { WalksTree Compileform false mem.old mem.new t result }
{
    let v = form_view(mem);
    after(mem, v.first - 1, Rest::Parts, Way::In, t)
}

// `rename_children_compileform` of the CF at the start of mem.
pub fn children_compileform(mem: &mut [u8], t: Task) -> Result<Step, Refusal>
    requires { TreeReady Compileform true mem.old t }
    ensures { WalksChildren mem.old mem.new t result }
{
    let v = form_view(mem);
    after(mem, v.first - 1, Rest::Parts, Way::Own, t)
}

// A record that is kept up to a place, with the rest that stands there by the rules of a way.
#[cycle(forms)]
fn after(mem: &mut [u8], at: usize, kind: Rest, way: Way, t: Task) -> Result<Step, Refusal>
    requires { AfterReady kind way mem.old at t }
    ensures { WalksAfter kind way mem.old mem.new at t result }
{
    copy(mem, 0, t.free, at);
    let below = Task {
        depth: t.depth - 1,
        ..t
    };
    let all = rest(&mut mem[at..], kind, way, 0, below)?;
    finished(at + all.read, at + all.written, t.f, all.counter)
}

// A record whose args stand at a place: new names for the args, and the rest behind them by the
// args-rules and then by the in-rules with these names.
#[cycle(forms)]
fn renewed(mem: &mut [u8], args: usize, kind: Rest, t: Task) -> Result<Step, Refusal>
    requires { RenewedReady kind mem.old args t }
    ensures { WalksRenewed kind mem.old mem.new args t result }
{
    copy(mem, 0, t.free, args);
    let new = new_args(&mut mem[args..], t.free, true, t.f, t.counter)?;
    let q = args + new.read;
    let behind = Task {
        free: t.free + args + new.written - q,
        map: new.map,
        depth: t.depth - 1,
        counter: new.counter,
        ..t
    };
    let all = both(&mut mem[q..], kind, new.written, behind)?;
    finished(
        q + all.read,
        args + new.written + all.written,
        t.f,
        all.counter,
    )
}

// The rest at the start of mem by the args-rules, in memory that ends where the map starts, and then
// that by the in-rules, which takes its place; beside results of `sum` bytes.
#[cycle(forms)]
fn both(mem: &mut [u8], kind: Rest, sum: usize, t: Task) -> Result<Piece, Refusal>
    requires { BothRestReady kind mem.old sum t }
    ensures { WalksBothRest kind mem.old mem.new sum t result }
{
    let top = mem.len() - t.map;
    let to = t.free;
    let own = rest(&mut mem[..top], kind, Way::Own, sum, Task { map: 0, ..t })?;
    let over = Task {
        free: own.written,
        counter: own.counter,
        ..t
    };
    let inner = rest(&mut mem[to..], kind, Way::Further, own.sum, over)?;
    copy(mem, to + own.written, to, inner.written);
    Ok(Piece {
        read: own.read,
        ..inner
    })
}

// The rest at the start of mem, beside results of `sum` bytes.
#[cycle(forms)]
fn rest(mem: &mut [u8], kind: Rest, way: Way, sum: usize, t: Task) -> Result<Piece, Refusal>
    requires { RestReady kind way mem.old sum t }
    ensures { WalksRest kind way mem.old mem.new sum t result }
{
    match kind {
        Rest::OneBody => child(mem, Child::Bodyform, way, sum, t),
        Rest::OneForm => child(mem, Child::Compileform, way, sum, t),
        Rest::Listed => listed(mem, way, sum, t),
        Rest::Parts => parts(mem, way, sum, t),
    }
}

// A count and so many helpers, and the body behind them.
#[cycle(forms)]
fn parts(mem: &mut [u8], way: Way, sum: usize, t: Task) -> Result<Piece, Refusal>
    requires { RestReady Parts way mem.old sum t }
    ensures { WalksRest Parts way mem.old mem.new sum t result }
{
    let all = listed(mem, way, sum, t)?;
    let r = all.read;
    let behind = Task {
        free: t.free + all.written - r,
        counter: all.counter,
        ..t
    };
    let body = child(&mut mem[r..], Child::Bodyform, way, all.sum, behind)?;
    Ok(Piece {
        read: r + body.read,
        written: all.written + body.written,
        ..body
    })
}

// A count, which is kept, and so many helpers.
#[cycle(forms)]
fn listed(mem: &mut [u8], way: Way, sum: usize, t: Task) -> Result<Piece, Refusal>
    requires { RestReady Listed way mem.old sum t }
    ensures { WalksRest Listed way mem.old mem.new sum t result }
{
    let to = t.free;
    let count = mem[0];
    mem[to] = count;
    let all = helpers(&mut mem[1..], count, way, sum, t)?;
    Ok(Piece {
        read: 1 + all.read,
        written: 1 + all.written,
        ..all
    })
}

// So many helpers, one after the other from the start of mem.
#[cycle(forms)]
fn helpers(mem: &mut [u8], count: u8, way: Way, sum: usize, t: Task) -> Result<Piece, Refusal>
    requires { HelpersReady way mem.old count sum t }
    ensures { WalksHelpers way mem.old mem.new count sum t result }
{
    let mut at = 0;
    let mut to = t.free;
    let mut held = sum;
    let mut counter = t.counter;
    for _ in 0..count {
        let free = to - at;
        let next = Task { free, counter, ..t };
        let one = child(&mut mem[at..], Child::Helperform, way, held, next)?;
        at += one.read;
        to += one.written;
        held = one.sum;
        counter = one.counter;
    }
    Ok(Piece {
        read: at,
        written: to - t.free,
        sum: held,
        counter,
    })
}

// The record at the start of mem as a child, whose result comes into the sum.
#[cycle(forms)]
fn child(mem: &mut [u8], kind: Child, way: Way, sum: usize, t: Task) -> Result<Piece, Refusal>
    requires { ChildReady kind way mem.old sum t }
    ensures { WalksChild kind way mem.old mem.new sum t result }
{
    let s = by_rule(mem, kind, by_args(way), t)?;
    counted(s, way, sum, t.f)
}

// The record at the start of mem by the args-rule or the in-rule of its kind.
#[cycle(forms)]
fn by_rule(mem: &mut [u8], kind: Child, owning: bool, t: Task) -> Result<Step, Refusal>
    requires { TreeReady kind owning mem.old t }
    ensures { WalksTree kind owning mem.old mem.new t result }
{
    match kind {
        Child::Bodyform => either(mem, t, owning),
        Child::Helperform => {
            if owning {
                return args_helperform(mem, t);
            }
            in_helperform(mem, t)
        }
        Child::Compileform => {
            if owning {
                return args_compileform(mem, t);
            }
            in_compileform(mem, t)
        }
    }
}

// Whether a way goes by the args-rules.
fn by_args(way: Way) -> bool
    ensures { result ≡ by_args way }
{
    match way {
        Way::Own => true,
        Way::In => false,
        Way::Further => false,
    }
}

// A child that is done: its result is added to the sum.
fn counted(s: Step, way: Way, sum: usize, f: usize) -> Result<Piece, Refusal>
    requires { Sumable way sum s.read s.written }
    ensures { AddsResult way sum s.read s.written f s.counter result }
{
    let sum = added(way, sum, s.read, s.written);
    if f < sum {
        return Err(over_long());
    }
    Ok(Piece {
        read: s.read,
        written: s.written,
        sum,
        counter: s.counter,
    })
}

// The sum with a new result of so many bytes; one that is replaced leaves it first.
fn added(way: Way, sum: usize, read: usize, written: usize) -> usize
    requires { Sumable way sum read written }
    ensures { result ≡ new_sum way sum read written }
{
    match way {
        Way::Own => sum + written,
        Way::In => sum + written,
        Way::Further => sum - read + written,
    }
}
