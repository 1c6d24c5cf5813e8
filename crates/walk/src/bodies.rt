// Own (`rename_args_bodyform`) and In-body (`rename_in_bodyform`) of the B records: one cycle of calls,
// in which `depth` falls. The record stands at the start of mem, and its result goes to `free`. In-body's
// map stands at the end of mem; Own is lent memory that ends where the maps of others start.
//
// What both do alike stands once, and `owning` says under which. It is no closure: in a cycle of calls
// its clauses would have to be written out at each use.
ghost use Rattle.std.specs.Prelude.{true, false};
ghost use Rattle.records.specs.declared.Kind.TheVariants.{Parallel, Sequential, Assign};
ghost use Rattle.records.specs.Valid.{IsLet};
ghost use Rattle.walk.specs.AssignWalks.{OrderedReady, TurnedReady, Turns, BindingsReady, MakesBindings, BindingReady, MakesBinding, ComplexReady, MakesComplex, NamedReady, MakesNamed, RemakeReady, Remakes};
ghost use Rattle.walk.specs.CallWalks.{ElementsReady, WalksElements, TailReady, WalksTail};
ghost use Rattle.walk.specs.LambdaWalks.{CapturedReady, WalksCaptured};
ghost use Rattle.walk.specs.LetWalks.{BindReady, Binds, AllReady, BindsAll, PatternedReady, WalksPatterned};
ghost use Rattle.walk.specs.SequentialWalks.{NestedReady, WalksNested};
ghost use Rattle.walk.specs.Walking.{AnyBody, IsBinder, IsCall, IsLambda, BodyReady, Walks, BothReady, WalksBoth, OverReady, GoesOver, ParallelReady};

use crate::desugar::desugar_sequential_let_bindings;
use crate::invent::invent_new_names_sexp;
use crate::keep::{finished, over_long};
use crate::leaves::{keep_body, rename_quoted, rename_value};
use crate::places::{binding_starts, goes_back, put_back};
use crate::scopes::{BINDING_HEAD, let_room, make_bindings_unique, new_args, put_head};
use crate::substitute::rename_in_cons;
use crate::{Made, Piece, Task};
use names::bytes::{copy, number};
use names::refusals::{place_at, refusing};
use names::{Reason, Refusal};
use ordering::assign::toposort_assign_bindings;
use ordering::{BINDING_LIMIT, Order};
use records::bodies::{call_view, lambda_view, let_view};
use records::past::past_pattern;
use records::record::body_mark;
use records::{BodyMark, CONS_LIMIT, Kind, LOC_WIDTH, MARK_WIDTH, Step};

// How many times F the head of an assign and its made bindings take; each binding is made behind.
const BINDINGS_ROOM: usize = 3;

// Own of the B record at the start of mem.
#[cycle(bodies)]
pub fn args_bodyform(mem: &mut [u8], t: Task) -> Result<Step, Refusal>
    requires { BodyReady AnyBody true mem.old t }
    ensures { Walks AnyBody true mem.old mem.new t result }
{
    match body_mark(mem) {
        Some(BodyMark::Let) => lets(mem, t),
        Some(BodyMark::Call) => call(mem, t, true),
        Some(BodyMark::Lambda) => lambda(mem, t),
        _ => keep_body(mem, t),
    }
}

// In-body of the B record at the start of mem.
#[cycle(bodies)]
pub fn in_bodyform(mem: &mut [u8], t: Task) -> Result<Step, Refusal>
    requires { BodyReady AnyBody false mem.old t }
    ensures { Walks AnyBody false mem.old mem.new t result }
{
    match body_mark(mem) {
        Some(BodyMark::Let) => in_let(mem, t),
        Some(BodyMark::Quoted) => rename_quoted(mem, t),
        Some(BodyMark::Call) => call(mem, t, false),
        Some(BodyMark::Mod) => keep_body(mem, t),
        Some(BodyMark::Lambda) => in_lambda(mem, t),
        _ => rename_value(mem, t),
    }
}

// One of the two.
#[cycle(bodies)]
pub fn either(mem: &mut [u8], t: Task, owning: bool) -> Result<Step, Refusal>
    requires { BodyReady AnyBody owning mem.old t }
    ensures { Walks AnyBody owning mem.old mem.new t result }
{
    if owning {
        return args_bodyform(mem, t);
    }
    in_bodyform(mem, t)
}

// Own of the body at the start of mem, in memory that ends where the map starts, and then In-body of
// that by the map; beside results of `sum` bytes.
#[cycle(bodies)]
pub fn both(mem: &mut [u8], sum: usize, t: Task) -> Result<Piece, Refusal>
    requires { BothReady mem.old sum t }
    ensures { WalksBoth mem.old mem.new sum t result }
{
    let top = mem.len() - t.map;
    let own = args_bodyform(&mut mem[..top], Task { map: 0, ..t })?;
    if t.f < sum + own.written {
        return Err(over_long());
    }
    let counter = own.counter;
    over(mem, own.read, own.written, sum, Task { counter, ..t })
}

// In-body of the result of w bytes at free, which takes its place; `read` is what was read to make it.
#[cycle(bodies)]
fn over(mem: &mut [u8], read: usize, w: usize, sum: usize, t: Task) -> Result<Piece, Refusal>
    requires { OverReady mem.old w sum t }
    ensures { GoesOver mem.old mem.new read w sum t result }
{
    let to = t.free;
    let inner = in_bodyform(&mut mem[to..], Task { free: w, ..t })?;
    let written = inner.written;
    let sum = sum + written;
    if t.f < sum {
        return Err(over_long());
    }
    copy(mem, to + w, to, written);
    Ok(Piece {
        read,
        written,
        sum,
        counter: inner.counter,
    })
}

// A BC: each element, then the tail.
#[cycle(bodies)]
fn call(mem: &mut [u8], t: Task, owning: bool) -> Result<Step, Refusal>
    requires { BodyReady IsCall owning mem.old t }
    ensures { Walks IsCall owning mem.old mem.new t result }
{
    let v = call_view(mem);
    let at = v.first;
    copy(mem, 0, t.free, at);
    let below = Task {
        depth: t.depth - 1,
        ..t
    };
    let all = each(&mut mem[at..], v.count, below, owning)?;
    let q = at + all.read;
    let w = at + all.written;
    let behind = Task {
        free: t.free + w - q,
        counter: all.counter,
        ..below
    };
    let last = tail(&mut mem[q..], all.sum, behind, owning)?;
    finished(q + last.read, w + last.written, t.f, last.counter)
}

// So many bodies, one after the other from the start of mem. Element 0 of a call stays as it was
// under In-body. What is written is the sum.
#[cycle(bodies)]
fn each(mem: &mut [u8], count: u8, t: Task, owning: bool) -> Result<Piece, Refusal>
    requires { ElementsReady owning mem.old count t }
    ensures { WalksElements owning mem.old mem.new count t result }
{
    let mut at = 0;
    let mut sum = 0;
    let mut counter = t.counter;
    for i in 0..count {
        let to = t.free + sum;
        let free = to - at;
        let next = Task { free, counter, ..t };
        let s = either(&mut mem[at..], next, owning)?;
        if t.f < sum + s.written {
            return Err(over_long());
        }
        sum += put_back(mem, at, to, s.read, s.written, goes_back(owning, i));
        at += s.read;
        counter = s.counter;
    }
    Ok(Piece {
        read: at,
        written: sum,
        sum,
        counter,
    })
}

// The tail of a call at the start of mem, beside results of `sum` bytes.
#[cycle(bodies)]
fn tail(mem: &mut [u8], sum: usize, t: Task, owning: bool) -> Result<Piece, Refusal>
    requires { TailReady owning mem.old sum t }
    ensures { WalksTail owning mem.old mem.new sum t result }
{
    let to = t.free;
    let tag = mem[0];
    mem[to] = tag;
    if tag == 0 {
        return Ok(Piece {
            read: 1,
            written: 1,
            sum,
            counter: t.counter,
        });
    }
    let s = either(&mut mem[1..], t, owning)?;
    let sum = sum + s.written;
    if t.f < sum {
        return Err(over_long());
    }
    Ok(Piece {
        read: 1 + s.read,
        written: 1 + s.written,
        sum,
        counter: s.counter,
    })
}

// Own of a BL, by its kind.
#[cycle(bodies)]
fn lets(mem: &mut [u8], t: Task) -> Result<Step, Refusal>
    requires { BodyReady IsBinder true mem.old t }
    ensures { Walks IsBinder true mem.old mem.new t result }
{
    match Kind::from(mem[MARK_WIDTH]) {
        Kind::Parallel => parallel(mem, t),
        Kind::Sequential => chain(mem, t),
        Kind::Assign => assign(mem, t),
    }
}

// Own of a parallel let. The new patterns stand below its map, and the memory of its binding bodies
// ends before them.
#[cycle(bodies)]
fn parallel(mem: &mut [u8], t: Task) -> Result<Step, Refusal>
    requires { ParallelReady mem.old t }
    ensures { Walks (IsLet Parallel) true mem.old mem.new t result }
{
    let v = let_view(mem);
    let first = v.first;
    let count = v.count;
    let aside = mem.len() - let_room(count, t.f);
    let new = make_bindings_unique(mem, first, count, aside, t)?;
    let inner = Task {
        map: new.map,
        counter: new.counter,
        ..t
    };
    bound(mem, first, count, aside, new.sum, inner)
}

// Own of a parallel let whose bindings start at a place, and whose patterns and map are made.
#[cycle(bodies)]
fn bound(
    mem: &mut [u8],
    first: usize,
    count: u8,
    aside: usize,
    sum: usize,
    t: Task,
) -> Result<Step, Refusal>
    requires { PatternedReady mem.old first count aside sum t }
    ensures { WalksPatterned mem.old mem.new first count aside sum t result }
{
    copy(mem, 0, t.free, first);
    let depth = t.depth - 1;
    let below = Task { map: 0, depth, ..t };
    let all = binds(&mut mem[first..], count, aside - first, sum, below, true)?;
    let q = first + all.read;
    let w = first + all.written;
    let behind = Task {
        free: t.free + w - q,
        depth,
        counter: all.counter,
        ..t
    };
    let body = both(&mut mem[q..], all.sum, behind)?;
    finished(q + body.read, w + body.written, t.f, body.counter)
}

// So many bindings from the start of mem on, their results from free on, beside results of `held`
// bytes: under Own with the patterns that stand from `aside` on, under In-body with their own.
#[cycle(bodies)]
fn binds(
    mem: &mut [u8],
    count: u8,
    aside: usize,
    held: usize,
    t: Task,
    owning: bool,
) -> Result<Piece, Refusal>
    requires { AllReady mem.old count aside held t owning }
    ensures { BindsAll mem.old mem.new count aside held t owning result }
{
    let mut at = 0;
    let mut to = t.free;
    let mut pattern = aside;
    let mut sum = held;
    let mut counter = t.counter;
    for _ in 0..count {
        let body = past_pattern(mem, at + BINDING_HEAD);
        let n = put_head(mem, at, body, to, pattern, owning);
        to += n;
        pattern += n - BINDING_HEAD;
        let free = to - body;
        let s = bind(mem, body, aside, Task { free, counter, ..t }, owning)?;
        sum += s.written;
        if t.f < sum {
            return Err(over_long());
        }
        at = body + s.read;
        to += s.written;
        counter = s.counter;
    }
    Ok(Piece {
        read: at,
        written: to - t.free,
        sum,
        counter,
    })
}

// The body of a binding at a place: under Own its memory ends at `aside`.
#[cycle(bodies)]
fn bind(mem: &mut [u8], at: usize, aside: usize, t: Task, owning: bool) -> Result<Step, Refusal>
    requires { BindReady mem.old at aside t owning }
    ensures { Binds mem.old mem.new at aside t owning result }
{
    if owning {
        return args_bodyform(&mut mem[at..aside], t);
    }
    in_bodyform(&mut mem[at..], t)
}

// In-body of a BL of any kind.
#[cycle(bodies)]
fn in_let(mem: &mut [u8], t: Task) -> Result<Step, Refusal>
    requires { BodyReady IsBinder false mem.old t }
    ensures { Walks IsBinder false mem.old mem.new t result }
{
    let v = let_view(mem);
    let first = v.first;
    let count = v.count;
    copy(mem, 0, t.free, first);
    let below = Task {
        depth: t.depth - 1,
        ..t
    };
    let all = binds(&mut mem[first..], count, 0, 0, below, false)?;
    let q = first + all.read;
    let w = first + all.written;
    let behind = Task {
        free: t.free + w - q,
        counter: all.counter,
        ..below
    };
    let body = in_bodyform(&mut mem[q..], behind)?;
    if t.f < all.sum + body.written {
        return Err(over_long());
    }
    finished(q + body.read, w + body.written, t.f, body.counter)
}

// Own of a sequential let: of the nested lets that it becomes, which their result then replaces.
#[cycle(bodies)]
fn chain(mem: &mut [u8], t: Task) -> Result<Step, Refusal>
    requires { BodyReady (IsLet Sequential) true mem.old t }
    ensures { Walks (IsLet Sequential) true mem.old mem.new t result }
{
    let v = let_view(mem);
    let count = v.count;
    let to = t.free;
    let lets = desugar_sequential_let_bindings(mem, Task { map: 0, ..t })?;
    let inner = Task {
        free: lets.written,
        map: 0,
        counter: lets.counter,
        ..t
    };
    let s = nested(&mut mem[to..], count, inner)?;
    copy(mem, to + lets.written, to, s.written);
    Ok(Step {
        read: lets.read,
        ..s
    })
}

// Own of what a sequential let of so many bindings became.
#[cycle(bodies)]
fn nested(mem: &mut [u8], count: u8, t: Task) -> Result<Step, Refusal>
    requires { NestedReady mem.old count t }
    ensures { WalksNested mem.old mem.new count t result }
{
    if count == 0 {
        let depth = t.depth - 1;
        return args_bodyform(mem, Task { map: 0, depth, ..t });
    }
    parallel(mem, t)
}

// Own of an assign; 5 where its bindings have no order.
#[cycle(bodies)]
fn assign(mem: &mut [u8], t: Task) -> Result<Step, Refusal>
    requires { BodyReady (IsLet Assign) true mem.old t }
    ensures { Walks (IsLet Assign) true mem.old mem.new t result }
{
    let f = t.f;
    let o = toposort_assign_bindings(&mem[..f]);
    if o.placed < o.count {
        let loc = number(mem, MARK_WIDTH + 1, LOC_WIDTH);
        // A cast: Rust has no From of usize for u64, and TryFrom would answer an error that cannot come.
        return Err(refusing(Reason::Deadlock, place_at(loc as u64)));
    }
    sorted(mem, o, t)
}

// Own of an assign whose order is known. Its bindings are made behind the room for the result, and
// stand then before that place, the last one first.
#[cycle(bodies)]
fn sorted(mem: &mut [u8], o: Order, t: Task) -> Result<Step, Refusal>
    requires { OrderedReady mem.old o t }
    ensures { Walks (IsLet Assign) true mem.old mem.new t result }
{
    let v = let_view(mem);
    let first = v.first;
    let count = o.count;
    let row = o.row;
    let mut starts = [0usize; BINDING_LIMIT + 1];
    binding_starts(mem, first, &mut starts[..count + 1]);
    let body = starts[count];
    let behind = Task {
        free: t.free + BINDINGS_ROOM * t.f,
        map: 0,
        depth: t.depth - 1,
        ..t
    };
    let all = assign_all(mem, &row[..count], &starts[..count + 1], behind)?;
    let rest = Task {
        map: all.map,
        counter: all.counter,
        ..t
    };
    moved(mem, first, body, all.written, all.sum, rest)
}

// An assign whose w bytes of bindings are made and stand behind the room for them: they are moved
// behind its head, and its body follows.
#[cycle(bodies)]
fn moved(
    mem: &mut [u8],
    first: usize,
    body: usize,
    w: usize,
    sum: usize,
    t: Task,
) -> Result<Step, Refusal>
    requires { TurnedReady mem.old first body w sum t }
    ensures { Turns mem.old mem.new w sum t result }
{
    let free = t.free;
    let end = free + BINDINGS_ROOM * t.f;
    copy(mem, 0, free, first);
    copy(mem, end - w, free + first, w);
    let behind = Task {
        free: free + first + w - body,
        depth: t.depth - 1,
        ..t
    };
    let last = both(&mut mem[body..], sum, behind)?;
    finished(
        body + last.read,
        first + w + last.written,
        t.f,
        last.counter,
    )
}

// The bindings of these indices, one after the other (`rename_assign_bindings`): each is made at free,
// and moved before those that were made earlier.
#[cycle(bodies)]
fn assign_all(mem: &mut [u8], row: &[u8], starts: &[usize], t: Task) -> Result<Made, Refusal>
    requires { BindingsReady mem.old row.now starts.now t }
    ensures { MakesBindings mem.old mem.new row.now starts.now t result }
{
    let mut top = t.free;
    let mut sum = 0;
    let mut map = 0;
    let mut counter = t.counter;
    for index in row {
        let i = usize::from(*index);
        let at = starts[i];
        let n = starts[i + 1] - at;
        let next = Task {
            free: t.free - at,
            map,
            counter,
            ..t
        };
        let one = assign_one(&mut mem[at..], n, sum, next)?;
        top -= one.written;
        copy(mem, t.free, top, one.written);
        sum = one.sum;
        map = one.map;
        counter = one.counter;
    }
    Ok(Made {
        written: t.free - top,
        sum,
        map,
        counter,
    })
}

// The binding of n bytes at the start of mem: a Name binding is copied.
#[cycle(bodies)]
fn assign_one(mem: &mut [u8], n: usize, sum: usize, t: Task) -> Result<Made, Refusal>
    requires { BindingReady mem.old n sum t }
    ensures { MakesBinding mem.old mem.new sum t result }
{
    if mem[BINDING_HEAD] == 0 {
        copy(mem, 0, t.free, n);
        return Ok(Made {
            written: n,
            sum,
            map: t.map,
            counter: t.counter,
        });
    }
    let at = BINDING_HEAD + 1;
    copy(mem, 0, t.free, at);
    let m = complex(&mut mem[at..], sum, t)?;
    Ok(Made {
        written: at + m.written,
        ..m
    })
}

// A Complex pattern and the body behind it: the map grows by the pattern, and Own of the body stands at
// free until the pattern and In-body of it stand behind it.
#[cycle(bodies)]
fn complex(mem: &mut [u8], sum: usize, t: Task) -> Result<Made, Refusal>
    requires { ComplexReady mem.old sum t }
    ensures { MakesComplex mem.old mem.new sum t result }
{
    let g = invent_new_names_sexp(mem, t.map, t.counter, CONS_LIMIT)?;
    let inner = Task {
        map: g.len,
        counter: g.counter,
        ..t
    };
    named(mem, g.end, sum, inner)
}

// The body at a place, behind a Complex pattern whose names are drawn.
#[cycle(bodies)]
fn named(mem: &mut [u8], body: usize, sum: usize, t: Task) -> Result<Made, Refusal>
    requires { NamedReady mem.old body sum t }
    ensures { MakesNamed mem.old mem.new sum t result }
{
    let top = mem.len() - t.map;
    let free = t.free - body;
    let own = args_bodyform(&mut mem[body..top], Task { free, map: 0, ..t })?;
    let sum = sum + own.written;
    if t.f < sum {
        return Err(over_long());
    }
    let counter = own.counter;
    redo(mem, own.written, sum, Task { counter, ..t })
}

// The pattern at the start of mem by the map, and In-body of the w bytes at free, which both replace.
#[cycle(bodies)]
fn redo(mem: &mut [u8], w: usize, sum: usize, t: Task) -> Result<Made, Refusal>
    requires { RemakeReady mem.old w sum t }
    ensures { Remakes mem.old mem.new w sum t result }
{
    let to = t.free;
    let behind = Task {
        free: to + w,
        f: t.f - sum,
        depth: CONS_LIMIT,
        ..t
    };
    let pattern = rename_in_cons(mem, behind, false)?;
    let x = pattern.written;
    let body = in_bodyform(&mut mem[to..], Task { free: w + x, ..t })?;
    let sum = sum + x - w + body.written;
    if t.f < sum {
        return Err(over_long());
    }
    let written = x + body.written;
    copy(mem, to + w, to, written);
    Ok(Made {
        written,
        sum,
        map: t.map,
        counter: body.counter,
    })
}

// Own of a BF: new names for its args, and both rules for its body.
#[cycle(bodies)]
fn lambda(mem: &mut [u8], t: Task) -> Result<Step, Refusal>
    requires { BodyReady IsLambda true mem.old t }
    ensures { Walks IsLambda true mem.old mem.new t result }
{
    let v = lambda_view(mem);
    let args = v.args;
    copy(mem, 0, t.free, args);
    let new = new_args(&mut mem[args..], t.free, false, t.f, t.counter)?;
    let q = args + new.read;
    let w = args + new.written;
    let behind = Task {
        free: t.free + w - q,
        map: new.map,
        depth: t.depth - 1,
        counter: new.counter,
        ..t
    };
    let body = both(&mut mem[q..], new.written, behind)?;
    finished(q + body.read, w + body.written, t.f, body.counter)
}

// In-body of a BF: the captures first, behind the room for the capture args.
#[cycle(bodies)]
fn in_lambda(mem: &mut [u8], t: Task) -> Result<Step, Refusal>
    requires { BodyReady IsLambda false mem.old t }
    ensures { Walks IsLambda false mem.old mem.new t result }
{
    let v = lambda_view(mem);
    let at = v.capture_args;
    let q = v.captures;
    let args = v.args;
    let body = v.body;
    copy(mem, 0, t.free, at);
    let behind = Task {
        free: t.free + at + t.f - q,
        depth: t.depth - 1,
        ..t
    };
    let made = in_bodyform(&mut mem[q..], behind)?;
    let counter = made.counter;
    rest(mem, at, args, body, made.written, Task { counter, ..t })
}

// A BF whose captures are made, x bytes: the capture args from `at` on go before them, then the args
// as they are, and the body by both rules.
#[cycle(bodies)]
fn rest(
    mem: &mut [u8],
    at: usize,
    args: usize,
    body: usize,
    x: usize,
    t: Task,
) -> Result<Step, Refusal>
    requires { CapturedReady mem.old at args body x t }
    ensures { WalksCaptured mem.old mem.new at args body x t result }
{
    let q = t.free + at;
    let first = Task {
        f: t.f - x,
        depth: CONS_LIMIT,
        ..t
    };
    let renamed = rename_in_cons(&mut mem[at..], first, false)?;
    let w = renamed.written;
    copy(mem, q + t.f, q + w, x);
    let to = q + w + x;
    let n = body - args;
    copy(mem, args, to, n);
    let behind = Task {
        free: to + n - body,
        depth: t.depth - 1,
        counter: renamed.counter,
        ..t
    };
    let last = both(&mut mem[body..], w + x, behind)?;
    let written = at + w + x + n + last.written;
    finished(body + last.read, written, t.f, last.counter)
}
