// Substitute: the names of an S record by a map. The record stands at the start of the memory, its
// result goes to `free`, and the map stands at the end.
ghost use Rattle.std.specs.Prelude.{true, ◌+◌, ◌≤◌, length};
ghost use Rattle.names.specs.Names.{name_limit};
ghost use Rattle.records.specs.Records.{head_width, sexp_bytes};
ghost use Rattle.records.specs.Valid.{SexpFields};
ghost use Rattle.records.specs.Views.{SeesSexp};
ghost use Rattle.records.specs.declared.SexpView.TheVariants.{Atom};
ghost use Rattle.walk.specs.Arena.{Asks, Held, Substitutes, Writes, named};
ghost use Rattle.walk.specs.RenameInCons.{rename_atom, rename_in_cons, rename_in_qq};
ghost use Rattle.walk.specs.Plans.{Plans, PairAtStart, substitution};
ghost use Rattle.walk.specs.declared.Plan.TheVariants.{Requoted, Alone};

use crate::keep::{keep, over_long};
use crate::plans::plan_of;
use crate::{Plan, Quasi, Task};
use names::bytes::{copy, put, put_name};
use names::map::lookup;
use names::{NAME_LIMIT, NAME_WIDTH, Refusal};
use records::sexps::sexp_view;
use records::skip::skip_sexp;
use records::{HEAD_WIDTH, LOC_WIDTH, MARK_WIDTH, NameView, SexpView, Step};

// Writes the SA at the start of mem to free, with another name.
fn put_atom(mem: &mut [u8], free: usize, name: &[u8])
    requires name_len_bound { length name.now ≤ name_limit }
    requires head_width_le_free { head_width ≤ free }
    requires name_in_bounds { free + length (named mem.old name.now) ≤ length mem.old }
    ensures { Writes mem.old mem.new free (named mem.old name.now) }
{
    copy(mem, 0, free, HEAD_WIDTH);
    put_name(mem, free + HEAD_WIDTH, name);
}

// An SA, by the map; n is where its name stands.
fn rename_name(mem: &mut [u8], n: NameView, task: Task) -> Result<Step, Refusal>
    requires sees_sexp { SeesSexp mem.old (Atom n) }
    requires asks { Asks sexp_bytes SexpFields mem.old task }
    ensures { Substitutes rename_atom mem.old mem.new task result }
{
    let NameView { start, end } = n;
    let top = mem.len() - task.map;
    let mut name = [0u8; NAME_LIMIT];
    let w = &mem[..];
    let found = lookup(&w[start..end], &w[top..]);
    let k = found.len();
    put(&mut name, 0, found);
    let size = HEAD_WIDTH + NAME_WIDTH + k;
    if task.f < size {
        return Err(over_long());
    }
    put_atom(mem, task.free, &name[..k]);
    Ok(Step {
        read: end,
        written: size,
        counter: task.counter,
    })
}

// An atom alone, by the map; every other S record is kept.
pub fn rename_atom(mem: &mut [u8], task: Task) -> Result<Step, Refusal>
    requires { Asks sexp_bytes SexpFields mem.old task }
    ensures { Substitutes rename_atom mem.old mem.new task result }
{
    let v = sexp_view(mem);
    if let SexpView::Atom(n) = v {
        return rename_name(mem, n, task);
    }
    let n = skip_sexp(mem);
    keep(mem, task, n)
}

// Rebuilds a `(quote v)` whose v starts at `at`: its inner SC and closing SN at the L of v.
fn requote(mem: &mut [u8], task: Task, quasi: Quasi, at: usize, end: usize) -> Result<Step, Refusal>
    requires asks { Asks sexp_bytes SexpFields mem.old task }
    requires plans { Plans (substitution quasi) mem.old (Requoted at end) }
    ensures { Substitutes (substitution quasi) mem.old mem.new task result }
{
    let free = task.free;
    let loc = at + MARK_WIDTH;
    let last = at + skip_sexp(&mem[at..]);
    if task.f < last + HEAD_WIDTH {
        return Err(over_long());
    }
    copy(mem, 0, free, last);
    copy(mem, loc, free + at - LOC_WIDTH, LOC_WIDTH);
    put(mem, free + last, b"SN");
    copy(mem, loc, free + last + MARK_WIDTH, LOC_WIDTH);
    Ok(Step {
        read: end,
        written: last + HEAD_WIDTH,
        counter: task.counter,
    })
}

// The element that starts at `at` alone, by the rule `next`, for a record that ends at `end`.
#[cycle(cons)]
fn alone(
    mem: &mut [u8],
    task: Task,
    quasi: Quasi,
    next: Quasi,
    at: usize,
    end: usize,
) -> Result<Step, Refusal>
    requires asks { Asks sexp_bytes (Held task.depth) mem.old task }
    requires plans { Plans (substitution quasi) mem.old (Alone next at end) }
    ensures { Substitutes (substitution quasi) mem.old mem.new task result }
{
    let inner = Task {
        free: task.free - at,
        depth: task.depth - 1,
        ..task
    };
    let s = rename(&mut mem[at..], inner, next)?;
    Ok(Step { read: end, ..s })
}

// An SC whose parts go on.
#[cycle(cons)]
fn pair(mem: &mut [u8], task: Task, quasi: Quasi) -> Result<Step, Refusal>
    requires asks { Asks sexp_bytes (Held task.depth) mem.old task }
    requires pair_at_start { PairAtStart (substitution quasi) mem.old }
    ensures { Substitutes (substitution quasi) mem.old mem.new task result }
{
    let at = HEAD_WIDTH;
    if task.f < at {
        return Err(over_long());
    }
    copy(mem, 0, task.free, at);
    let depth = task.depth - 1;
    let first = Task {
        f: task.f - at,
        depth,
        ..task
    };
    let h = rename(&mut mem[at..], first, quasi)?;
    let t = at + h.read;
    let q = at + h.written;
    let second = Task {
        free: task.free + q - t,
        f: task.f - q,
        depth,
        counter: h.counter,
        ..task
    };
    let u = rename(&mut mem[t..], second, quasi)?;
    Ok(Step {
        read: t + u.read,
        written: q + u.written,
        counter: u.counter,
    })
}

// The names of the S record at the start of mem by the map.
#[cycle(cons)]
fn rename(mem: &mut [u8], task: Task, quasi: Quasi) -> Result<Step, Refusal>
    requires { Asks sexp_bytes (Held task.depth) mem.old task }
    ensures { Substitutes (substitution quasi) mem.old mem.new task result }
{
    match plan_of(mem, quasi) {
        Plan::Kept(n) => keep(mem, task, n),
        Plan::ByMap => rename_atom(mem, task),
        Plan::Requoted(at, end) => requote(mem, task, quasi, at, end),
        Plan::Alone(next, at, end) => alone(mem, task, quasi, next, at, end),
        Plan::Parts => pair(mem, task, quasi),
    }
}

// Substitute (`rename_in_cons`); with qq, a flag of the Rust, the head `qq` is looked into.
pub fn rename_in_cons(mem: &mut [u8], task: Task, qq: bool) -> Result<Step, Refusal>
    requires { Asks sexp_bytes (Held task.depth) mem.old task }
    ensures { Substitutes (rename_in_cons qq) mem.old mem.new task result }
{
    if qq {
        return rename(mem, task, Quasi::Outside);
    }
    rename(mem, task, Quasi::Ignored)
}

// Inside `qq` (`rename_in_qq`); what an `unquote` holds is looked into by `rename_in_cons` with qq.
pub fn rename_in_qq(mem: &mut [u8], task: Task) -> Result<Step, Refusal>
    requires { Asks sexp_bytes (Held task.depth) mem.old task }
    ensures { Substitutes (rename_in_qq true) mem.old mem.new task result }
{
    rename(mem, task, Quasi::Inside)
}
