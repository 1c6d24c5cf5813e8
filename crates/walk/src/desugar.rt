// A sequential let as nested parallel lets, the first binding outermost.
ghost use Rattle.std.specs.Prelude.{◌+◌, ◌≤◌, length};
ghost use Rattle.names.specs.Segments.{Filled};
ghost use Rattle.records.specs.Records.{head_width, body_bytes};
ghost use Rattle.records.specs.declared.Kind.TheVariants.{Sequential};
ghost use Rattle.records.specs.Valid.{IsLet};
ghost use Rattle.walk.specs.Arena.{Asks};
ghost use Rattle.walk.specs.Leaves.{Desugars, Nests, ValidKind, ValidLeft, left_bytes, let_head, let_of};

use crate::Task;
use crate::keep::over_long;
use crate::leaves::keep_body;
use names::Refusal;
use names::bytes::{copy, put};
use records::bodies::let_view;
use records::skip::skip;
use records::{Family, LOC_WIDTH, MARK_WIDTH, Step};

// The bytes of a let of one binding, before the binding: mark, kind, L, K, hint and count.
const LET_HEAD: usize = MARK_WIDTH + 1 + LOC_WIDTH + 3;

// Writes a parallel let of the binding of n bytes at the start of mem to free, up to its body.
fn put_let(mem: &mut [u8], free: usize, n: usize)
    requires head_width_le_n { (head_width ≤ n) × (n ≤ free) }
    requires n_in_bounds { free + (let_head + n) ≤ length mem.old }
    ensures { Filled mem.old mem.new free (let_of mem.old n) (let_head + n) }
{
    let loc = free + MARK_WIDTH + 1;
    put(mem, free, b"BL\x00");
    copy(mem, MARK_WIDTH, loc, LOC_WIDTH);
    put(mem, loc + LOC_WIDTH, b"\x00\x00\x01");
    copy(mem, 0, free + LET_HEAD, n);
}

// Writes the let of each binding that is left around the body behind them.
fn nested(mem: &mut [u8], task: Task, left: u8) -> Result<Step, Refusal>
    requires { Asks left_bytes (ValidLeft left) mem.old task }
    ensures { Nests left mem.old mem.new task result }
{
    if left == 0 {
        return keep_body(mem, task);
    }
    let n = skip(Family::Binding, mem);
    let head = LET_HEAD + n;
    if task.f < head {
        return Err(over_long());
    }
    put_let(mem, task.free, n);
    let inner = Task {
        free: task.free + LET_HEAD,
        f: task.f - head,
        ..task
    };
    let s = nested(&mut mem[n..], inner, left - 1)?;
    Ok(Step {
        read: n + s.read,
        written: head + s.written,
        counter: s.counter,
    })
}

// Desugars the sequential let at the start of mem.
pub fn desugar_sequential_let_bindings(mem: &mut [u8], task: Task) -> Result<Step, Refusal>
    requires { Asks body_bytes (ValidKind (IsLet Sequential)) mem.old task }
    ensures { Desugars mem.old mem.new task result }
{
    let v = let_view(mem);
    let count = v.count;
    let first = v.first;
    let free = task.free - first;
    let s = nested(&mut mem[first..], Task { free, ..task }, count)?;
    Ok(Step {
        read: first + s.read,
        ..s
    })
}
