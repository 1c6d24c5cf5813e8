// B records that go no level down: kept as they are, or an S record alone by the map.
ghost use Rattle.records.specs.Records.{body_bytes};
ghost use Rattle.records.specs.Valid.{ValidBody};
ghost use Rattle.walk.specs.Arena.{Asks};
ghost use Rattle.walk.specs.Leaves.{InBody, IsQuoted, IsValue, KeepsBody, RenamesWithMark, ValidKind, ValidWithMark, with_mark_bytes};

use crate::Task;
use crate::keep::{keep, over_long};
use crate::substitute::rename_atom;
use names::Refusal;
use names::bytes::copy;
use records::skip::skip;
use records::{Family, MARK_WIDTH, Step};

// Keeps the B record at the start of mem.
pub fn keep_body(mem: &mut [u8], task: Task) -> Result<Step, Refusal>
    requires { Asks body_bytes ValidBody mem.old task }
    ensures { KeepsBody mem.old mem.new task result }
{
    let n = skip(Family::Body, mem);
    keep(mem, task, n)
}

// A mark, and the S record behind it: an atom alone goes by the map.
fn rename_behind_mark(mem: &mut [u8], task: Task) -> Result<Step, Refusal>
    requires { Asks with_mark_bytes ValidWithMark mem.old task }
    ensures { RenamesWithMark mem.old mem.new task result }
{
    if task.f < MARK_WIDTH {
        return Err(over_long());
    }
    copy(mem, 0, task.free, MARK_WIDTH);
    let f = task.f - MARK_WIDTH;
    let s = rename_atom(&mut mem[MARK_WIDTH..], Task { f, ..task })?;
    Ok(Step {
        read: MARK_WIDTH + s.read,
        written: MARK_WIDTH + s.written,
        counter: s.counter,
    })
}

// In-body of a BQ.
pub fn rename_quoted(mem: &mut [u8], task: Task) -> Result<Step, Refusal>
    requires { Asks body_bytes (ValidKind IsQuoted) mem.old task }
    ensures { InBody IsQuoted mem.old mem.new task result }
{
    rename_behind_mark(mem, task)
}

// In-body of a BV.
pub fn rename_value(mem: &mut [u8], task: Task) -> Result<Step, Refusal>
    requires { Asks body_bytes (ValidKind IsValue) mem.old task }
    ensures { InBody IsValue mem.old mem.new task result }
{
    rename_behind_mark(mem, task)
}
