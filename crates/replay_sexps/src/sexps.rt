// The one place that knows Invent and Substitute.
ghost use Rattle.std.specs.Prelude.{true, ◌≡◌, ◌+◌, ◌*◌, ◌≤◌, length};
ghost use Rattle.names.specs.Maps.{NameMap};
ghost use Rattle.names.specs.Segments.{At};
ghost use Rattle.records.specs.Records.{Sexp, Form, sexp_bytes};
ghost use Rattle.replays.specs.Judging.{Decides};
ghost use Rattle.replay_sexps.specs.Cases.{Taken, FormIn, SexpsIn, Ready, Holds, due_step, DueGrowth, rule_of, ruled, Renamed, DrawsAsTold, FormsAsTold, InputAsTold};
ghost use Rattle.walk.specs.Arena.{Asks, Held, Substitutes};

use names::Refusal;
use names::bytes::{is_word, put};
use records::bodies::quote_view;
use records::helpers::form_view;
use records::input::open_input;
use records::record::body_mark;
use records::{BodyMark, CONS_LIMIT, MOST_LONGEST, Step, WORK_FACTOR, Wanted};
use replays::{fill, untouched};
use walk::invent::invent_new_names_sexp;
use walk::substitute::{rename_atom, rename_in_cons, rename_in_qq};
use walk::{Growth, Task};

// The length of work memory that is enough for every F.
const WORK: usize = WORK_FACTOR * MOST_LONGEST;

// How many bytes of memory each byte of an input takes, with the map that it can leave.
pub const FACTOR: usize = 4;

// How the S record of a case is substituted: by Substitute, with `qq` looked into, inside `qq`, or
// as an S record alone in a body.
#[derive(Clone, Copy)]
pub enum Rule {
    Substitute,
    IntoQq,
    InsideQq,
    Alone,
}

// What a case gives beside its input, whether each call must refuse, and the counter that it must get.
#[derive(Clone, Copy)]
pub struct Case {
    pub f: usize,
    pub room: usize,
    pub counter: u64,
    pub rule: Rule,
    pub invented: Result<(), Refusal>,
    pub after: u64,
    pub substituted: Result<(), Refusal>,
}

// Where the S record starts that names are drawn from, where the body starts, one byte behind its
// end, and where the S record starts that is substituted.
#[derive(Clone, Copy)]
struct Places {
    pattern: usize,
    body: usize,
    target: usize,
}

// The rule of a number.
pub fn rule_of(number: u8) -> Rule
    ensures { result ≡ rule_of number }
{
    match number {
        0 => Rule::Substitute,
        1 => Rule::IntoQq,
        2 => Rule::InsideQq,
        _ => Rule::Alone,
    }
}

// Fills memory, with the input at its front.
fn load(mem: &mut [u8], input: &[u8])
    requires { length input.now ≤ length mem.old }
    ensures { At mem.new 0 input.now }
{
    fill(mem);
    put(mem, 0, input);
}

// Whether memory holds what it must: the input at its front, what it was filled with from a place up
// to the map, and the map at its end.
fn holds(mem: &[u8], input: &[u8], from: usize, map: &[u8]) -> bool
    ensures { Decides result (Holds mem.now input.now from map.now) }
{
    let Some(top) = mem.len().checked_sub(map.len()) else {
        return false;
    };
    from <= top && is_word(mem, 0, input) && is_word(mem, top, map) && untouched(&mem[from..top])
}

// The step that a case must get: it read and wrote so many bytes and left the counter, or is refused.
fn due_step(
    due: Result<(), Refusal>,
    read: usize,
    written: usize,
    counter: u64,
) -> Result<Step, Refusal>
    ensures { result ≡ due_step due read written counter }
{
    due.map(|()| Step {
        read,
        written,
        counter,
    })
}

// Substitutes the S record at the start of memory by the rule of a case.
fn substitute(rule: Rule, mem: &mut [u8], task: Task) -> Result<Step, Refusal>
    requires { Asks sexp_bytes (Held task.depth) mem.old task }
    ensures { Substitutes (ruled rule) mem.old mem.new task result }
{
    match rule {
        Rule::Substitute => rename_in_cons(mem, task, false),
        Rule::IntoQq => rename_in_cons(mem, task, true),
        Rule::InsideQq => rename_in_qq(mem, task),
        Rule::Alone => rename_atom(mem, task),
    }
}

// Whether Substitute answers as it must: the map of `len` bytes stands at the end of memory.
fn renames(
    c: Case,
    mem: &mut [u8],
    input: &[u8],
    target: usize,
    len: usize,
    map: &[u8],
    wanted: &[u8],
) -> bool
    requires { (t : Sexp) × (m : NameMap) × Ready mem.old (length input.now) target len c.room t m }
    ensures { result ≡ true → Renamed c mem.old (length input.now) target len wanted.now }
{
    let n = input.len();
    let free = n - target;
    let task = Task {
        free,
        map: len,
        f: c.room,
        depth: CONS_LIMIT,
        counter: c.after,
    };
    let step = substitute(c.rule, &mut mem[target..], task);
    step == due_step(c.substituted, free, wanted.len(), c.after)
        && is_word(mem, n, wanted)
        && holds(mem, input, n + c.room, map)
}

// Whether Invent answers as it must, where it is not refused: the counter, the length of the
// pattern, which ends one byte before the body, and the length of the map.
fn same_draw(counter: u64, at: Places, len: usize, drawn: Growth) -> bool
    ensures { Decides result (DueGrowth counter at.pattern at.body len drawn) }
{
    if at.pattern >= at.body {
        return false;
    }
    let end = at.body - at.pattern - 1;
    drawn == Growth { len, counter, end }
}

// Whether both calls answer as they must.
fn draws(c: Case, mem: &mut [u8], input: &[u8], at: Places, map: &[u8], wanted: &[u8]) -> bool
    requires taken { Taken input.now c.counter }
    requires sexps_in { (p : Sexp) × (t : Sexp) × SexpsIn input.now at.pattern at.target p t }
    requires room_in_bounds { 4 * length input.now + c.room ≤ length mem.old }
    ensures { result ≡ true → DrawsAsTold c input.now at.pattern at.target map.now wanted.now }
{
    load(mem, input);
    let pattern = at.pattern;
    match invent_new_names_sexp(&mut mem[pattern..], 0, c.counter, CONS_LIMIT) {
        Err(r) => c.invented == Err(r) && is_word(mem, 0, input),
        Ok(g) => {
            c.invented == Ok(())
                && same_draw(c.after, at, map.len(), g)
                && holds(mem, input, input.len(), map)
                && renames(c, mem, input, at.target, g.len, map, wanted)
        }
    }
}

// Finds the two S records of a form, and lends memory by the length of the input and the room.
fn finds(c: Case, mem: &mut [u8], input: &[u8], map: &[u8], wanted: &[u8]) -> bool
    requires taken { Taken input.now c.counter }
    requires form_in { (f : Form) × FormIn input.now f }
    ensures { result ≡ true → FormsAsTold c input.now map.now wanted.now }
{
    let v = form_view(input);
    let body = v.first;
    if v.count != 0 {
        return false;
    }
    let Some(BodyMark::Value) = body_mark(&input[body..]) else {
        return false;
    };
    let at = Places {
        pattern: v.args,
        body,
        target: body + quote_view(&input[body..]),
    };
    let enough = FACTOR * input.len();
    if enough > mem.len() {
        return false;
    }
    if c.room > mem.len() - enough {
        return false;
    }
    let enough = enough + c.room;
    draws(c, &mut mem[..enough], input, at, map, wanted)
}

// Whether the calls answer a case as they must; its input has to be a form.
pub fn agrees(c: Case, mem: &mut [u8], input: &[u8], map: &[u8], wanted: &[u8]) -> bool
    ensures { result ≡ true → InputAsTold c input.now map.now wanted.now }
{
    match open_input(Wanted::Form, c.f, WORK, c.counter, input) {
        Err(_) => false,
        Ok(()) => finds(c, mem, input, map, wanted),
    }
}
