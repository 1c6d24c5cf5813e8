// New names for args and patterns: Invent from an empty map, then Substitute by that map, which stays
// at the end of memory. `qq` is the flag that the Rust's `rename_in_cons` has, and is handed on to it.
ghost use Rattle.std.specs.Prelude.{◌≡◌, ◌≤◌};
ghost use Rattle.records.specs.Limits.{cons_limit, most_longest};
ghost use Rattle.records.specs.Records.{sexp_bytes};
ghost use Rattle.walk.specs.Arena.{Asks, Held};
ghost use Rattle.walk.specs.LetWalks.{HeadReady, PutsHead};
ghost use Rattle.walk.specs.NewNames.{names_task, PutsNames, ArgsReady, DrawsArgs, NameReady, DrawsName, PatternReady, DrawsPattern, added};
ghost use Rattle.walk.specs.Scopes.{PatternsReady, DrawsPatterns};
ghost use Rattle.walk.specs.Walking.{let_aside};

use crate::invent::{invent_new_names_sexp, push};
use crate::substitute::rename_in_cons;
use crate::{Drawn, Growth, Made, Task};
use names::bytes::{copy, number};
use names::{NAME_WIDTH, Refusal};
use records::past::past_pattern;
use records::skip::past_record;
use records::{CONS_LIMIT, Family, HEAD_WIDTH, LOC_WIDTH, NameView};

// The bytes of a BB before its pattern.
pub const BINDING_HEAD: usize = HEAD_WIDTH + LOC_WIDTH;

// Draws names for the S record at the start of mem, and writes it by them to free.
pub fn new_args(
    mem: &mut [u8],
    free: usize,
    qq: bool,
    f: usize,
    counter: u64,
) -> Result<Drawn, Refusal>
    requires { ArgsReady mem.old free f counter }
    ensures { DrawsArgs mem.old mem.new free qq f counter result }
{
    let g = invent_new_names_sexp(mem, 0, counter, CONS_LIMIT)?;
    by_names(mem, free, qq, f, g)
}

// The S record at the start of mem by the names that were drawn for it.
fn by_names(mem: &mut [u8], free: usize, qq: bool, f: usize, g: Growth) -> Result<Drawn, Refusal>
    requires { Asks sexp_bytes (Held cons_limit) mem.old (names_task free f g) }
    ensures { PutsNames mem.old mem.new free qq f g result }
{
    let task = Task {
        free,
        map: g.len,
        f,
        depth: CONS_LIMIT,
        counter: g.counter,
    };
    let s = rename_in_cons(mem, task, qq)?;
    Ok(Drawn {
        read: s.read,
        written: s.written,
        map: g.len,
        counter: s.counter,
    })
}

// The same of a Name: `@` draws a number too.
fn new_name(mem: &mut [u8], free: usize, counter: u64) -> Result<Drawn, Refusal>
    requires { NameReady mem.old free counter }
    ensures { DrawsName mem.old mem.new free counter result }
{
    let start = 1 + NAME_WIDTH;
    let end = start + number(mem, 1, NAME_WIDTH);
    let g = push(mem, NameView { start, end }, 0, counter)?;
    let made = g.len - (end - 1);
    let at = mem.len() - made;
    mem[free] = 0;
    copy(mem, at, free + 1, made);
    Ok(Drawn {
        read: end,
        written: 1 + made,
        map: g.len,
        counter: g.counter,
    })
}

// The same of a pattern, which starts with the byte that says its kind.
fn make_binding_unique(
    mem: &mut [u8],
    free: usize,
    f: usize,
    counter: u64,
) -> Result<Drawn, Refusal>
    requires { PatternReady mem.old free f counter }
    ensures { DrawsPattern mem.old mem.new free f counter result }
{
    if mem[0] == 0 {
        return new_name(mem, free, counter);
    }
    mem[free] = 1;
    let d = new_args(&mut mem[1..], free, false, f, counter)?;
    Ok(Drawn {
        read: 1 + d.read,
        written: 1 + d.written,
        ..d
    })
}

// How much the end of memory holds beside the results of a parallel let: its map, and its new patterns.
// Of a single binding both take 4 F at most.
pub fn let_room(count: u8, f: usize) -> usize
    requires { f ≤ most_longest }
    ensures { result ≡ let_aside f count }
{
    if count == 1 {
        return 4 * f;
    }
    5 * f
}

// What a new pattern of w bytes adds to the sum: the S record of a Complex one, nothing for a Name. The
// kind is the byte in the record.
fn summed(kind: u8, w: usize) -> usize
    requires { 1 ≤ w }
    ensures { result ≡ added kind w }
{
    if kind == 0 {
        return 0;
    }
    w - 1
}

// New patterns for the bindings from a place on, written one after the other from `aside` on, and
// their joined map. Each has a map of its own, which stands before those of earlier bindings. Answers
// the bytes of the new patterns, the sum of the Complex ones, the bytes of the map, and the counter.
pub fn make_bindings_unique(
    mem: &mut [u8],
    first: usize,
    count: u8,
    aside: usize,
    t: Task,
) -> Result<Made, Refusal>
    requires { PatternsReady mem.old first count aside t }
    ensures { DrawsPatterns mem.old mem.new first count aside t result }
{
    let mut at = first;
    let mut to = aside;
    let mut sum = 0;
    let mut map = 0;
    let mut counter = t.counter;
    for _ in 0..count {
        let p = at + BINDING_HEAD;
        let top = mem.len() - map;
        let kind = mem[p];
        let d = make_binding_unique(&mut mem[p..top], to - p, t.f - sum, counter)?;
        sum += summed(kind, d.written);
        to += d.written;
        map += d.map;
        counter = d.counter;
        at = past_record(Family::Body, mem, p + d.read);
    }
    Ok(Made {
        written: to - aside,
        sum,
        map,
        counter,
    })
}

// Writes a binding up to its body, and answers how many bytes: with the pattern that is kept aside, or as
// it is. `owning` as in `bodies`, which hands it on.
pub fn put_head(
    mem: &mut [u8],
    at: usize,
    body: usize,
    to: usize,
    aside: usize,
    owning: bool,
) -> usize
    requires { HeadReady mem.old at body to aside owning }
    ensures { PutsHead mem.old mem.new at body to aside owning result }
{
    if owning {
        copy(mem, at, to, BINDING_HEAD);
        let n = past_pattern(mem, aside) - aside;
        copy(mem, aside, to + BINDING_HEAD, n);
        return BINDING_HEAD + n;
    }
    copy(mem, at, to, body - at);
    body - at
}
