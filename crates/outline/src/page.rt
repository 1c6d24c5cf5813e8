// The call Page: a form on lines of one width, one record on each, in the sequence of the marks.
ghost use Rattle.std.specs.Prelude.{◌≡◌, ◌≤◌, length, take, get_or};
ghost use Rattle.records.specs.Limits.{most_longest};
ghost use Rattle.records.specs.Records.{mark_width};
ghost use Rattle.outline.specs.Page.{visible, shown, line_parts, page_call};
ghost use Rattle.outline.specs.PageWork.{name_place, PlaceLow, LabelWithin, label_name, LabelsName, Labels, LineAsks, LineWritten, PageAsks, PageWritten};

use crate::entries::entry_at;
use crate::index::index_input;
use crate::marks::first_mark;
use crate::{LINE_WIDTH, Mark, NamePlace};
use names::call::{accepted, refused};
use names::refusals::placeless;
use names::{Answer, Reason};
use records::input::read_input;
use records::past::{byte_at, name_view};
use records::{HEAD_WIDTH, HelperMark, LOC_WIDTH, MARK_WIDTH, NameView, SexpMark, Wanted};

// Where the first name field of a record stands that is its own, if it has one.
#[tactic(auto, unfolding(crate::specs::PageWork::name_place))]
fn name_place(mark: Mark) -> Option<NamePlace>
    ensures value { result ≡ name_place mark }
    ensures place_low { PlaceLow result }
{
    match mark {
        Mark::Sexp(SexpMark::Text) | Mark::Helper(HelperMark::Function) => {
            Some(NamePlace::At(HEAD_WIDTH + 1))
        }
        Mark::Sexp(SexpMark::Atom) | Mark::Helper(_) => Some(NamePlace::At(HEAD_WIDTH)),
        Mark::Binding => Some(NamePlace::Pattern(HEAD_WIDTH + LOC_WIDTH)),
        _ => None,
    }
}

// The name at a place.
fn named(s: &[u8], at: usize) -> Option<NameView>
    ensures { LabelsName s.now at result }
{
    if s.len() < at {
        return None;
    }
    Some(name_view(s, at))
}

// The name of the record that s starts with.
fn label(s: &[u8]) -> Option<NameView>
    ensures { Labels s.now result }
{
    match name_place(first_mark(s)?)? {
        NamePlace::At(at) => named(s, at),
        NamePlace::Pattern(at) if byte_at(s, at) == 0 => named(s, at + 1),
        NamePlace::Pattern(_) => None,
    }
}

// A byte outside 21 to 7E prints as a dot.
#[tactic(auto, unfolding(crate::specs::Page::visible))]
pub fn visible(b: u8) -> u8
    ensures { result ≡ visible b }
{
    match b {
        0x21..=0x7e => b,
        _ => b'.',
    }
}

// The character at a place of a name as it prints, and behind it a space.
#[tactic(auto, using(crate::proofs::Characters::name_characters))]
fn shown_at(s: &[u8], name: Option<NameView>, k: usize) -> u8
    requires { LabelWithin s.now name }
    ensures { result ≡ get_or (shown (label_name s.now name)) k 32 }
{
    match name {
        None if k == 0 => b'-',
        Some(v) if k < v.end - v.start => visible(s[v.start + k]),
        _ => b' ',
    }
}

// The character at a place of the line of the record that s starts with.
fn character(s: &[u8], depth: usize, name: Option<NameView>, i: usize) -> u8
    requires { LabelWithin s.now name × (mark_width ≤ length s.now) × (depth ≤ most_longest) }
    ensures { result ≡ get_or (line_parts depth (take mark_width s.now) (label_name s.now name)) i 32 }
{
    let front = 2 * depth;
    if i < front {
        return b' ';
    }
    let j = i - front;
    if j < MARK_WIDTH {
        return s[j];
    }
    if j == MARK_WIDTH {
        return b' ';
    }
    shown_at(s, name, j - MARK_WIDTH - 1)
}

// Writes the line of the record that s starts with at the start of out.
fn put_line(s: &[u8], depth: usize, out: &mut [u8])
    requires { LineAsks s.now depth out.old }
    ensures { LineWritten s.now depth out.old out.new }
{
    let name = label(s);
    for i in 0..LINE_WIDTH {
        out[i] = character(s, depth, name, i);
    }
    out[LINE_WIDTH] = b'\n';
}

// Writes a line for each of the n entries of an index of the input.
fn lay_out(input: &[u8], entries: &[u8], n: usize, out: &mut [u8])
    requires { PageAsks input.now entries.now n out.old }
    ensures { PageWritten input.now entries.now n out.old out.new }
{
    for k in 0..n {
        let around = entry_at(entries, k).around;
        let line = (LINE_WIDTH + 1) * k;
        put_line(&input[around.offset..], around.depth, &mut out[line..]);
    }
}

// Lays a form out: its lines stand at the front of the result buffer.
pub fn page_call(f: usize, work: &mut [u8], input: &[u8], res: &mut [u8]) -> Answer
    ensures { (result, res.new) ≡ page_call f (length work.old) input.now res.old }
{
    match read_input(Wanted::Form, f, work.len(), 0, input) {
        Err(refusal) => refused(refusal, 0),
        Ok(()) => {
            let c = index_input(input, work);
            let n = c.count;
            let len = (LINE_WIDTH + 1) * n;
            if res.len() < len {
                return refused(placeless(Reason::ShortPage), 0);
            }
            lay_out(input, work, n, res);
            accepted(0, 0, len)
        }
    }
}
