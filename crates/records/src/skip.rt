// The length of the record that bytes start with, and where the next one starts. Each family has its own
// match: a table of fields, as `outline` has it, would have to be interpreted. That a mark is there is
// tested once, in `skip`; a type that says so would be made for four private functions.
ghost use Rattle.std.specs.Prelude.{◌≤◌, length};
ghost use Rattle.records.specs.Records.{mark_width};
ghost use Rattle.records.specs.Parts.{family_part, fields_part, sexp_part, list_part, many_part, tail_part, named_part, Skips, Past};

use crate::past::{
    byte_at, integer_view, name_view, past_bytes, past_head, past_hint, past_keyword, past_name,
    past_pattern, past_raw, tagged_view,
};
use crate::record::{body_mark, helper_mark};
use crate::sexp::sexp_mark;
use crate::{BodyMark, Family, HelperMark, LOC_WIDTH, MARK_WIDTH, SexpMark};

// The length of the record that s starts with.
#[cycle(skipping)]
pub fn skip(family: Family, s: &[u8]) -> usize
    ensures { Skips (family_part family) s.now result }
{
    if s.len() < MARK_WIDTH {
        return s.len();
    }
    match family {
        Family::Body => body(s),
        Family::Binding => binding(s),
        Family::Helper => helper(s),
        Family::Form => form(s),
    }
}

// A B record, by its mark.
#[cycle(skipping)]
fn body(s: &[u8]) -> usize
    requires { mark_width ≤ length s.now }
    ensures { Skips (family_part Family.Body) s.now result }
{
    let at = past_bytes(s, MARK_WIDTH, LOC_WIDTH);
    match body_mark(s) {
        Some(BodyMark::Let) => {
            let keyword = past_bytes(s, past_bytes(s, MARK_WIDTH, 1), LOC_WIDTH);
            let counted = past_hint(s, past_keyword(s, keyword));
            past_record(Family::Body, s, many(Family::Binding, s, counted))
        }
        Some(BodyMark::Quoted) | Some(BodyMark::Value) => past_sexp(s, MARK_WIDTH),
        Some(BodyMark::Call) => tail(s, many(Family::Body, s, at)),
        Some(BodyMark::Mod) => past_record(Family::Form, s, at),
        Some(BodyMark::Lambda) => {
            let captures = past_sexp(s, past_keyword(s, at));
            let args = past_record(Family::Body, s, captures);
            past_record(Family::Body, s, past_sexp(s, args))
        }
        None => s.len(),
    }
}

// A BB.
#[cycle(skipping)]
fn binding(s: &[u8]) -> usize
    requires { mark_width ≤ length s.now }
    ensures { Skips (family_part Family.Binding) s.now result }
{
    let pattern = past_bytes(s, past_bytes(s, MARK_WIDTH, LOC_WIDTH), LOC_WIDTH);
    past_record(Family::Body, s, past_pattern(s, pattern))
}

// An H record, by its mark.
#[cycle(skipping)]
fn helper(s: &[u8]) -> usize
    requires { mark_width ≤ length s.now }
    ensures { Skips (family_part Family.Helper) s.now result }
{
    let at = past_bytes(s, MARK_WIDTH, LOC_WIDTH);
    match helper_mark(s) {
        Some(HelperMark::Constant) => past_record(Family::Body, s, past_named(s, at)),
        Some(HelperMark::Macro) => { past_record(Family::Form, s, past_sexp(s, past_named(s, at))) }
        Some(HelperMark::Function) => {
            let args = past_named(s, past_bytes(s, at, 1));
            past_record(Family::Body, s, past_sexp(s, args))
        }
        Some(HelperMark::Namespace) => many(Family::Helper, s, past_named(s, at)),
        Some(HelperMark::Reference) => past_named(s, at),
        None => s.len(),
    }
}

// A CF.
#[cycle(skipping)]
fn form(s: &[u8]) -> usize
    requires { mark_width ≤ length s.now }
    ensures { Skips (family_part Family.Form) s.now result }
{
    let args = past_raw(s, past_bytes(s, MARK_WIDTH, LOC_WIDTH));
    let helpers = many(Family::Helper, s, past_sexp(s, args));
    past_record(Family::Body, s, helpers)
}

// Where a count at a place and that many records end.
#[cycle(skipping)]
fn many(family: Family, s: &[u8], at: usize) -> usize
    requires { at ≤ length s.now }
    ensures { Past (many_part (family_part family)) s.now at result }
{
    let n = byte_at(s, at);
    after(family, s, past_bytes(s, at, 1), n)
}

// Where the tail of a call at a place ends.
#[cycle(skipping)]
fn tail(s: &[u8], at: usize) -> usize
    requires { at ≤ length s.now }
    ensures { Past tail_part s.now at result }
{
    let v = tagged_view(s, at);
    if v.tag == 0 {
        return v.next;
    }
    past_record(Family::Body, s, v.next)
}

// Where a name at a place and R end.
fn past_named(s: &[u8], at: usize) -> usize
    requires { at ≤ length s.now }
    ensures { Past named_part s.now at result }
{
    past_raw(s, past_name(s, at))
}

// The length of the S record that s starts with, however deep it is.
pub fn skip_sexp(s: &[u8]) -> usize
    ensures { Skips fields_part s.now result }
{
    let head = past_head(s);
    match sexp_mark(s) {
        Some(SexpMark::Nil) => head,
        Some(SexpMark::Pair) => {
            let tail = head + skip_sexp(&s[head..]);
            tail + skip_sexp(&s[tail..])
        }
        Some(SexpMark::Integer) => integer_view(s, head).end,
        Some(SexpMark::Text) => name_view(s, past_bytes(s, head, 1)).end,
        Some(SexpMark::Atom) => name_view(s, head).end,
        None => s.len(),
    }
}

// Where the record at a place ends.
#[cycle(skipping)]
pub fn past_record(family: Family, s: &[u8], at: usize) -> usize
    requires { at ≤ length s.now }
    ensures { Past (family_part family) s.now at result }
{
    at + skip(family, &s[at..])
}

// Where the S record at a place ends.
pub fn past_sexp(s: &[u8], at: usize) -> usize
    requires { at ≤ length s.now }
    ensures { Past sexp_part s.now at result }
{
    at + skip_sexp(&s[at..])
}

// Where n records, one after the other from a place on, end.
#[cycle(skipping)]
pub fn after(family: Family, s: &[u8], at: usize, n: u8) -> usize
    requires { at ≤ length s.now }
    ensures { Past (list_part (family_part family) n) s.now at result }
{
    let mut end = at;
    for _ in 0..n {
        end = past_record(family, s, end);
    }
    end
}
