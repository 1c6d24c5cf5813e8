// What a body needs: for each name in its `to_sexp` that some binding of the assign provides, the
// bindings that do, as bits. They are listed behind the needs of the bodies before.
ghost use Rattle.std.specs.Prelude.{true, [], ◌∷◌, ◌≡◌, ◌≤◌, length};
ghost use Rattle.names.specs.Segments.{At};
ghost use Rattle.records.specs.Records.{Sexp, sexp_bytes};
ghost use Rattle.records.specs.Sexps.{truthy};
ghost use Rattle.records.specs.Valid.{SexpFields};
ghost use Rattle.ordering.specs.Listed.{SameRoom};
ghost use Rattle.ordering.specs.Listing.{Names, ListsSexp, ListsBody, ReachesKind, ReachesPattern, ReachesMember, ReachesMembers, ListsCaptured};
ghost use Rattle.ordering.specs.Words.{let_word};

use crate::listed::Listed;
use crate::provides::Provided;
use records::bodies::{call_view, lambda_view, let_view};
use records::past::{name_view, past_bytes, past_head, tagged_view};
use records::record::body_mark;
use records::sexps::{all_zero, sexp_view};
use records::skip::skip;
use records::{BodyMark, Family, Kind, LOC_WIDTH, MARK_WIDTH, SexpView};

// A name, if some binding provides it.
fn word(given: &Provided, name: &[u8], needs: &mut Listed<u64>)
    ensures { Names (name.now ∷ []) given.now needs.old needs.new }
{
    let bits = given.providers(name);
    if bits != 0 {
        needs.push(bits);
    }
}

// The names of the S record at the start of s, and where it ends.
#[cycle(sexp_words)]
fn sexp_needs(given: &Provided, s: &[u8], needs: &mut Listed<u64>) -> usize
    ensures { ListsSexp given.now s.now 0 needs.old needs.new result }
{
    match sexp_view(s) {
        SexpView::Nil(end) => end,
        SexpView::Pair(head) => {
            let tail = child_sexp(given, s, head, needs);
            child_sexp(given, s, tail, needs)
        }
        SexpView::Integer(b) | SexpView::Text(b) | SexpView::Atom(b) => {
            word(given, &s[b.start..b.end], needs);
            b.end
        }
        SexpView::Unknown => s.len(),
    }
}

// The names of the S record at a place, and where it ends.
#[cycle(sexp_words)]
fn child_sexp(given: &Provided, s: &[u8], at: usize, needs: &mut Listed<u64>) -> usize
    requires { at ≤ length s.now }
    ensures { ListsSexp given.now s.now at needs.old needs.new result }
{
    at + sexp_needs(given, &s[at..], needs)
}

// Whether the S record at the start of s is neither nil nor a number zero.
fn truthy(s: &[u8]) -> bool
    ensures { (t : Sexp) → SexpFields t → At s.now 0 (sexp_bytes t) → result ≡ truthy t }
{
    match sexp_view(s) {
        SexpView::Nil(_) => false,
        SexpView::Integer(b) | SexpView::Text(b) | SexpView::Atom(b) => {
            !all_zero(&s[b.start..b.end])
        }
        SexpView::Pair(_) | SexpView::Unknown => true,
    }
}

// The names of the body at the start of s, and where it ends.
#[cycle(body_words)]
pub fn body_needs(given: &Provided, s: &[u8], needs: &mut Listed<u64>) -> usize
    ensures { ListsBody given.now s.now 0 needs.old needs.new result }
{
    match body_mark(s) {
        Some(BodyMark::Let) => let_needs(given, s, needs),
        Some(BodyMark::Quoted) => {
            word(given, b"q", needs);
            child_sexp(given, s, past_bytes(s, 0, MARK_WIDTH), needs)
        }
        Some(BodyMark::Value) => child_sexp(given, s, past_bytes(s, 0, MARK_WIDTH), needs),
        Some(BodyMark::Call) => call_needs(given, s, needs),
        Some(BodyMark::Lambda) => lambda_needs(given, s, needs),
        Some(BodyMark::Mod) | None => skip(Family::Body, s),
    }
}

// The word that `to_sexp` writes for a let.
#[tactic(auto, unfolding(crate::specs::Words::let_word, names::specs::Names::ascii))]
fn let_word(given: &Provided, kind: Kind, needs: &mut Listed<u64>)
    ensures { Names (let_word kind ∷ []) given.now needs.old needs.new }
{
    match kind {
        Kind::Parallel => word(given, b"let", needs),
        Kind::Sequential => word(given, b"let*", needs),
        Kind::Assign => word(given, b"assign", needs),
    }
}

// The names of a BL, and where it ends.
#[cycle(body_words)]
fn let_needs(given: &Provided, s: &[u8], needs: &mut Listed<u64>) -> usize
    ensures { ReachesKind 0 given.now s.now 0 needs.old needs.new result }
{
    let v = let_view(s);
    let_word(given, v.kind, needs);
    let body = times(given, s, true, v.count, v.first, needs);
    child(given, s, false, body, needs)
}

// The names of a BC, and where it ends.
#[cycle(body_words)]
fn call_needs(given: &Provided, s: &[u8], needs: &mut Listed<u64>) -> usize
    ensures { ReachesKind 3 given.now s.now 0 needs.old needs.new result }
{
    let v = call_view(s);
    let tail = times(given, s, false, v.count, v.first, needs);
    let t = tagged_view(s, tail);
    if t.tag == 0 {
        return t.next;
    }
    word(given, b"&rest", needs);
    child(given, s, false, t.next, needs)
}

// The names of a BF, and where it ends: `to_sexp` writes no captures.
#[cycle(body_words)]
fn lambda_needs(given: &Provided, s: &[u8], needs: &mut Listed<u64>) -> usize
    ensures { ReachesKind 5 given.now s.now 0 needs.old needs.new result }
{
    let v = lambda_view(s);
    word(given, b"lambda", needs);
    capture_needs(given, s, v.capture_args, needs);
    let body = child_sexp(given, s, v.args, needs);
    child(given, s, false, body, needs)
}

// The names of the capture args, after `&`.
fn capture_needs(given: &Provided, s: &[u8], at: usize, needs: &mut Listed<u64>)
    requires { at ≤ length s.now }
    ensures room { SameRoom needs.old needs.new }
    ensures lists_captured { ListsCaptured given.now s.now at needs.old needs.new }
{
    if truthy(&s[at..]) {
        word(given, b"&", needs);
        child_sexp(given, s, at, needs);
    }
}

// The names of a BB, and where it ends.
#[cycle(body_words)]
fn binding_needs(given: &Provided, s: &[u8], needs: &mut Listed<u64>) -> usize
    ensures { ReachesMember 0 true given.now s.now 0 needs.old needs.new result }
{
    let pattern = past_bytes(s, past_head(s), LOC_WIDTH);
    let body = pattern_needs(given, s, pattern, needs);
    child(given, s, false, body, needs)
}

// The names of the pattern at a place, and where it ends.
fn pattern_needs(given: &Provided, s: &[u8], at: usize, needs: &mut Listed<u64>) -> usize
    requires { at ≤ length s.now }
    ensures { ReachesPattern given.now s.now at needs.old needs.new result }
{
    let v = tagged_view(s, at);
    if v.tag == 0 {
        let w = name_view(s, v.next);
        word(given, &s[w.start..w.end], needs);
        return w.end;
    }
    child_sexp(given, s, v.next, needs)
}

// The names of the binding or body at a place, and where it ends. None stands at the mark around it;
// on bytes that are no record the test makes the recursion end.
#[cycle(body_words)]
fn child(given: &Provided, s: &[u8], binding: bool, at: usize, needs: &mut Listed<u64>) -> usize
    requires { at ≤ length s.now }
    ensures { ReachesMember 1 binding given.now s.now at needs.old needs.new result }
{
    if at == 0 {
        return 0;
    }
    at + member_needs(given, &s[at..], binding, needs)
}

// The names of the binding or body at the start of s, and where it ends. `binding` says which, and no
// closure does: in a cycle of calls its clauses would have to be written out at each use.
#[cycle(body_words)]
fn member_needs(given: &Provided, s: &[u8], binding: bool, needs: &mut Listed<u64>) -> usize
    ensures { ReachesMember 0 binding given.now s.now 0 needs.old needs.new result }
{
    if binding {
        binding_needs(given, s, needs)
    } else {
        body_needs(given, s, needs)
    }
}

// The names of `count` bindings or bodies from a place on, and where the last ends.
#[cycle(body_words)]
fn times(
    given: &Provided,
    s: &[u8],
    binding: bool,
    count: u8,
    first: usize,
    needs: &mut Listed<u64>,
) -> usize
    requires { first ≤ length s.now }
    ensures { ReachesMembers binding count given.now s.now first needs.old needs.new result }
{
    let mut at = first;
    for _ in 0..count {
        at = child(given, s, binding, at, needs);
    }
    at
}
