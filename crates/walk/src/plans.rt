// How an S record is substituted, by its kind and its head. Where the head starts comes from one view and
// goes into one plan: a struct that says so would be made at each call to be taken apart.
ghost use Rattle.std.specs.Prelude.{true, ◌≡◌};
ghost use Rattle.names.specs.Segments.{At};
ghost use Rattle.records.specs.Records.{Sexp, sexp_bytes};
ghost use Rattle.records.specs.Sexps.{nilp};
ghost use Rattle.records.specs.Valid.{SexpFields};
ghost use Rattle.walk.specs.Plans.{Plans, PlansPair, IsAtom, SeesOnly, HeadAt, SeesOnlyOfTail, substitution};
ghost use Rattle.walk.specs.RenameInCons.{rename_in_cons, rename_in_qq};

use crate::{Plan, Quasi};
use names::bytes::same;
use records::SexpView;
use records::sexps::{all_zero, sexp_view};
use records::skip::skip_sexp;

// Whether the S record that s starts with ends a proper list.
fn nilp(s: &[u8]) -> bool
    ensures { (t : Sexp) → SexpFields t → At s.now 0 (sexp_bytes t) → result ≡ nilp t }
{
    let v = sexp_view(s);
    match v {
        SexpView::Nil(_) => true,
        SexpView::Integer(n) => all_zero(&s[n.start..n.end]),
        SexpView::Text(n) | SexpView::Atom(n) => n.start == n.end,
        SexpView::Pair(_) | SexpView::Unknown => false,
    }
}

// Whether the S record that s starts with is the atom of a word.
fn is_atom(s: &[u8], word: &[u8]) -> bool
    ensures { IsAtom s.now word.now result }
{
    let v = sexp_view(s);
    let SexpView::Atom(n) = v else {
        return false;
    };
    same(&s[n.start..n.end], word)
}

// Where the element starts if the S record that s starts with is a proper list of one.
fn only(s: &[u8]) -> Option<usize>
    ensures { SeesOnly s.now result }
{
    let v = sexp_view(s);
    let SexpView::Pair(head) = v else {
        return None;
    };
    let next = head + skip_sexp(&s[head..]);
    if nilp(&s[next..]) {
        return Some(head);
    }
    None
}

// Where the element starts if the tail of the SC at the start is a proper list of one.
fn single(s: &[u8], head: usize) -> Option<usize>
    requires { HeadAt s.now head }
    ensures { SeesOnlyOfTail s.now result }
{
    let tail = head + skip_sexp(&s[head..]);
    let x = only(&s[tail..])?;
    Some(tail + x)
}

// The plan for an SC inside `qq`.
fn in_qq(s: &[u8], head: usize) -> Plan
    requires { HeadAt s.now head }
    ensures { PlansPair (rename_in_qq true) s.now result }
{
    if is_atom(&s[head..], b"unquote") {
        if let Some(x) = single(s, head) {
            return Plan::Alone(Quasi::Outside, x, skip_sexp(s));
        }
    }
    Plan::Parts
}

// The plan for an SC outside `qq`; with qq, a flag of the Rust, the head `qq` is looked into.
fn in_cons(s: &[u8], head: usize, qq: bool) -> Plan
    requires { HeadAt s.now head }
    ensures { PlansPair (rename_in_cons qq) s.now result }
{
    if is_atom(&s[head..], b"q") {
        return Plan::Kept(skip_sexp(s));
    }
    if is_atom(&s[head..], b"quote") {
        let end = skip_sexp(s);
        return match single(s, head) {
            Some(x) => Plan::Requoted(x, end),
            None => Plan::Kept(end),
        };
    }
    if qq {
        if is_atom(&s[head..], b"qq") {
            let end = skip_sexp(s);
            return match single(s, head) {
                Some(x) => Plan::Alone(Quasi::Inside, x, end),
                None => Plan::Kept(end),
            };
        }
    }
    Plan::Parts
}

// The plan for the S record that s starts with.
pub fn plan_of(s: &[u8], quasi: Quasi) -> Plan
    ensures { Plans (substitution quasi) s.now result }
{
    let v = sexp_view(s);
    let SexpView::Pair(head) = v else {
        return match quasi {
            Quasi::Ignored => Plan::ByMap,
            Quasi::Outside => Plan::ByMap,
            Quasi::Inside => Plan::Kept(skip_sexp(s)),
        };
    };
    match quasi {
        Quasi::Ignored => in_cons(s, head, false),
        Quasi::Outside => in_cons(s, head, true),
        Quasi::Inside => in_qq(s, head),
    }
}
