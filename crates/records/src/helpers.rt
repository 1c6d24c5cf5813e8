// Views of the H records and of CF. What some have in common is `named` and `with_args`.
ghost use Rattle.std.specs.Prelude.{◌≤◌, length};
ghost use Rattle.records.specs.Views.{PastNamed, PastArgs, SeesForm, SeesFunction, SeesConstant, SeesMacro, SeesNamespace};

use crate::past::{byte_at, past_bytes, past_head, past_name, past_raw};
use crate::skip::past_sexp;
use crate::{ArgsView, FormView, NamedView, NamespaceView};

// A CF.
pub fn form_view(s: &[u8]) -> FormView
    ensures { SeesForm s.now result }
{
    let raw = past_head(s);
    let args = past_raw(s, raw);
    let counted = past_sexp(s, args);
    let count = byte_at(s, counted);
    let first = past_bytes(s, counted, 1);
    FormView {
        raw,
        args,
        count,
        first,
    }
}

// A name at a place, and R.
fn named(s: &[u8], at: usize) -> NamedView
    requires { at ≤ length s.now }
    ensures { PastNamed s.now at result }
{
    let raw = past_name(s, at);
    let next = past_raw(s, raw);
    NamedView {
        name: at,
        raw,
        next,
    }
}

// A name at a place, R, and args.
fn with_args(s: &[u8], at: usize) -> ArgsView
    requires { at ≤ length s.now }
    ensures { PastArgs s.now at result }
{
    let v = named(s, at);
    let args = v.next;
    let next = past_sexp(s, args);
    ArgsView {
        name: v.name,
        raw: v.raw,
        args,
        next,
    }
}

// An HD: its body is what stands next.
pub fn function_view(s: &[u8]) -> ArgsView
    ensures { SeesFunction s.now result }
{
    with_args(s, past_bytes(s, past_head(s), 1))
}

// An HC: its body is what stands next.
pub fn constant_view(s: &[u8]) -> NamedView
    ensures { SeesConstant s.now result }
{
    named(s, past_head(s))
}

// An HM: its CF is what stands next.
pub fn macro_view(s: &[u8]) -> ArgsView
    ensures { SeesMacro s.now result }
{
    with_args(s, past_head(s))
}

// An HN.
pub fn namespace_view(s: &[u8]) -> NamespaceView
    ensures { SeesNamespace s.now result }
{
    let v = named(s, past_head(s));
    let counted = v.next;
    let count = byte_at(s, counted);
    let first = past_bytes(s, counted, 1);
    NamespaceView {
        name: v.name,
        raw: v.raw,
        count,
        first,
    }
}
