// Views of the S records.
ghost use Rattle.std.specs.Prelude.{◌≡◌};
ghost use Rattle.records.specs.Sexps.{all_zero};
ghost use Rattle.records.specs.Views.{SeesSexp};

use crate::past::{integer_view, name_view, past_bytes, past_head};
use crate::sexp::sexp_mark;
use crate::{SexpMark, SexpView};

// An S record of any kind.
pub fn sexp_view(s: &[u8]) -> SexpView
    ensures { SeesSexp s.now result }
{
    let head = past_head(s);
    match sexp_mark(s) {
        Some(SexpMark::Nil) => SexpView::Nil(head),
        Some(SexpMark::Pair) => SexpView::Pair(head),
        Some(SexpMark::Integer) => SexpView::Integer(integer_view(s, head)),
        Some(SexpMark::Text) => SexpView::Text(name_view(s, past_bytes(s, head, 1))),
        Some(SexpMark::Atom) => SexpView::Atom(name_view(s, head)),
        None => SexpView::Unknown,
    }
}

// Whether every byte is 00.
pub fn all_zero(s: &[u8]) -> bool
    ensures { result ≡ all_zero s.now }
{
    s.iter().all(|byte| *byte == 0)
}
