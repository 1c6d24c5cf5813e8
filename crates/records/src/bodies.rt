// Views of the B records and of BB.
ghost use Rattle.records.specs.Views.{SeesCall, SeesLet, SeesLambda, SeesQuote, SeesValue};

use crate::past::{byte_at, past_bytes, past_head, past_hint, past_keyword};
use crate::skip::{past_record, past_sexp};
use crate::{CallView, Family, Kind, LOC_WIDTH, LambdaView, LetView, MARK_WIDTH};

// A BC.
pub fn call_view(s: &[u8]) -> CallView
    ensures { SeesCall s.now result }
{
    let at = past_head(s);
    let count = byte_at(s, at);
    let first = past_bytes(s, at, 1);
    CallView { count, first }
}

// A BL.
pub fn let_view(s: &[u8]) -> LetView
    ensures { SeesLet s.now result }
{
    let at = past_bytes(s, 0, MARK_WIDTH);
    let kind = Kind::from(byte_at(s, at));
    let loc = past_bytes(s, at, 1);
    let keyword = past_bytes(s, loc, LOC_WIDTH);
    let hint = past_keyword(s, keyword);
    let counted = past_hint(s, hint);
    let count = byte_at(s, counted);
    let first = past_bytes(s, counted, 1);
    LetView {
        kind,
        loc,
        keyword,
        hint,
        count,
        first,
    }
}

// A BF.
pub fn lambda_view(s: &[u8]) -> LambdaView
    ensures { SeesLambda s.now result }
{
    let keyword = past_head(s);
    let capture_args = past_keyword(s, keyword);
    let captures = past_sexp(s, capture_args);
    let args = past_record(Family::Body, s, captures);
    let body = past_sexp(s, args);
    LambdaView {
        keyword,
        capture_args,
        captures,
        args,
        body,
    }
}

// A BQ or a BV: where its S record starts.
pub fn quote_view(s: &[u8]) -> usize
    ensures sees_quote { SeesQuote s.now result }
    ensures sees_value { SeesValue s.now result }
{
    past_bytes(s, 0, MARK_WIDTH)
}
