// Where a field that stands at a place ends, and what stands there. A place goes beside its bytes and not
// in a struct with them: views keep places, and callers have the bytes.
ghost use Rattle.std.specs.Prelude.{◌≡◌, ◌≤◌, length, get_or};
ghost use Rattle.records.specs.Views.{PastHead, SeesCounted, SeesName, SeesInteger, SeesTagged};
ghost use Rattle.records.specs.Parts.{name_part, counted_part, raw_part, optional_part, keyword_part, hint_part, pattern_part, Past, PastBytes};

use crate::skip::past_sexp;
use crate::{HEAD_WIDTH, INTEGER_WIDTH, LOC_WIDTH, NameView, RAW_WIDTH, TaggedView};
use names::NAME_WIDTH;
use names::bytes::number;

// So many bytes; where they are missing, the end of the bytes.
pub fn past_bytes(s: &[u8], at: usize, n: usize) -> usize
    requires { at ≤ length s.now }
    ensures { PastBytes n s.now at result }
{
    if s.len() - at < n {
        return s.len();
    }
    at + n
}

// The mark and the L that a record starts with; where they are missing, the end of the bytes.
pub fn past_head(s: &[u8]) -> usize
    ensures { PastHead s.now result }
{
    if s.len() < HEAD_WIDTH {
        return s.len();
    }
    HEAD_WIDTH
}

// A name.
pub fn past_name(s: &[u8], at: usize) -> usize
    requires { at ≤ length s.now }
    ensures { Past name_part s.now at result }
{
    name_view(s, at).end
}

// A field that is only copied.
pub fn past_raw(s: &[u8], at: usize) -> usize
    requires { at ≤ length s.now }
    ensures { Past raw_part s.now at result }
{
    counted_view(s, at, RAW_WIDTH).end
}

// A byte, with a location behind it from `least` on.
fn past_optional(s: &[u8], at: usize, least: u8) -> usize
    requires { at ≤ length s.now }
    ensures { Past (optional_part least) s.now at result }
{
    let next = past_bytes(s, at, 1);
    if byte_at(s, at) < least {
        return next;
    }
    past_bytes(s, next, LOC_WIDTH)
}

// The optional keyword.
pub fn past_keyword(s: &[u8], at: usize) -> usize
    requires { at ≤ length s.now }
    ensures { Past keyword_part s.now at result }
{
    past_optional(s, at, 1)
}

// The hint of a let.
pub fn past_hint(s: &[u8], at: usize) -> usize
    requires { at ≤ length s.now }
    ensures { Past hint_part s.now at result }
{
    past_optional(s, at, 2)
}

// What a binding binds.
pub fn past_pattern(s: &[u8], at: usize) -> usize
    requires { at ≤ length s.now }
    ensures { Past pattern_part s.now at result }
{
    let v = tagged_view(s, at);
    if v.tag == 0 {
        return past_name(s, v.next);
    }
    past_sexp(s, v.next)
}

// The byte at a place; past the end, 0.
pub fn byte_at(s: &[u8], at: usize) -> u8
    ensures { result ≡ get_or s.now at 0 }
{
    if at >= s.len() {
        return 0;
    }
    s[at]
}

// Bytes that stand at a place after their length of `width` bytes. Where some are missing, none at
// the end of the bytes.
fn counted_view(s: &[u8], at: usize, width: usize) -> NameView
    requires { (at ≤ length s.now) × (width ≤ 8) }
    ensures sees_counted { SeesCounted width s.now at result }
    ensures past { Past (counted_part width) s.now at result.end }
{
    let end = s.len();
    if end - at < width {
        return NameView { start: end, end };
    }
    let start = at + width;
    let n = number(s, at, width);
    if end - start < n {
        return NameView { start: end, end };
    }
    NameView {
        start,
        end: start + n,
    }
}

// The bytes of the name that stands at a place.
pub fn name_view(s: &[u8], at: usize) -> NameView
    requires { at ≤ length s.now }
    ensures { SeesName s.now at result }
{
    counted_view(s, at, NAME_WIDTH)
}

// The bytes of the number that stands at a place.
pub fn integer_view(s: &[u8], at: usize) -> NameView
    requires { at ≤ length s.now }
    ensures { SeesInteger s.now at result }
{
    counted_view(s, at, INTEGER_WIDTH)
}

// A binding's pattern (0: a name, 1: an S record) or a call's tail (0: none, 1: a body) at a place.
pub fn tagged_view(s: &[u8], at: usize) -> TaggedView
    requires { at ≤ length s.now }
    ensures { SeesTagged s.now at result }
{
    let tag = byte_at(s, at);
    let next = past_bytes(s, at, 1);
    TaggedView { tag, next }
}
