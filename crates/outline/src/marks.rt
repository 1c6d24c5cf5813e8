// A record by its mark: which record it is, and the fields that follow.
ghost use Rattle.std.specs.Prelude.{◌≡◌, take};
ghost use Rattle.records.specs.Records.{mark_width};
ghost use Rattle.outline.specs.Shape.{first_mark, fields_of};

use crate::Field::{Byte, Hint, Keyword, Loc, Name, Number, Pattern, Raw, Record, Several, Tail};
use crate::{Field, Mark};
use names::bytes::is_word;
use records::record::{body_mark, helper_mark};
use records::sexp::sexp_mark;
use records::{BodyMark, HelperMark, SexpMark};

// The mark that s starts with, if any.
#[tactic(auto, unfolding(names::specs::Names::ascii))]
pub fn first_mark(s: &[u8]) -> Option<Mark>
    ensures { result ≡ first_mark (take mark_width s.now) }
{
    sexp_mark(s)
        .map(Mark::Sexp)
        .or_else(|| body_mark(s).map(Mark::Body))
        .or_else(|| helper_mark(s).map(Mark::Helper))
        .or_else(|| is_word(s, 0, b"BB").then_some(Mark::Binding))
        .or_else(|| is_word(s, 0, b"CF").then_some(Mark::Form))
}

// The fields that follow a mark.
#[tactic(auto, unfolding(crate::specs::Shape::fields_of))]
pub fn fields_of(mark: Mark) -> &'static [Field]
    ensures { result.now ≡ fields_of mark }
{
    match mark {
        Mark::Sexp(SexpMark::Nil) => &[Loc],
        Mark::Sexp(SexpMark::Pair) => &[Loc, Record, Record],
        Mark::Sexp(SexpMark::Integer) => &[Loc, Number],
        Mark::Sexp(SexpMark::Text) => &[Loc, Byte, Name],
        Mark::Sexp(SexpMark::Atom) => &[Loc, Name],
        Mark::Body(BodyMark::Let) => &[Byte, Loc, Keyword, Hint, Several, Record],
        Mark::Body(BodyMark::Quoted) => &[Record],
        Mark::Body(BodyMark::Value) => &[Record],
        Mark::Body(BodyMark::Call) => &[Loc, Several, Tail],
        Mark::Body(BodyMark::Mod) => &[Loc, Record],
        Mark::Body(BodyMark::Lambda) => &[Loc, Keyword, Record, Record, Record, Record],
        Mark::Helper(HelperMark::Constant) => &[Loc, Name, Raw, Record],
        Mark::Helper(HelperMark::Macro) => &[Loc, Name, Raw, Record, Record],
        Mark::Helper(HelperMark::Function) => &[Loc, Byte, Name, Raw, Record, Record],
        Mark::Helper(HelperMark::Namespace) => &[Loc, Name, Raw, Several],
        Mark::Helper(HelperMark::Reference) => &[Loc, Name, Raw],
        Mark::Binding => &[Loc, Loc, Pattern, Record],
        Mark::Form => &[Loc, Raw, Record, Several, Record],
    }
}
