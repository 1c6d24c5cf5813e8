// B, BB, H and CF records.
ghost use Rattle.std.specs.Prelude.{◌≡◌, ◌+◌, ◌^◌, ◌≤◌, ◌<◌, length, take, Ok};
ghost use Rattle.records.specs.Records.{mark_width};
ghost use Rattle.records.specs.Limits.{level_limit};
ghost use Rattle.records.specs.Read.{note, pattern_of, let_after, call_after, mod_after, constant_after, macro_after, function_after, namespace_after, reference_after, kind_of, more_levels, binding_zone, assign_of};
ghost use Rattle.records.specs.Scan.{body_mark_of, helper_mark_of, left_in, reader_of, times_of, many_of, let_of_kind, tail_of, body_after, lambda_within, helper_after, below, in_zone_of, starts, Comes, Reads, Goes};

use crate::fields::refused;
use crate::{BodyMark, CONS_LIMIT, Context, Family, HelperMark, Kind, MARK_WIDTH, Scan, Zone};
use names::bytes::is_word;
use names::{Reason, Refusal};

// Which mark of a B record stands at the start of s, if any.
#[tactic(auto, unfolding(crate::specs::Scan::mark_index, names::specs::Names::same, names::specs::Names::ascii))]
pub fn body_mark(s: &[u8]) -> Option<BodyMark>
    ensures { result ≡ body_mark_of (take mark_width s.now) }
{
    match s.first_chunk::<MARK_WIDTH>() {
        Some(b"BV") => Some(BodyMark::Value),
        Some(b"BC") => Some(BodyMark::Call),
        Some(b"BQ") => Some(BodyMark::Quoted),
        Some(b"BL") => Some(BodyMark::Let),
        Some(b"BF") => Some(BodyMark::Lambda),
        Some(b"BM") => Some(BodyMark::Mod),
        _ => None,
    }
}

// Which mark of an H record stands at the start of s, if any.
#[tactic(auto, unfolding(crate::specs::Scan::mark_index, names::specs::Names::same, names::specs::Names::ascii))]
pub fn helper_mark(s: &[u8]) -> Option<HelperMark>
    ensures { result ≡ helper_mark_of (take mark_width s.now) }
{
    match s.first_chunk::<MARK_WIDTH>() {
        Some(b"HD") => Some(HelperMark::Function),
        Some(b"HC") => Some(HelperMark::Constant),
        Some(b"HM") => Some(HelperMark::Macro),
        Some(b"HN") => Some(HelperMark::Namespace),
        Some(b"HR") => Some(HelperMark::Reference),
        _ => None,
    }
}

// The context n levels further down.
fn down(x: Context, n: usize) -> Context
    requires { n ≤ x.room }
    ensures { result ≡ below n x }
{
    Context {
        room: x.room - n,
        ..x
    }
}

impl From<u8> for Kind {
    ghost from_gives = { λ byte result. result ≡ kind_of byte };

    // The kind that a kind byte means.
    #[tactic(auto, using(crate::proofs::ContextLaws::other_kind), unfolding(crate::specs::Read::kind_of))]
    fn from(byte: u8) -> Kind {
        match byte {
            0 => Kind::Parallel,
            1 => Kind::Sequential,
            _ => Kind::Assign,
        }
    }
}

// How many levels more than one a let takes.
#[tactic(auto, unfolding(crate::specs::Read::more_levels))]
fn more_levels(kind: Kind, n: u8) -> usize
    ensures { result ≡ more_levels kind n }
{
    match kind {
        Kind::Sequential => usize::from(n).saturating_sub(1),
        Kind::Parallel | Kind::Assign => 0,
    }
}

// The context among the bindings of a let.
#[tactic(auto, unfolding(crate::specs::Read::binding_zone))]
fn among(x: Context, kind: Kind) -> Context
    ensures { result ≡ in_zone_of (binding_zone kind x.zone) x }
{
    match (kind, x.zone) {
        (Kind::Assign, Zone::Plain) => Context {
            zone: Zone::InBinding,
            ..x
        },
        _ => x,
    }
}

// The record with which s starts.
pub fn read_record(
    s: &[u8],
    x: Context,
    family: Family,
    first: Option<usize>,
) -> Result<Scan, Refusal>
    requires { x.mark + length s.now < 2 ^ 63 }
    ensures { Goes (reader_of family) x (starts s.entry first) result }
{
    let mut d = Scan { s, at: 0, first };
    d.record(x, family)?;
    Ok(d)
}

// One BL of kind 2 at the start of s.
pub fn assign(s: &[u8], x: Context, first: Option<usize>) -> Result<Scan, Refusal>
    requires s_bound { x.mark + length s.now < 2 ^ 63 }
    requires room_value { x.room ≡ level_limit }
    ensures { Comes assign_of x (starts s.entry first) result }
{
    let mut d = Scan { s, at: 0, first };
    d.past_mark(x.mark)?;
    if !is_word(s, 0, b"BL") {
        return Err(refused(x.mark, Reason::NotOneRecord));
    }
    if d.byte(x.mark)? != 2 {
        return Err(refused(x.mark, Reason::NotOneRecord));
    }
    d.let_after(down(x, 1), Kind::Assign)?;
    Ok(d)
}

// B, BB, H and CF records, and what stands in them.
impl<'a> Scan<'a> {
    // The record with which the bytes start.
    #[cycle(reading)]
    fn record(&mut self, x: Context, family: Family) -> Result<(), Refusal>
        requires { x.mark + length self.old.s.now < 2 ^ 63 }
        ensures { self.old.at ≡ 0 → Goes (reader_of family) x (starts self.old.s self.old.first) (left_in self.new result) }
    {
        match family {
            Family::Body => self.body(x),
            Family::Binding => self.binding(x),
            Family::Helper => self.helper(x),
            Family::Form => self.form(x),
        }
    }

    // A B record.
    #[cycle(reading)]
    fn body(&mut self, x: Context) -> Result<(), Refusal>
        requires { x.mark + length self.old.s.now < 2 ^ 63 }
        ensures { self.old.at ≡ 0 → Goes (reader_of Family.Body) x (starts self.old.s self.old.first) (left_in self.new result) }
    {
        self.past_mark(x.mark)?;
        let Some(kind) = body_mark(self.s) else {
            return Err(refused(x.mark, Reason::NotOneRecord));
        };
        if x.room == 0 {
            return Err(refused(x.mark, Reason::PastLimit));
        }
        let y = down(x, 1);
        match kind {
            BodyMark::Let => self.let_form(y),
            BodyMark::Quoted | BodyMark::Value => self.child_sexp(x.mark, CONS_LIMIT),
            BodyMark::Call => self.call(y),
            BodyMark::Mod => self.mod_form(y),
            BodyMark::Lambda => self.lambda(y),
        }
    }

    // A BB.
    #[cycle(reading)]
    fn binding(&mut self, x: Context) -> Result<(), Refusal>
        requires { x.mark + length self.old.s.now < 2 ^ 63 }
        ensures { self.old.at ≡ 0 → Goes (reader_of Family.Binding) x (starts self.old.s self.old.first) (left_in self.new result) }
    {
        self.past_mark(x.mark)?;
        if !is_word(self.s, 0, b"BB") {
            return Err(refused(x.mark, Reason::NotOneRecord));
        }
        self.loc(x.mark)?;
        self.loc(x.mark)?;
        self.pattern(x.mark)?;
        self.child(x, Family::Body)
    }

    // An H record. Like `body` in form: the marks and what follows them differ.
    #[cycle(reading)]
    fn helper(&mut self, x: Context) -> Result<(), Refusal>
        requires { x.mark + length self.old.s.now < 2 ^ 63 }
        ensures { self.old.at ≡ 0 → Goes (reader_of Family.Helper) x (starts self.old.s self.old.first) (left_in self.new result) }
    {
        self.past_mark(x.mark)?;
        let Some(kind) = helper_mark(self.s) else {
            return Err(refused(x.mark, Reason::NotOneRecord));
        };
        if x.room == 0 {
            return Err(refused(x.mark, Reason::PastLimit));
        }
        let y = down(x, 1);
        match kind {
            HelperMark::Constant => self.constant(y),
            HelperMark::Macro => self.macro_form(y),
            HelperMark::Function => self.function(y),
            HelperMark::Namespace => self.namespace(y),
            HelperMark::Reference => self.reference(x.mark),
        }
    }

    // A CF.
    #[cycle(reading)]
    fn form(&mut self, x: Context) -> Result<(), Refusal>
        requires { x.mark + length self.old.s.now < 2 ^ 63 }
        ensures { self.old.at ≡ 0 → Goes (reader_of Family.Form) x (starts self.old.s self.old.first) (left_in self.new result) }
    {
        self.past_mark(x.mark)?;
        if !is_word(self.s, 0, b"CF") {
            return Err(refused(x.mark, Reason::NotOneRecord));
        }
        if x.room == 0 {
            return Err(refused(x.mark, Reason::PastLimit));
        }
        let y = down(x, 1);
        self.loc(x.mark)?;
        self.raw(x.mark)?;
        self.child_sexp(x.mark, CONS_LIMIT)?;
        self.many(y, Family::Helper)?;
        self.child(y, Family::Body)
    }

    // A child record.
    #[cycle(reading)]
    fn child(&mut self, x: Context, family: Family) -> Result<(), Refusal>
        requires { x.mark + length self.old.s.now < 2 ^ 63 }
        ensures { Goes (reader_of family) x self.old (left_in self.new result) }
    {
        let y = Context {
            mark: x.mark + self.at,
            ..x
        };
        let mut d = Scan {
            s: &self.s[self.at..],
            at: 0,
            first: self.first,
        };
        d.record(y, family)?;
        self.at += d.at;
        self.first = d.first;
        Ok(())
    }

    // n children.
    #[cycle(reading)]
    fn times(&mut self, x: Context, family: Family, n: u8) -> Result<(), Refusal>
        requires { x.mark + length self.old.s.now < 2 ^ 63 }
        ensures { Goes (times_of n family) x self.old (left_in self.new result) }
    {
        for _ in 0..n {
            self.child(x, family)?;
        }
        Ok(())
    }

    // A count, and that many children.
    #[cycle(reading)]
    fn many(&mut self, x: Context, family: Family) -> Result<(), Refusal>
        requires { x.mark + length self.old.s.now < 2 ^ 63 }
        ensures { Goes (many_of family) x self.old (left_in self.new result) }
    {
        let n = self.count(x.mark)?;
        self.times(x, family, n)
    }

    // A Name or a Complex pattern.
    fn pattern(&mut self, mark: usize) -> Result<(), Refusal>
        requires { mark + length self.old.s.now < 2 ^ 64 }
        ensures { Reads pattern_of mark self.old (left_in self.new result) }
    {
        if self.at_most(mark, 1, Reason::NotOneRecord)? == 0 {
            return self.name(mark);
        }
        self.child_sexp(mark, CONS_LIMIT)
    }

    // What stands after the mark of a BL.
    #[cycle(reading)]
    fn let_form(&mut self, x: Context) -> Result<(), Refusal>
        requires { x.mark + length self.old.s.now < 2 ^ 63 }
        ensures { Goes (body_after let_after) x self.old (left_in self.new result) }
    {
        let byte = self.at_most(x.mark, 2, Reason::NotOneRecord)?;
        self.let_after(x, Kind::from(byte))
    }

    // A let after its kind byte.
    #[cycle(reading)]
    fn let_after(&mut self, x: Context, kind: Kind) -> Result<(), Refusal>
        requires { x.mark + length self.old.s.now < 2 ^ 63 }
        ensures { Goes (let_of_kind kind) x self.old (left_in self.new result) }
    {
        self.loc(x.mark)?;
        self.keyword(x.mark)?;
        self.hint(x.mark)?;
        let n = self.count(x.mark)?;
        let more = more_levels(kind, n);
        if x.room < more {
            return Err(refused(x.mark, Reason::PastLimit));
        }
        let y = down(x, more);
        self.times(among(y, kind), Family::Binding, n)?;
        self.child(y, Family::Body)
    }

    // What stands after the mark of a BC.
    #[cycle(reading)]
    fn call(&mut self, x: Context) -> Result<(), Refusal>
        requires { x.mark + length self.old.s.now < 2 ^ 63 }
        ensures { Goes (body_after call_after) x self.old (left_in self.new result) }
    {
        self.loc(x.mark)?;
        self.many(x, Family::Body)?;
        self.tail(x)
    }

    // The tail of a call.
    #[cycle(reading)]
    fn tail(&mut self, x: Context) -> Result<(), Refusal>
        requires { x.mark + length self.old.s.now < 2 ^ 63 }
        ensures { Goes tail_of x self.old (left_in self.new result) }
    {
        if self.at_most(x.mark, 1, Reason::NotOneRecord)? == 0 {
            return Ok(());
        }
        self.child(x, Family::Body)
    }

    // What stands after the mark of a BM.
    #[cycle(reading)]
    fn mod_form(&mut self, x: Context) -> Result<(), Refusal>
        requires { x.mark + length self.old.s.now < 2 ^ 63 }
        ensures { Goes (body_after mod_after) x self.old (left_in self.new result) }
    {
        let y = Context {
            zone: Zone::InMod,
            ..x
        };
        self.note(x);
        self.loc(x.mark)?;
        self.child(y, Family::Form)
    }

    // A BM is met: it is noted if it is the first in a binding body of an assign.
    fn note(&mut self, x: Context)
        ensures { Comes note x self.old (Ok self.new) }
    {
        if let Zone::InBinding = x.zone {
            self.first = self.first.or(Some(x.mark));
        }
    }

    // What stands after the mark of a BF.
    #[cycle(reading)]
    fn lambda(&mut self, x: Context) -> Result<(), Refusal>
        requires { x.mark + length self.old.s.now < 2 ^ 63 }
        ensures { Goes (body_after lambda_within) x self.old (left_in self.new result) }
    {
        if x.lambdas == 0 {
            return Err(refused(x.mark, Reason::PastLimit));
        }
        let y = Context {
            lambdas: x.lambdas - 1,
            ..x
        };
        self.loc(x.mark)?;
        self.keyword(x.mark)?;
        self.child_sexp(x.mark, CONS_LIMIT)?;
        self.child(y, Family::Body)?;
        self.child_sexp(x.mark, CONS_LIMIT)?;
        self.child(y, Family::Body)
    }

    // What stands after the mark of an HR.
    fn reference(&mut self, mark: usize) -> Result<(), Refusal>
        ensures { Reads reference_after mark self.old (left_in self.new result) }
    {
        self.loc(mark)?;
        self.name(mark)?;
        self.raw(mark)
    }

    // What stands after the mark of an HC.
    #[cycle(reading)]
    fn constant(&mut self, x: Context) -> Result<(), Refusal>
        requires { x.mark + length self.old.s.now < 2 ^ 63 }
        ensures { Goes (helper_after constant_after) x self.old (left_in self.new result) }
    {
        self.loc(x.mark)?;
        self.name(x.mark)?;
        self.raw(x.mark)?;
        self.child(x, Family::Body)
    }

    // What stands after the mark of an HM.
    #[cycle(reading)]
    fn macro_form(&mut self, x: Context) -> Result<(), Refusal>
        requires { x.mark + length self.old.s.now < 2 ^ 63 }
        ensures { Goes (helper_after macro_after) x self.old (left_in self.new result) }
    {
        self.loc(x.mark)?;
        self.name(x.mark)?;
        self.raw(x.mark)?;
        self.child_sexp(x.mark, CONS_LIMIT)?;
        self.child(x, Family::Form)
    }

    // What stands after the mark of an HD.
    #[cycle(reading)]
    fn function(&mut self, x: Context) -> Result<(), Refusal>
        requires { x.mark + length self.old.s.now < 2 ^ 63 }
        ensures { Goes (helper_after function_after) x self.old (left_in self.new result) }
    {
        self.loc(x.mark)?;
        self.at_most(x.mark, 1, Reason::NotOneRecord)?;
        self.name(x.mark)?;
        self.raw(x.mark)?;
        self.child_sexp(x.mark, CONS_LIMIT)?;
        self.child(x, Family::Body)
    }

    // What stands after the mark of an HN.
    #[cycle(reading)]
    fn namespace(&mut self, x: Context) -> Result<(), Refusal>
        requires { x.mark + length self.old.s.now < 2 ^ 63 }
        ensures { Goes (helper_after namespace_after) x self.old (left_in self.new result) }
    {
        self.loc(x.mark)?;
        self.name(x.mark)?;
        self.raw(x.mark)?;
        self.many(x, Family::Helper)
    }
}
