// S records.
ghost use Rattle.std.specs.Prelude.{◌≡◌, ◌+◌, ◌^◌, ◌<◌, length, take};
ghost use Rattle.records.specs.Records.{mark_width};
ghost use Rattle.records.specs.Read.{cons_rule, sexp_at};
ghost use Rattle.records.specs.Scan.{Reads, Stays, starts, left_in, sexp_mark_of};

use crate::fields::refused;
use crate::{MARK_WIDTH, Scan, SexpMark};
use names::{Reason, Refusal};

// Which mark of an S record stands at the start of s, if any.
#[tactic(auto, unfolding(crate::specs::Scan::mark_index, names::specs::Names::same, names::specs::Names::ascii))]
pub fn sexp_mark(s: &[u8]) -> Option<SexpMark>
    ensures { result ≡ sexp_mark_of (take mark_width s.now) }
{
    match s.first_chunk::<MARK_WIDTH>() {
        Some(b"SA") => Some(SexpMark::Atom),
        Some(b"SC") => Some(SexpMark::Pair),
        Some(b"SN") => Some(SexpMark::Nil),
        Some(b"SI") => Some(SexpMark::Integer),
        Some(b"SQ") => Some(SexpMark::Text),
        _ => None,
    }
}

// S records, and what stands in them.
impl<'a> Scan<'a> {
    // The S record to which a reading has come, at most `depth` SC deep; said of one that starts.
    pub fn sexp(&mut self, mark: usize, depth: usize) -> Result<(), Refusal>
        requires { mark + length self.old.s.now < 2 ^ 64 }
        ensures reads { self.old.at ≡ 0 → Reads (sexp_at depth) mark (starts self.old.s self.old.first) (left_in self.new result) }
        ensures stays { Stays self.old self.new result }
    {
        self.child_sexp(mark, depth)
    }

    // The S record with which the bytes start, as `child_sexp` runs it: where it is refused, the reading
    // may have moved.
    #[cycle(sexps)]
    fn leading_sexp(&mut self, mark: usize, depth: usize) -> Result<(), Refusal>
        requires { mark + length self.old.s.now < 2 ^ 64 }
        ensures { self.old.at ≡ 0 → Reads (sexp_at depth) mark (starts self.old.s self.old.first) (left_in self.new result) }
    {
        self.past_mark(mark)?;
        match sexp_mark(self.s) {
            Some(SexpMark::Nil) => self.loc(mark),
            Some(SexpMark::Pair) => {
                if depth == 0 {
                    return Err(refused(mark, Reason::PastLimit));
                }
                self.pair(mark, depth - 1)
            }
            Some(SexpMark::Integer) => {
                self.loc(mark)?;
                self.integer(mark)
            }
            Some(SexpMark::Text) => {
                self.loc(mark)?;
                self.byte(mark)?;
                self.name(mark)
            }
            Some(SexpMark::Atom) => {
                self.loc(mark)?;
                self.name(mark)
            }
            None => Err(refused(mark, Reason::NotOneRecord)),
        }
    }

    // What stands after the mark of an SC.
    #[cycle(sexps)]
    fn pair(&mut self, mark: usize, depth: usize) -> Result<(), Refusal>
        requires { mark + length self.old.s.now < 2 ^ 64 }
        ensures { Reads (cons_rule (sexp_at depth)) mark self.old (left_in self.new result) }
    {
        self.loc(mark)?;
        self.child_sexp(mark, depth)?;
        self.child_sexp(mark, depth)
    }

    // A child S record. It notes no BM.
    #[cycle(sexps)]
    pub fn child_sexp(&mut self, mark: usize, depth: usize) -> Result<(), Refusal>
        requires { mark + length self.old.s.now < 2 ^ 64 }
        ensures reads { Reads (sexp_at depth) mark self.old (left_in self.new result) }
        ensures stays { Stays self.old self.new result }
    {
        let mut d = Scan {
            s: &self.s[self.at..],
            at: 0,
            first: self.first,
        };
        d.leading_sexp(mark + self.at, depth)?;
        self.at += d.at;
        Ok(())
    }
}
