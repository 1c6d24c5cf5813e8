// The fields of a record. Each method goes on from a reading of a record whose mark stands at `mark`; a
// refused reading stays as it is.
ghost use Rattle.std.specs.Prelude.{◌≡◌, ◌≤◌, IfOk};
ghost use Rattle.names.specs.Refusals.{place_at, refusing};
ghost use Rattle.records.specs.ReadFields.{Fault, fault_reason, next, bytes, loc, counted, name, raw_field, integer, at_most, optional_loc, keyword, hint, count, shortest};
ghost use Rattle.records.specs.Records.{mark_width};
ghost use Rattle.records.specs.Scan.{Reads, SameBytes, Stays, left_in, next_byte};

use crate::{COUNT_LIMIT, INTEGER_WIDTH, LOC_WIDTH, MARK_WIDTH, RAW_WIDTH, Scan};
use names::bytes::number;
use names::refusals::{place_at, refusing};
use names::{NAME_WIDTH, Reason, Refusal};

// A refusal, at the record's mark.
pub fn refused(mark: usize, reason: Reason) -> Refusal
    ensures { result ≡ refusing reason (place_at mark) }
{
    // A cast: Rust has no From of usize for u64, and TryFrom would answer an error that cannot come.
    refusing(reason, place_at(mark as u64))
}

// The mark and the fields of a record.
impl<'a> Scan<'a> {
    // The mark of a record.
    pub fn past_mark(&mut self, mark: usize) -> Result<(), Refusal>
        ensures reads { Reads (bytes mark_width) mark self.old (left_in self.new result) }
        ensures stays { Stays self.old self.new result }
    {
        self.bytes(mark, MARK_WIDTH)
    }

    // So many bytes.
    pub fn bytes(&mut self, mark: usize, n: usize) -> Result<(), Refusal>
        ensures reads { Reads (bytes n) mark self.old (left_in self.new result) }
        ensures stays { Stays self.old self.new result }
    {
        if self.s.len() - self.at < n {
            return Err(refused(mark, Reason::NotOneRecord));
        }
        self.at += n;
        Ok(())
    }

    // A location.
    pub fn loc(&mut self, mark: usize) -> Result<(), Refusal>
        ensures reads { Reads loc mark self.old (left_in self.new result) }
        ensures stays { Stays self.old self.new result }
    {
        self.bytes(mark, LOC_WIDTH)
    }

    // A length of `width` bytes, and that many bytes.
    fn counted(&mut self, mark: usize, width: usize) -> Result<(), Refusal>
        requires { width ≤ 8 }
        ensures reads { Reads (counted width) mark self.old (left_in self.new result) }
        ensures stays { Stays self.old self.new result }
    {
        let mut d = *self;
        d.bytes(mark, width)?;
        let n = number(d.s, self.at, width);
        d.bytes(mark, n)?;
        *self = d;
        Ok(())
    }

    // A name.
    pub fn name(&mut self, mark: usize) -> Result<(), Refusal>
        ensures reads { Reads name mark self.old (left_in self.new result) }
        ensures stays { Stays self.old self.new result }
    {
        self.counted(mark, NAME_WIDTH)
    }

    // A field that is only copied.
    pub fn raw(&mut self, mark: usize) -> Result<(), Refusal>
        ensures reads { Reads raw_field mark self.old (left_in self.new result) }
        ensures stays { Stays self.old self.new result }
    {
        self.counted(mark, RAW_WIDTH)
    }

    // One byte.
    pub fn byte(&mut self, mark: usize) -> Result<u8, Refusal>
        ensures reads { Reads next mark self.old (left_in self.new result) }
        ensures byte { IfOk result (λ b. b ≡ next_byte self.old) }
        ensures stays { Stays self.old self.new result }
    {
        let at = self.at;
        self.bytes(mark, 1)?;
        Ok(self.s[at])
    }

    // A byte that is at most `most`; `fault` if not.
    pub fn at_most(&mut self, mark: usize, most: u8, fault: Reason) -> Result<u8, Refusal>
        ensures reads { (f : Fault) → fault_reason f ≡ fault → Reads (at_most f most) mark self.old (left_in self.new result) }
        ensures same { SameBytes self.old (left_in self.new result) }
        ensures byte { IfOk result (λ b. b ≡ next_byte self.old) }
        ensures stays { Stays self.old self.new result }
    {
        let mut d = *self;
        let b = d.byte(mark)?;
        if b > most {
            return Err(refused(mark, fault));
        }
        *self = d;
        Ok(b)
    }

    // A count.
    pub fn count(&mut self, mark: usize) -> Result<u8, Refusal>
        ensures reads { Reads count mark self.old (left_in self.new result) }
        ensures byte { IfOk result (λ n. n ≡ next_byte self.old) }
        ensures stays { Stays self.old self.new result }
    {
        self.at_most(mark, COUNT_LIMIT, Reason::PastLimit)
    }

    // A byte of at most `most`, with a location behind it from `least` on.
    fn optional_loc(&mut self, mark: usize, least: u8, most: u8) -> Result<(), Refusal>
        ensures reads { Reads (optional_loc least most) mark self.old (left_in self.new result) }
        ensures stays { Stays self.old self.new result }
    {
        let mut d = *self;
        if d.at_most(mark, most, Reason::NotOneRecord)? >= least {
            d.loc(mark)?;
        }
        *self = d;
        Ok(())
    }

    // The optional keyword.
    pub fn keyword(&mut self, mark: usize) -> Result<(), Refusal>
        ensures reads { Reads keyword mark self.old (left_in self.new result) }
        ensures stays { Stays self.old self.new result }
    {
        self.optional_loc(mark, 1, 1)
    }

    // The hint of a let.
    pub fn hint(&mut self, mark: usize) -> Result<(), Refusal>
        ensures reads { Reads hint mark self.old (left_in self.new result) }
        ensures stays { Stays self.old self.new result }
    {
        self.optional_loc(mark, 2, 3)
    }

    // A number's bytes after their count: at least one, and no more than it needs.
    pub fn integer(&mut self, mark: usize) -> Result<(), Refusal>
        ensures reads { Reads integer mark self.old (left_in self.new result) }
        ensures stays { Stays self.old self.new result }
    {
        let mut d = *self;
        d.counted(mark, INTEGER_WIDTH)?;
        if !shortest(&d.s[self.at + INTEGER_WIDTH..d.at]) {
            return Err(refused(mark, Reason::NotOneRecord));
        }
        *self = d;
        Ok(())
    }
}

// Whether the signed bytes of a number are as few as they can be.
fn shortest(v: &[u8]) -> bool
    ensures { result ≡ shortest v.now }
{
    if v.len() == 0 {
        return false;
    }
    if v.len() == 1 {
        return true;
    }
    if v[0] == 0 {
        return v[1] >= 128;
    }
    if v[0] == 255 {
        return v[1] < 128;
    }
    true
}
