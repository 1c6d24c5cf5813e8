// Refusals in words.
ghost use Rattle.std.specs.Prelude.{◌≡◌};
ghost use Rattle.commands.specs.Refusals.{refusal_text, refusal_shown};

use crate::say;
use names::{Reason, Refusal};
use std::io;

// Which kind of place is shown behind the words.
#[derive(Clone, Copy)]
pub enum Shown {
    Offset,
    Location,
}

// The place that belongs to a reason, where one does: to a passed limit not where the input is longer
// than F.
fn place_of(reason: Reason, long: bool) -> Option<Shown>
    ensures { result ≡ refusal_shown reason long }
{
    match reason {
        Reason::PastLimit if long => None,
        Reason::NotOneRecord | Reason::PastLimit | Reason::ModInBinding => Some(Shown::Offset),
        Reason::Deadlock => Some(Shown::Location),
        _ => None,
    }
}

// The words of a reason: what is out of its range is the counter where that is above its limit, and
// the limit that is passed is F where the input is longer.
#[tactic(auto, unfolding(names::specs::Names::ascii))]
fn text_of(reason: Reason, above: bool, long: bool) -> &'static [u8]
    ensures { result.now ≡ refusal_text reason above long }
{
    match reason {
        Reason::OutOfRange if above => b"the counter is above 4294967295",
        Reason::OutOfRange => b"F is not from 64 to 16384",
        Reason::NotOneRecord => b"the input is not exactly one record of the kind asked for",
        Reason::PastLimit if long => b"the input is longer than F",
        Reason::PastLimit => b"a limit of the format is passed",
        Reason::ModInBinding => b"a binding body of an assign has a BM in it",
        Reason::Deadlock => b"the bindings of the assign have no order",
        Reason::LongName => b"a made name would be longer than 255 bytes",
        Reason::LongRecord => b"a record would be longer than F",
        Reason::ShortBuffer | Reason::ShortPage => b"the result buffer is too short",
    }
}

// The line of a refusal: its number, its words, and its place where one is meant.
pub fn print(to: &impl Print, refusal: Refusal, above: bool, long: bool) -> io::Result<()> {
    let reason = refusal.reason;
    say::text(to, b"refused ")?;
    say::number(to, u32::from(reason))?;
    say::text(to, b": ")?;
    say::text(to, text_of(reason, above, long))?;
    match place_of(reason, long) {
        None => {}
        Some(Shown::Offset) => {
            say::text(to, b" at offset ")?;
            say::number(to, refusal.place.start)?;
        }
        Some(Shown::Location) => {
            say::text(to, b", at location ")?;
            say::number(to, refusal.place.start)?;
        }
    }
    say::text(to, b"\n")
}
