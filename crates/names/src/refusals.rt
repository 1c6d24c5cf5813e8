// Places and refusals, each made in one function, and the numbers by which they are told.
ghost use Rattle.std.specs.Prelude.{◌≡◌, IfSome};
ghost use Rattle.names.specs.Refusals.{place_at, refusing, placeless, reason_number, reason_of, refusal_number, refusal_place};

use crate::{Place, Reason, Refusal};

// The offset of a byte in the input, or the number of a location.
pub fn place_at(start: u64) -> Place
    ensures { result ≡ place_at start }
{
    Place { start }
}

// A refusal's reason and place.
pub fn refusing(reason: Reason, place: Place) -> Refusal
    ensures { result ≡ refusing reason place }
{
    Refusal { reason, place }
}

// A refusal that names no place.
pub fn placeless(reason: Reason) -> Refusal
    ensures { result ≡ placeless reason }
{
    refusing(reason, place_at(0))
}

impl From<Reason> for u32 {
    ghost from_gives = { λ reason result. result ≡ reason_number reason };

    // The number of a reason.
    fn from(reason: Reason) -> u32 {
        match reason {
            Reason::OutOfRange => 1,
            Reason::NotOneRecord => 2,
            Reason::PastLimit => 3,
            Reason::ModInBinding => 4,
            Reason::Deadlock => 5,
            Reason::LongName => 6,
            Reason::LongRecord => 7,
            Reason::ShortBuffer => 8,
            Reason::ShortPage => 9,
        }
    }
}

// The reason of a number, if one has it.
pub fn reason_of(number: u32) -> Option<Reason>
    ensures value { result ≡ reason_of number }
    ensures numbered { IfSome result (λ r. reason_number r ≡ number) }
{
    match number {
        1 => Some(Reason::OutOfRange),
        2 => Some(Reason::NotOneRecord),
        3 => Some(Reason::PastLimit),
        4 => Some(Reason::ModInBinding),
        5 => Some(Reason::Deadlock),
        6 => Some(Reason::LongName),
        7 => Some(Reason::LongRecord),
        8 => Some(Reason::ShortBuffer),
        9 => Some(Reason::ShortPage),
        _ => None,
    }
}

// The number of a refusal; 0 where nothing is refused.
pub fn refusal_number(refusal: Option<Refusal>) -> u32
    ensures { result ≡ refusal_number refusal }
{
    match refusal {
        Some(r) => u32::from(r.reason),
        None => 0,
    }
}

// The place of a refusal; where nothing is refused, the one that no refusal means.
pub fn refusal_place(refusal: Option<Refusal>) -> Place
    ensures { result ≡ refusal_place refusal }
{
    match refusal {
        Some(r) => r.place,
        None => place_at(0),
    }
}
