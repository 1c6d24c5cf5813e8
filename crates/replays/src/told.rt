// What a case tells by a number and a place: a refusal, or that nothing is refused.
ghost use Rattle.std.specs.Prelude.{◌≡◌};
ghost use Rattle.replays.specs.Told.{told};

use names::Refusal;
use names::refusals::{place_at, reason_of, refusing};

// What a case tells: 0 at 0 that nothing is refused, and a number without a reason nothing.
pub fn told(number: u8, place: u64) -> Option<Result<(), Refusal>>
    ensures { result ≡ told number place }
{
    if number == 0 && place == 0 {
        return Some(Ok(()));
    }
    reason_of(u32::from(number)).map(|reason| Err(refusing(reason, place_at(place))))
}
