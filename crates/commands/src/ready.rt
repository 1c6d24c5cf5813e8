// Which bindings can stand in a round of an order.
ghost use Rattle.commands.specs.Ready.{TellsReady};

use ordering::NEED_LIMIT;
use ordering::listed::Listed;
use ordering::needs::body_needs;
use ordering::provides::Provided;

// Whether each name that the body at a place needs is provided by one of the bindings `before`, given
// as bits.
pub fn ready(given: &Provided, body: usize, before: u64) -> bool
    ensures { TellsReady given.now body before result }
{
    let s = given.bytes;
    if body > s.len() {
        return false;
    }
    let mut room = [0u64; NEED_LIMIT];
    let mut needs = Listed::new(&mut room);
    body_needs(given, &s[body..], &mut needs);
    needs.listed().iter().all(|need| *need & before != 0)
}
