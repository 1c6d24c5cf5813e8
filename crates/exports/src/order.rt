// The call Order, answered in numbers.
ghost use Rattle.ordering.specs.OrderCall.{order_call};
ghost use Rattle.ordering.specs.OrderMeans.{OrderMeans};
ghost use Rattle.exports.specs.Linked.{answer_in, Hands};

use crate::tell::tell;
use ordering::call::order_call;

// Writes the order of an assign's bindings at the front of the result buffer, or, at a deadlock,
// the stuck ones.
pub fn rename_order(
    f: usize,
    work: &mut [u8],
    counter: u64,
    input: &[u8],
    res: &mut [u8],
    told: &mut [u64; 4],
) -> u32
    ensures hands { Hands order_call f work.old counter input.now res.old result told.new res.new }
    ensures order_means { OrderMeans input.now (answer_in result told.new, res.new) }
{
    let a = order_call(f, work, counter, input, res);
    tell(a, told)
}
