// The call Name, answered in numbers.
ghost use Rattle.names.specs.CallAnswer.{name_call};
ghost use Rattle.exports.specs.Linked.{Answers};

use crate::tell::tell;
use names::call::name_call;

// Writes the name that `gensym` makes at the front of the result buffer.
pub fn rename_name(name: &[u8], counter: u64, res: &mut [u8], told: &mut [u64; 4]) -> u32
    ensures { Answers (name_call name.now counter res.old) result told.new res.new }
{
    let a = name_call(name, counter, res);
    tell(a, told)
}
