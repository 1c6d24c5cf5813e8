// The calls Whole form, Children only and Single helper, answered in numbers.
ghost use Rattle.std.specs.Prelude.{length};
ghost use Rattle.walk.specs.Assigns.{AssignsOrdered};
ghost use Rattle.walk.specs.Calls.{whole_call, children_call, helper_call, whole_visits, children_visits, helper_visits};
ghost use Rattle.exports.specs.Linked.{refusal_in, Hands};

use crate::tell::tell;
use walk::call::{children_only, single_helper, whole_form};

// Renames a CF and all in it: its args get new names too.
pub fn rename_whole_form(
    f: usize,
    work: &mut [u8],
    counter: u64,
    input: &[u8],
    res: &mut [u8],
    told: &mut [u64; 4],
) -> u32
    ensures hands { Hands whole_call f work.old counter input.now res.old result told.new res.new }
    ensures assigns_ordered { AssignsOrdered f (whole_visits f (length work.old) counter input.now) (refusal_in result told.new) }
{
    let a = whole_form(f, work, counter, input, res);
    tell(a, told)
}

// Renames what stands in a CF, and keeps its args.
pub fn rename_children_only(
    f: usize,
    work: &mut [u8],
    counter: u64,
    input: &[u8],
    res: &mut [u8],
    told: &mut [u64; 4],
) -> u32
    ensures hands { Hands children_call f work.old counter input.now res.old result told.new res.new }
    ensures assigns_ordered { AssignsOrdered f (children_visits f (length work.old) counter input.now) (refusal_in result told.new) }
{
    let a = children_only(f, work, counter, input, res);
    tell(a, told)
}

// Renames an H record and all in it.
pub fn rename_single_helper(
    f: usize,
    work: &mut [u8],
    counter: u64,
    input: &[u8],
    res: &mut [u8],
    told: &mut [u64; 4],
) -> u32
    ensures hands { Hands helper_call f work.old counter input.now res.old result told.new res.new }
    ensures assigns_ordered { AssignsOrdered f (helper_visits f (length work.old) counter input.now) (refusal_in result told.new) }
{
    let a = single_helper(f, work, counter, input, res);
    tell(a, told)
}
