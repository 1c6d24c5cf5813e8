// The static library that C links: the functions of `exports`, under the names that include/rename.h
// declares, each with its clauses, since C calls each by its name.
#![tactic(auto)]

ghost use Rattle.std.specs.Prelude.{length};
ghost use Rattle.names.specs.CallAnswer.{name_call};
ghost use Rattle.ordering.specs.OrderCall.{order_call};
ghost use Rattle.ordering.specs.OrderMeans.{OrderMeans};
ghost use Rattle.outline.specs.Page.{page_call};
ghost use Rattle.walk.specs.Assigns.{AssignsOrdered};
ghost use Rattle.walk.specs.Calls.{whole_call, children_call, helper_call, whole_visits, children_visits, helper_visits};
ghost use Rattle.exports.specs.Linked.{Answers, Hands, answer_in, refusal_in, read_call, ToldReading};

// Writes the name that `gensym` makes at the front of the result buffer.
#[unsafe(no_mangle)]
pub extern "C" fn rename_name(name: &[u8], counter: u64, res: &mut [u8], told: &mut [u64; 4]) -> u32
    ensures { Answers (name_call name.now counter res.old) result told.new res.new }
{
    exports::name::rename_name(name, counter, res, told)
}

// Writes the order of an assign's bindings at the front of the result buffer, or, at a deadlock,
// the stuck ones.
#[unsafe(no_mangle)]
pub extern "C" fn rename_order(
    f: usize,
    work: &mut [u8],
    counter: u64,
    input: &[u8],
    res: &mut [u8],
    told: &mut [u64; 4],
) -> u32
    ensures hands { Hands order_call f work.old counter input.now res.old result told.new res.new }
    ensures order_means { OrderMeans input.now (answer_in result told.new, res.new) }
{
    exports::order::rename_order(f, work, counter, input, res, told)
}

// Renames a CF and all in it: its args get new names too.
#[unsafe(no_mangle)]
pub extern "C" fn rename_whole_form(
    f: usize,
    work: &mut [u8],
    counter: u64,
    input: &[u8],
    res: &mut [u8],
    told: &mut [u64; 4],
) -> u32
    ensures hands { Hands whole_call f work.old counter input.now res.old result told.new res.new }
    ensures assigns_ordered { AssignsOrdered f (whole_visits f (length work.old) counter input.now) (refusal_in result told.new) }
{
    exports::forms::rename_whole_form(f, work, counter, input, res, told)
}

// Renames what stands in a CF, and keeps its args.
#[unsafe(no_mangle)]
pub extern "C" fn rename_children_only(
    f: usize,
    work: &mut [u8],
    counter: u64,
    input: &[u8],
    res: &mut [u8],
    told: &mut [u64; 4],
) -> u32
    ensures hands { Hands children_call f work.old counter input.now res.old result told.new res.new }
    ensures assigns_ordered { AssignsOrdered f (children_visits f (length work.old) counter input.now) (refusal_in result told.new) }
{
    exports::forms::rename_children_only(f, work, counter, input, res, told)
}

// Renames an H record and all in it.
#[unsafe(no_mangle)]
pub extern "C" fn rename_single_helper(
    f: usize,
    work: &mut [u8],
    counter: u64,
    input: &[u8],
    res: &mut [u8],
    told: &mut [u64; 4],
) -> u32
    ensures hands { Hands helper_call f work.old counter input.now res.old result told.new res.new }
    ensures assigns_ordered { AssignsOrdered f (helper_visits f (length work.old) counter input.now) (refusal_in result told.new) }
{
    exports::forms::rename_single_helper(f, work, counter, input, res, told)
}

// Writes the page of a CF at the front of the result buffer. There is no counter.
#[unsafe(no_mangle)]
pub extern "C" fn rename_page(
    f: usize,
    work: &mut [u8],
    input: &[u8],
    res: &mut [u8],
    told: &mut [u64; 4],
) -> u32
    ensures { Answers (page_call f (length work.old) input.now res.old) result told.new res.new }
{
    exports::page::rename_page(f, work, input, res, told)
}

// Reads an input: the refusal's number, or 0, and its place.
#[unsafe(no_mangle)]
pub extern "C" fn rename_read(kind: u8, input: &[u8], f: usize, place: &mut u64) -> u32
    ensures { ToldReading (read_call kind f input.now) result place.new }
{
    exports::read::rename_read(kind, input, f, place)
}
