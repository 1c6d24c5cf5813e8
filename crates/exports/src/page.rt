// The call Page, answered in numbers.
ghost use Rattle.std.specs.Prelude.{length};
ghost use Rattle.outline.specs.Page.{page_call};
ghost use Rattle.exports.specs.Linked.{Answers};

use crate::tell::tell;
use outline::page::page_call;

// Writes the page of a CF at the front of the result buffer. There is no counter.
pub fn rename_page(
    f: usize,
    work: &mut [u8],
    input: &[u8],
    res: &mut [u8],
    told: &mut [u64; 4],
) -> u32
    ensures { Answers (page_call f (length work.old) input.now res.old) result told.new res.new }
{
    let a = page_call(f, work, input, res);
    tell(a, told)
}
