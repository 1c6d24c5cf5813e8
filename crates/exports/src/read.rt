// Reading alone, answered in numbers.
ghost use Rattle.std.specs.Prelude.{◌≡◌};
ghost use Rattle.exports.specs.Linked.{read_as, read_call, ToldReading};

use names::refusals::{placeless, refusal_number, refusal_place};
use names::{Reason, Refusal};
use records::input::open_input;
use records::{MOST_LONGEST, WORK_FACTOR, Wanted};

// Reads an input of which a record is wanted.
fn read_as(wanted: Wanted, f: usize, input: &[u8]) -> Result<(), Refusal>
    ensures { result ≡ read_as wanted f input.now }
{
    open_input(wanted, f, WORK_FACTOR * MOST_LONGEST, 0, input)
}

// Reads an input of a kind: 0 a CF, 1 an H record, 2 an assign. A number, since C calls it.
fn read_kind(kind: u8, f: usize, input: &[u8]) -> Result<(), Refusal>
    ensures { result ≡ read_call kind f input.now }
{
    match kind {
        0 => read_as(Wanted::Form, f, input),
        1 => read_as(Wanted::Helper, f, input),
        2 => read_as(Wanted::Assign, f, input),
        _ => Err(placeless(Reason::OutOfRange)),
    }
}

// Reads an input: the refusal's number, or 0, and its place.
pub fn rename_read(kind: u8, input: &[u8], f: usize, place: &mut u64) -> u32
    ensures { ToldReading (read_call kind f input.now) result place.new }
{
    let refusal = read_kind(kind, f, input).err();
    *place = refusal_place(refusal).start;
    refusal_number(refusal)
}
