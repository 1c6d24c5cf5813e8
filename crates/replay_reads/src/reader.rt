// The one place that knows the reader.
ghost use Rattle.std.specs.Prelude.{◌≡◌};
ghost use Rattle.replays.specs.Judging.{Decides};
ghost use Rattle.replay_reads.specs.Reading.{wanted_of, reading};

use names::Refusal;
use records::input::open_input;
use records::{MOST_LONGEST, WORK_FACTOR, Wanted};

// The record that a case's kind asks for.
pub fn wanted(kind: u8) -> Wanted
    ensures { result ≡ wanted_of kind }
{
    match kind {
        0 => Wanted::Form,
        1 => Wanted::Helper,
        _ => Wanted::Assign,
    }
}

// Whether the reader answers a case as it must.
pub fn agrees(wanted: Wanted, f: usize, due: Result<(), Refusal>, input: &[u8]) -> bool
    ensures { Decides result (reading wanted f input.now ≡ due) }
{
    open_input(wanted, f, WORK_FACTOR * MOST_LONGEST, 0, input) == due
}
