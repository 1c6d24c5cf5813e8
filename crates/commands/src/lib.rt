// The commands of the program that need no renaming, and what all of them share.
//
// Results go to standard output. What is refused, and what is wrong with an argument or a file, goes
// to the output `to` that a command is given. A write that fails ends the command with its error.
#![tactic(auto)]

pub mod check;
mod columns;
pub mod counter;
pub mod file;
pub mod kind;
pub mod name;
pub mod order;
pub mod page;
mod provided;
mod ready;
pub mod refusal;
pub mod say;
mod waits;

use records::{MOST_LONGEST, WORK_FACTOR};

// The length of work memory that is enough for every F.
pub const WORK: usize = WORK_FACTOR * MOST_LONGEST;
