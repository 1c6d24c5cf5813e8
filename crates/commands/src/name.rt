// `rename name NAME COUNTER`: the call Name.
use crate::{refusal, say};
use names::MAX_COUNTER;
use std::io;

// Makes one name, and prints it with the new counter, or the refusal.
pub fn make(out: &impl Print, to: &impl Print, name: &[u8], counter: u64) -> io::Result<()> {
    let mut made = [0u8; names::NAME_LIMIT];
    let answer = names::call::name_call(name, counter, &mut made);
    if let Some(refusal) = answer.refusal {
        return refusal::print(to, refusal, counter > MAX_COUNTER, false);
    }
    let len = answer.len;
    say::text(out, b"name ")?;
    say::name(out, &made[..len])?;
    say::text(out, b"\ncounter ")?;
    say::number(out, answer.counter)?;
    say::text(out, b"\n")
}
