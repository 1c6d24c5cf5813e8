// A kind of record, read from its word.
ghost use Rattle.std.specs.Prelude.{◌≡◌};
ghost use Rattle.commands.specs.Words.{named_kind};

use crate::say;
use names::bytes::same;
use records::Wanted;

// The kind that an argument names; where it names none, that is said.
pub fn argument(to: &impl Print, word: &[u8]) -> Option<Wanted>
    ensures { result ≡ named_kind word.now }
{
    say::expected(to, parse(word), b"KIND", b"form, helper or assign", word)
}

// The kind that a word names.
pub fn parse(word: &[u8]) -> Option<Wanted>
    ensures { result ≡ named_kind word.now }
{
    if same(word, b"form") {
        return Some(Wanted::Form);
    }
    if same(word, b"helper") {
        return Some(Wanted::Helper);
    }
    if same(word, b"assign") {
        return Some(Wanted::Assign);
    }
    None
}
