// The failed nodes that a line names behind `without`, as a set of nodes.
ghost use Rattle.std.specs.Prelude.{◌≡◌};
ghost use Rattle.script.specs.Failed.{add_number, failed_in, failed_of};

use crate::numbers::decimal_of;
use crate::words::{behind_word, first_word, starts, wordless};
use state::sets;

// A set with one number more, where a node can have it.
#[tactic(auto, unfolding(crate::specs::Failed::add_number))]
fn add_number(failed: u64, u: u64) -> u64
    ensures { result ≡ add_number failed u }
{
    if u < 1 || u > 64 {
        return failed;
    }
    sets::add(failed, u as usize)
}

// The set of the numbers that all words of a text are.
fn failed_in(text: &[u8]) -> Option<u64>
    ensures { result ≡ failed_in text.now }
{
    let mut failed = sets::EMPTY;
    let mut rest = text;
    while !wordless(rest) {
        failed = add_number(failed, decimal_of(first_word(rest))?);
        rest = behind_word(rest);
    }
    Some(failed)
}

// The failed nodes that a text names: none where it has no word, else by `without` and a number at least.
#[tactic(auto, unfolding(crate::specs::Failed::failed_of))]
pub fn failed_of(text: &[u8]) -> Option<u64>
    ensures { result ≡ failed_of text.now }
{
    if wordless(text) {
        return Some(sets::EMPTY);
    }
    let numbers = behind_word(text);
    if !starts(text, b"without") || wordless(numbers) {
        return None;
    }
    failed_in(numbers)
}
