// The estimate that a program is asked for by its argument.
ghost use Rattle.std.specs.Prelude.{◌≡◌, ◌≤◌, ℕ, List};
ghost use Rattle.io.specs.Counts.{IsPrefixLen};
ghost use Rattle.printing.specs.Argument.{by_digit, asked_by};

use selection::Estimate;
use std::env::{Env, FillError};

// By the byte of a digit.
fn by_digit(digit: u8) -> Option<Estimate>
    ensures { result ≡ by_digit digit }
{
    match digit {
        b'7' => Some(Estimate::SevenBits),
        b'8' => Some(Estimate::EightBits),
        _ => None,
    }
}

// Of so many words on the command line, the program's name among them, and of the one after it: 7 or 8, the bits that the divider adds of each remainder
// word; none is 8.
pub fn estimate_asked(words: usize, word: &[u8]) -> Option<Estimate>
    ensures { result ≡ asked_by words word.now }
{
    if words < 2 {
        return Some(Estimate::EightBits);
    }
    match word {
        [digit] if words == 2 => by_digit(*digit),
        _ => None,
    }
}

// No program takes more than one argument, so that no more words are counted.
const MANY_WORDS: usize = 3;

// How many words are on the command line, the program's name among them; or three, where there are more.
pub fn word_count<E: Env>(environment: &E) -> usize
    ensures { result ≤ 3 }
{
    (0..MANY_WORDS)
        .find(|i| matches!(environment.arg(*i, &mut []), Err(FillError::NotPresent)))
        .unwrap_or(MANY_WORDS)
}

// Word i of the command line at the start of a lent buffer, and its length. A longer one does not fit, and is none.
pub fn word<E: Env>(environment: &E, i: usize, buffer: &mut [u8]) -> usize
    ensures { IsPrefixLen result buffer.new }
{
    environment.arg(i, buffer).unwrap_or(0)
}

// The estimate that the first argument asks for. A longer word does not fit, and is none.
pub fn argument<E: Env>(environment: &E) -> Option<Estimate>
    ensures { (words : ℕ) × ((text : List ℕ) × (result ≡ asked_by words text)) }
{
    let mut first = [0u8; 1];
    let length = word(environment, 1, &mut first);
    estimate_asked(word_count(environment), &first[..length])
}
