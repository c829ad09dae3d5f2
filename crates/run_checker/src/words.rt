//! What the words of a line say.
ghost use Rattle.std.specs.Prelude.{◌≡◌, ◌≤◌, drop};
ghost use Rattle.run_checker.specs.Lines.{greatest_id, greatest_small, greatest_value};
ghost use Rattle.run_checker.specs.LineEvents.{number_up_to, decision_said, op_said, pair_said, fetch_said};
ghost use Rattle.run_checker.specs.LineEvents.{decide_said};

use event_reader::{Number, Words, read_number};

/// The greatest value of a line, 10^13.
const GREATEST_VALUE: u64 = 10_000_000_000_000;

/// The number that a word says, if it is at most `greatest`.
fn number_up_to(greatest: u64, word: &[u8]) -> Option<u64>
    requires { greatest ≤ greatest_value }
    ensures { result ≡ number_up_to greatest word.now }
{
    match read_number(word) {
        Number::Value(value) if value <= greatest => Some(value),
        _ => None,
    }
}

/// The number of an operation or an event.
fn id(word: &[u8]) -> Option<u32>
    ensures { result ≡ number_up_to greatest_id word.now }
{
    let number = number_up_to(u32::MAX.into(), word)?;
    Some(number as u32)
}

/// The number of a place or a worker.
fn small(word: &[u8]) -> Option<u8>
    ensures { result ≡ number_up_to greatest_small word.now }
{
    let number = number_up_to(u8::MAX.into(), word)?;
    Some(number as u8)
}

/// Whether an event commits.
fn decision(word: &[u8]) -> Option<bool>
    ensures { result ≡ decision_said word.now }
{
    if word.len() != 1 {
        return None;
    }
    match word[0] {
        b'c' => Some(true),
        b'a' => Some(false),
        _ => None,
    }
}

/// The operation that the words behind the letter say, if there is one word.
pub fn op(words: &Words<'_>) -> Option<u32>
    ensures { result ≡ op_said (drop 1 words.now) }
{
    if words.count() != 2 {
        return None;
    }
    id(words.word(1))
}

/// The operation and the place or worker that the words behind the letter say, if there are two.
pub fn op_and_small(words: &Words<'_>) -> Option<(u32, u8)>
    ensures { result ≡ pair_said greatest_small (drop 1 words.now) }
{
    if words.count() != 3 {
        return None;
    }
    let op = id(words.word(1))?;
    let small = small(words.word(2))?;
    Some((op, small))
}

/// The two operations that the words behind the letter say, if there are two words.
pub fn two_ops(words: &Words<'_>) -> Option<(u32, u32)>
    ensures { result ≡ pair_said greatest_id (drop 1 words.now) }
{
    if words.count() != 3 {
        return None;
    }
    let op = id(words.word(1))?;
    let sibling = id(words.word(2))?;
    Some((op, sibling))
}

/// The operation and the place, and the worker and the value, that the words behind the letter say, if there are four.
pub fn fetched(words: &Words<'_>) -> Option<((u32, u8), (u8, u64))>
    ensures { result ≡ fetch_said (drop 1 words.now) }
{
    if words.count() != 5 {
        return None;
    }
    let op = id(words.word(1))?;
    let j = small(words.word(2))?;
    let by = small(words.word(3))?;
    let value = number_up_to(GREATEST_VALUE, words.word(4))?;
    Some(((op, j), (by, value)))
}

/// The event and its decision that the words behind the letter say, if there are two.
pub fn decided(words: &Words<'_>) -> Option<(u32, bool)>
    ensures { result ≡ decide_said (drop 1 words.now) }
{
    if words.count() != 3 {
        return None;
    }
    let event = id(words.word(1))?;
    let committed = decision(words.word(2))?;
    Some((event, committed))
}
