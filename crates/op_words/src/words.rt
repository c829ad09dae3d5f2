//! The numbers in the board's row of words.
ghost use Rattle.std.specs.Prelude.{◌≡◌, ◌≤◌, ◌↔◌, ◌⊎◌, Bool, true, false, IfOk, IsTrue, Option, Some};
ghost use Rattle.morph_base.specs.declared.limits.TheConstants.{MAX};
ghost use Rattle.morph_base.specs.Limits.{most_attempts};
ghost use Rattle.morph_base.specs.Plans.{IsPlan};
ghost use Rattle.morph_base.specs.Words.{is_idle, is_settled, has_run as is_run};
ghost use Rattle.interleaving_core.specs.declared.entry.Record.{Record};
ghost use Rattle.interleaving_core.specs.Core.{record_value, ready as ready_at, claimed as claimed_at};
ghost use Rattle.interleaving_core.specs.Core.{spread as spread_at};
ghost use Rattle.interleaving_core.specs.Core.{settled as settled_at, settled_aborted as aborted_at};
ghost use Rattle.op_words.specs.Layout.{packed_record, packed_decision, AreFirstWords};

use morph_base::{OpState, OpWord, Plan};
use std::alloc::{AllocError, Global};

/// The level word if no level was put there: the greatest u32.
pub(crate) const NO_LEVEL: u64 = 4_294_967_295;

/// How many values a record has room for: 2^44, which is above [`MAX`](morph_base::MAX).
const RECORD_VALUES: u64 = 17_592_186_044_416;

/// The words at the start: each operation is blocked at attempt 1, and nothing is recorded, decided or counted.
pub(crate) fn first_words(alloc: Global, plan: &Plan, counters: u32) -> Result<Vec<u64>, AllocError>
    requires plan { IsPlan plan.now }
    ensures { IfOk result (λ ws. AreFirstWords plan.now counters ws.items) }
{
    let ops = plan.ops.len();
    let level = ops + plan.ops.all_places() + plan.events.len();
    let len = level + 1 + counters as usize;
    let mut words = Vec::with_capacity(alloc, len)?;
    words.resize(ops, OpWord::blocked(1).pack())?;
    words.resize(level, 0)?;
    words.push(NO_LEVEL)?;
    words.resize(len, 0)?;
    Ok(words)
}

/// Whether a word is in a state.
pub(crate) fn is_in(word: OpWord, state: OpState) -> bool
    ensures { IsTrue result ↔ (word.state ≡ state) }
{
    word.state == state
}

/// Whether two words are the same.
pub(crate) fn is_same(word: OpWord, other: OpWord) -> bool
    ensures { IsTrue result ↔ (word ≡ other) }
{
    word == other
}

/// Whether an operation's function has run: the word is executed or failed.
pub(crate) fn has_run(word: OpWord) -> bool
    ensures { result ≡ is_run word.state }
{
    matches!(word.state, OpState::Executed | OpState::Failed)
}

/// Whether the value of a word may be read: the word has one, and at the last attempt it is settled.
pub(crate) fn is_usable(word: OpWord, at_last: bool) -> bool
    ensures usable { IsTrue result → (is_idle word.state ≡ false)
        × (at_last ≡ true → is_settled word.state ≡ true) }
    ensures unusable { result ≡ false → (is_settled word.state ≡ false)
        × ((is_idle word.state ≡ true) ⊎ (at_last ≡ true)) }
{
    if at_last {
        word.state.is_settled()
    } else {
        !word.state.is_idle()
    }
}

/// The word that is ready at this attempt.
pub(crate) fn ready(attempt: u8) -> OpWord
    ensures { result ≡ ready_at attempt }
{
    OpWord {
        value: 0,
        attempt,
        state: OpState::Ready,
        by: 0,
    }
}

/// The word that is claimed at this attempt by the hand of this tag.
pub(crate) fn claimed(attempt: u8, by: u8) -> OpWord
    ensures { result ≡ claimed_at attempt by }
{
    OpWord {
        value: 0,
        attempt,
        state: OpState::Claimed,
        by,
    }
}

/// The word that is spread at this attempt, with this value.
pub(crate) fn spread(attempt: u8, value: u64) -> OpWord
    ensures { result ≡ spread_at attempt value }
{
    OpWord {
        value,
        attempt,
        state: OpState::Spread,
        by: 0,
    }
}

/// A record as one number: bits 0 to 43 are its value, bits 44 to 47 the attempt that recorded it, and bit 48 is 1.
pub(crate) fn pack_record(value: u64, attempt: u8) -> u64
    requires value { value ≤ MAX }
    requires attempt { (1 ≤ attempt) × (attempt ≤ most_attempts) }
    ensures { result ≡ packed_record (Some (record { value = value; attempt = attempt })) }
{
    ready(attempt).pack() + value
}

/// The word that is settled in a committed event, by the hand of this tag.
pub(crate) fn settled(attempt: u8, value: u64, by: u8) -> OpWord
    ensures { result ≡ settled_at attempt value by }
{
    OpWord {
        value,
        attempt,
        state: OpState::Settled,
        by,
    }
}

/// The word that is settled in an aborted event, by the hand of this tag.
pub(crate) fn settled_aborted(attempt: u8, value: u64, by: u8) -> OpWord
    ensures { result ≡ aborted_at attempt value by }
{
    OpWord {
        value,
        attempt,
        state: OpState::SettledAborted,
        by,
    }
}

/// The value of a record that is packed into this number. It is 0 if there is none.
pub(crate) fn value_of_record(n: u64) -> u64
    requires record { (r : Option Record) × (record_value r ≤ MAX) × (n ≡ packed_record r) }
    ensures { (r : Option Record) → record_value r ≤ MAX → n ≡ packed_record r
        → result ≡ record_value r }
{
    n % RECORD_VALUES
}

/// The decision that this number stands for: 0 for none, 1 if the event commits, 2 if it aborts.
pub(crate) fn decision_of(n: u64) -> Option<bool>
    ensures { (d : Option Bool) → n ≡ packed_decision d → result ≡ d }
{
    if n == 0 { None } else { Some(n == 1) }
}

/// The number that stands for a decision.
pub(crate) fn pack_decision(committed: bool) -> u64
    ensures { result ≡ packed_decision (Some committed) }
{
    if committed { 1 } else { 2 }
}
