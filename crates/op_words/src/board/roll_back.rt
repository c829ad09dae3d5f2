//! Takes values back, because another operation of the event failed or because a source changed.
ghost use Rattle.std.specs.Prelude.{◌≡◌, ◌≢◌, ◌≤◌, ◌<◌, ◌⊎◌, ◌↔◌, true, false, None, IsTrue};
ghost use Rattle.morph_base.specs.declared.word.OpState.TheVariants.{Executed, Spread as IsSpreadState};
ghost use Rattle.morph_base.specs.Words.{is_evaluated};
ghost use Rattle.interleaving_core.specs.Core.{places};
ghost use Rattle.op_words.specs.Retrying.{IsSpreadFrom, SpreadDoes, RollDoes};
ghost use Rattle.op_words.specs.Hands.{cap_of, view_of, IsHandOf, MayBegin};

use super::{Board, Hand};
use crate::answers::{Rolled, Spreaded};
use crate::words::{is_in, is_same};
use morph_base::{OpState, OpWord, Plan};

impl Board {
    /// Spreads the failure of `sibling`, which the hand showed, to another operation of its event. If that is executed
    /// below the cap, it gets its target's record as its value, at its next attempt.
    ///
    /// The call loads the operation's word, its first record, and the word of the sibling. The exchange comes last.
    pub fn spread(&self, hand: &mut Hand, plan: &Plan, op: u32, sibling: u32) -> Spreaded
        requires may { MayBegin self.now hand.old plan.now op }
        requires sibling { IsSpreadFrom plan.now op sibling (view_of hand.old) }
        ensures hand { IsHandOf self.now hand.new }
        ensures answer { SpreadDoes plan.now (cap_of self.now) op (view_of hand.old)
            (view_of hand.new) sibling result }
    {
        let word = self.look(hand, op);
        if !self.may_spread(word) {
            return Spreaded::Not { word };
        }
        let kept = self.recall(hand, plan, op, 0);
        self.look(hand, sibling);
        match self.leave_spread(hand, op, word, kept, sibling) {
            None => Spreaded::Done,
            Some(word) => Spreaded::Not { word },
        }
    }

    /// Whether a word is executed, below the cap.
    fn may_spread(&self, word: OpWord) -> bool
        ensures may { IsTrue result → (word.state ≡ Executed) × (word.attempt < cap_of self.now) }
        ensures not { result ≡ false → (word.state ≢ Executed) ⊎ (cap_of self.now ≤ word.attempt) }
    {
        is_in(word, OpState::Executed) && word.attempt < self.cap
    }

    /// Rolls an operation back to its next attempt, if the record at place `j` is not the value of its source or the
    /// operation's word is spread.
    ///
    /// Below the cap any value of the source that differs from the record is enough. At the cap all sources have to be
    /// settled. They also have to be settled if the word is spread but its record is right.
    ///
    /// The call loads the operation's word, the source's word, and the record; then, if they have to be settled, the
    /// words of all sources. The exchange comes last. Before the call says that the record is right, it loads the
    /// operation's word again.
    pub fn roll_back(&self, hand: &mut Hand, plan: &Plan, op: u32, j: u8) -> Rolled
        requires may { MayBegin self.now hand.old plan.now op }
        requires in_places { j < places plan.now op }
        ensures hand { IsHandOf self.now hand.new }
        ensures answer { RollDoes plan.now (cap_of self.now) op (view_of hand.old)
            (view_of hand.new) j result }
    {
        let word = self.look(hand, op);
        if !self.may_roll(word) {
            return Rolled::Not { at: op, word };
        }
        let value = match self.source_value(hand, plan, op, j, self.is_at_cap(word)) {
            Ok(value) => value,
            Err(stop) => {
                return Rolled::Not {
                    at: stop.source,
                    word: stop.word,
                };
            }
        };
        let kept = self.recall(hand, plan, op, j);
        if is_right(word, kept, value) {
            let now = self.look(hand, op);
            if !is_same(now, word) {
                return Rolled::Not { at: op, word: now };
            }
            return Rolled::Fresh { value };
        }
        let needed = self.needs_settled(word, kept, value);
        if let Some(stop) = self.open_source(hand, plan, op, needed) {
            return Rolled::Not {
                at: stop.source,
                word: stop.word,
            };
        }
        match self.leave_blocked(hand, op, word, j) {
            None => Rolled::Done,
            Some(word) => Rolled::Not { at: op, word },
        }
    }

    /// Whether a word has a value that may be taken back, and is not at the last attempt.
    fn may_roll(&self, word: OpWord) -> bool
        ensures may { IsTrue result → (is_evaluated word.state ≡ true)
            × (word.attempt ≤ cap_of self.now) }
        ensures not { result ≡ false → (is_evaluated word.state ≡ false)
            ⊎ (cap_of self.now < word.attempt) }
    {
        word.state.is_evaluated() && word.attempt <= self.cap
    }

    fn is_at_cap(&self, word: OpWord) -> bool
        ensures { IsTrue result ↔ (word.attempt ≡ cap_of self.now) }
    {
        word.attempt == self.cap
    }

    /// Whether all sources have to be settled before a rollback: they have to at the cap, and if the record is right.
    fn needs_settled(&self, word: OpWord, kept: u64, value: u64) -> bool
        ensures { IsTrue result ↔ ((word.attempt ≡ cap_of self.now) ⊎ (kept ≡ value)) }
    {
        word.attempt == self.cap || kept == value
    }
}

/// Whether a record has the value of its source, and the word is not spread.
fn is_right(word: OpWord, kept: u64, value: u64) -> bool
    ensures right { IsTrue result → (kept ≡ value) × (word.state ≢ IsSpreadState) }
    ensures wrong { result ≡ false → (kept ≢ value) ⊎ (word.state ≡ IsSpreadState) }
{
    kept == value && !is_in(word, OpState::Spread)
}
