//! The exchanges that take a value back, if what the hand saw allows it.
ghost use Rattle.std.specs.Prelude.{◌≡◌, ◌+◌, ◌≤◌, ◌<◌};
ghost use Rattle.morph_base.specs.declared.limits.TheConstants.{MAX};
ghost use Rattle.morph_base.specs.Plans.{op_count};
ghost use Rattle.morph_base.specs.Words.{IsWord};
ghost use Rattle.interleaving_core.specs.Core.{blocked as blocked_at, spread as spread_at};
ghost use Rattle.op_words.specs.Views.{last_op, last_place, spreading, rolling_back};
ghost use Rattle.op_words.specs.Stepping.{Swapped};
ghost use Rattle.op_words.specs.Grounds.{HasGroundsToSpread, HasGroundsToRoll};
ghost use Rattle.op_words.specs.Hands.{plan_of, cap_of, view_of, call_on, IsHandOf};

use super::{Board, Hand};
use crate::answers::Counts;
use crate::note::note;
use crate::rule::{Roll, Spread};
use crate::words::spread;
use interleaving_core::CoreEvent;
use morph_base::OpWord;

impl Board {
    /// Exchanges executed for spread at the next attempt, with the value of the target's record. Returns the word that
    /// was found, if it is another one.
    pub(super) fn leave_spread(
        &self,
        hand: &mut Hand,
        op: u32,
        word: OpWord,
        value: u64,
        sibling: u32,
    ) -> Option<OpWord>
        requires hand { IsHandOf self.now hand.old }
        requires in_range { op < op_count (plan_of self.now) }
        requires word { IsWord word }
        requires value { value ≤ MAX }
        requires grounds { HasGroundsToSpread (plan_of self.now) (cap_of self.now) op
            (view_of hand.old) word value }
        requires sibling { sibling ≡ last_op 0 (view_of hand.old).notes }
        ensures { let new = spread_at (word.attempt + 1) value in
            Swapped (call_on self.now hand.old hand.new) op word (spreading op new (view_of hand.old)) new result }
    {
        let (first, new) = (word.pack(), spread(word.attempt + 1, value).pack());
        let found = self
            .table
            .shared
            .compare_exchange::<Spread>(&mut hand.seat, op as usize, first, new);
        if found == first {
            hand.counts = hand.counts.and(Counts {
                evaluated: 0,
                spread: 1,
                rolled: 0,
            });
            note(&mut hand.journal, CoreEvent::Spread { op, sibling });
            return None;
        }
        let Some(word) = OpWord::unpack(found) else {
            unreachable!()
        };
        Some(word)
    }

    /// Exchanges a word with a value for blocked at the next attempt. Returns the word that was found, if it is another
    /// one.
    pub(super) fn leave_blocked(
        &self,
        hand: &mut Hand,
        op: u32,
        word: OpWord,
        j: u8,
    ) -> Option<OpWord>
        requires hand { IsHandOf self.now hand.old }
        requires in_range { op < op_count (plan_of self.now) }
        requires word { IsWord word }
        requires grounds { HasGroundsToRoll (plan_of self.now) (cap_of self.now) op
            (view_of hand.old) word
            (last_place 0 (view_of hand.old).records) }
        requires place { j ≡ last_place 0 (view_of hand.old).records }
        ensures { Swapped (call_on self.now hand.old hand.new) op word
            (rolling_back op (word.attempt + 1) (view_of hand.old))
            (blocked_at (word.attempt + 1)) result }
    {
        let (first, new) = (word.pack(), OpWord::blocked(word.attempt + 1).pack());
        let found = self
            .table
            .shared
            .compare_exchange::<Roll>(&mut hand.seat, op as usize, first, new);
        if found == first {
            hand.counts = hand.counts.and(Counts {
                evaluated: 0,
                spread: 0,
                rolled: 1,
            });
            note(&mut hand.journal, CoreEvent::RollBack { op, j });
            return None;
        }
        let Some(word) = OpWord::unpack(found) else {
            unreachable!()
        };
        Some(word)
    }
}
