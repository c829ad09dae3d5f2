//! A blocked operation is evaluated in one call, which loads each of its sources once.
ghost use Rattle.std.specs.Prelude.{◌≡◌, ℕ, ◌≤◌, ◌↔◌, [], None, IsTrue};
ghost use Rattle.morph_base.specs.Words.{IsWord};
ghost use Rattle.interleaving_core.specs.Core.{blocked as blocked_at, places};
ghost use Rattle.op_words.specs.Attempts.{AttemptDoes};
ghost use Rattle.op_words.specs.Values.{AreUsable, CarryDoes, IsAllLoaded, IsKeptUpTo, TakeUpDoes};
ghost use Rattle.op_words.specs.Views.{Holds};
ghost use Rattle.op_words.specs.Hands.{call_on, cap_of, view_of, fetched_of};
ghost use Rattle.op_words.specs.Hands.{HasHeldValues, IsHandOf, MayBegin, MayCall};

use super::{Board, Hand, Holding};
use crate::answers::{Attempt, Outcome, Stop};
use crate::places::places_of;
use morph_base::{OpWord, Plan, READS};

impl Board {
    /// Whether values that are not settled may be read at this attempt: at each but the last.
    pub fn may_guess(&self, attempt: u8) -> bool
        ensures { IsTrue result ↔ (attempt ≤ cap_of self.now) }
    {
        attempt <= self.cap
    }

    /// Evaluates a blocked operation at this attempt, which is not the last one.
    ///
    /// The call loads the sources, place by place, up to the first one that has no value. If all have one, the
    /// operation is made ready and claimed, these values are recorded, and it is finished, each by one step. That is
    /// what [`ready`](Board::ready), [`claim`](Board::claim), [`fetch`](Board::fetch) and [`finish`](Board::finish) do
    /// one after another, where each source is loaded twice.
    pub fn attempt(&self, hand: &mut Hand, plan: &Plan, op: u32, attempt: u8) -> Attempt
        requires may { MayBegin self.now hand.old plan.now op }
        requires word { IsWord (blocked_at attempt) }
        requires below { attempt ≤ cap_of self.now }
        ensures hand { IsHandOf self.now hand.new }
        ensures answer { AttemptDoes plan.now op attempt (view_of hand.old)
            (view_of hand.new) result }
    {
        let mut found = Holding {
            op,
            attempt,
            count: 0,
            values: [0; READS],
        };
        if let Some(Stop { source, word }) = self.load_all(hand, plan, op, &mut found, false) {
            return Attempt::Blocked { source, word };
        }
        match self.take_up(hand, plan, op, attempt, &found) {
            Ok(outcome) => Attempt::Ran(outcome),
            Err(word) => Attempt::Busy { word },
        }
    }

    /// Makes a blocked operation ready and claims it, records the values that were loaded, and finishes it. Returns the
    /// word that was found in place of the blocked one, or of the ready one, if it is another one.
    #[inline(always)]
    pub(super) fn take_up(
        &self,
        hand: &mut Hand,
        plan: &Plan,
        op: u32,
        attempt: u8,
        found: &Holding,
    ) -> Result<Outcome, OpWord>
        requires may { MayBegin self.now hand.old plan.now op }
        requires word { IsWord (blocked_at attempt) }
        requires fits { HasHeldValues found.now }
        requires all { found.now.count ≡ places plan.now op }
        requires usable { AreUsable plan.now (cap_of self.now) op attempt (view_of hand.old)
            (fetched_of found.now) }
        ensures hand { IsHandOf self.now hand.new }
        ensures free { (view_of hand.new).claim ≡ None }
        ensures answer { TakeUpDoes plan.now op attempt (fetched_of found.now) (view_of hand.old)
            (view_of hand.new) result }
    {
        if let Some(word) = self.make(hand, op, attempt) {
            return Err(word);
        }
        self.carry_out(hand, plan, op, attempt, found)
    }

    /// Claims an operation that was made ready, records the values that were loaded, and finishes it. Returns the word
    /// that was found in place of the ready one, if it is another one.
    #[inline(always)]
    fn carry_out(
        &self,
        hand: &mut Hand,
        plan: &Plan,
        op: u32,
        attempt: u8,
        found: &Holding,
    ) -> Result<Outcome, OpWord>
        requires may { MayBegin self.now hand.old plan.now op }
        requires word { IsWord (blocked_at attempt) }
        requires fits { HasHeldValues found.now }
        requires all { found.now.count ≡ places plan.now op }
        requires usable { AreUsable plan.now (cap_of self.now) op attempt (view_of hand.old)
            (fetched_of found.now) }
        ensures hand { IsHandOf self.now hand.new }
        ensures free { (view_of hand.new).claim ≡ None }
        ensures answer { CarryDoes plan.now op attempt (fetched_of found.now) (view_of hand.old)
            (view_of hand.new) result }
    {
        if let Some(word) = self.hold(hand, op, attempt) {
            return Err(word);
        }
        self.keep_all(hand, plan, op, found);
        Ok(self.finish(hand, plan, op))
    }

    /// Loads each source of an operation and adds its value, place by place, up to the first source that has none, or
    /// that is not settled although it is `needed` settled.
    #[inline(always)]
    pub(super) fn load_all(
        &self,
        hand: &mut Hand,
        plan: &Plan,
        op: u32,
        found: &mut Holding,
        needed: bool,
    ) -> Option<Stop>
        requires may { MayBegin self.now hand.old plan.now op }
        requires fits { HasHeldValues found.old }
        requires none { found.old.count ≡ 0 }
        ensures { IsAllLoaded (call_on self.now hand.old hand.new) plan.now op needed found.old.attempt
            found.new result }
    {
        for j in 0..places_of(plan, op) {
            match self.source_value(hand, plan, op, j, needed) {
                Ok(value) => found.put(value),
                Err(stop) => return Some(stop),
            }
        }
        None
    }

    /// Records values as those of all places of the operation that the hand holds, of which it recorded none yet.
    fn keep_all(&self, hand: &mut Hand, plan: &Plan, op: u32, found: &Holding)
        requires may { MayCall self.now hand.old plan.now op }
        requires fits { HasHeldValues found.now }
        requires all { found.now.count ≡ places plan.now op }
        requires held { (a : ℕ) × Holds (view_of hand.old) op a []
            × AreUsable plan.now (cap_of self.now) op a (view_of hand.old) (fetched_of found.now) }
        ensures { (a : ℕ) → Holds (view_of hand.old) op a []
            → IsKeptUpTo (call_on self.now hand.old hand.new) op a (places plan.now op)
            (fetched_of found.now) }
    {
        for j in 0..places_of(plan, op) {
            self.keep(hand, plan, found.values[j as usize]);
        }
    }
}
