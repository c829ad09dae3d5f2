//! Settles operations as their events are decided.
ghost use Rattle.std.specs.Prelude.{◌≡◌, ◌<◌, Bool, true, false, Some, None};
ghost use Rattle.morph_base.specs.Plans.{op_count, event_count, event_of, verdict};
ghost use Rattle.morph_base.specs.Words.{IsWord, is_open};
ghost use Rattle.op_words.specs.declared.trail.View.{View as V};
ghost use Rattle.op_words.specs.Judging.{IsGoodAt, SettleDoes, SettleGoodDoes};
ghost use Rattle.op_words.specs.Comparing.{IsNotedLast, BeginsWithLoad, IsSealed, MaySettleIt};
ghost use Rattle.op_words.specs.Stepping.{Learned};
ghost use Rattle.op_words.specs.Views.{IsDecisionSeen};
ghost use Rattle.op_words.specs.Hands.{call_on, plan_of, cap_of, view_of, IsHandOf, MayBegin};

use super::{Board, Hand};
use crate::answers::{Compared, SettleAnswer};
use crate::note::note;
use crate::rule::Settle;
use crate::words::{is_in, settled, settled_aborted};
use interleaving_core::CoreEvent;
use morph_base::{OpState, OpWord, Plan};

impl Board {
    /// Settles an operation of an event whose decision the hand knows. If the event commits and each record is the
    /// settled value of its source, the operation keeps its own value. If the event aborts, it gets the settled value
    /// of its target's source.
    ///
    /// The call loads the operation's word and the decision; then, place by place, the sources and records that it
    /// needs; and the operation's word again before it says that a record differs. The exchange comes last.
    pub fn settle(&self, hand: &mut Hand, plan: &Plan, op: u32) -> SettleAnswer
        requires may { MayBegin self.now hand.old plan.now op }
        requires decided { (committed : Bool) × IsDecisionSeen (view_of hand.old)
            (event_of plan.now op) committed }
        ensures hand { IsHandOf self.now hand.new }
        ensures answer { SettleDoes plan.now (cap_of self.now) op (view_of hand.old)
            (view_of hand.new) result }
    {
        let word = self.look(hand, op);
        if !word.state.is_open() {
            return SettleAnswer::Not { at: op, word };
        }
        if self.decision(hand, plan, plan.ops.event(op as usize)) {
            self.settle_committed(hand, plan, op, word)
        } else {
            self.settle_aborted(hand, plan, op, word)
        }
    }

    /// The decision on an event, which the hand knows.
    fn decision(&self, hand: &mut Hand, plan: &Plan, event: u32) -> bool
        requires hand { IsHandOf self.now hand.old }
        requires plan { plan.now ≡ plan_of self.now }
        requires in_range { event < event_count plan.now }
        requires decided { (committed : Bool) × IsDecisionSeen (view_of hand.old) event committed }
        ensures { Learned (call_on self.now hand.old hand.new) event (Some result) }
    {
        let Some(committed) = self.learn(hand, plan, event) else {
            unreachable!()
        };
        committed
    }

    /// Settles the operation with this word, if the event commits.
    fn settle_committed(&self, hand: &mut Hand, plan: &Plan, op: u32, word: OpWord) -> SettleAnswer
        requires may { MayBegin self.now hand.old plan.now op }
        requires word { IsWord word }
        requires loaded { IsNotedLast op (view_of hand.old) word }
        requires decided { IsDecisionSeen (view_of hand.old) (event_of plan.now op) true }
        requires commits { verdict plan.now (event_of plan.now op) ≡ true }
        ensures hand { IsHandOf self.now hand.new }
        ensures answer { (v : V) → BeginsWithLoad plan.now op v (view_of hand.old) word
            → SettleDoes plan.now (cap_of self.now) op v (view_of hand.new) result }
    {
        if !is_in(word, OpState::Executed) {
            return SettleAnswer::Not { at: op, word };
        }
        match self.compare(hand, plan, op) {
            Compared::Open(stop) => SettleAnswer::Not {
                at: stop.source,
                word: stop.word,
            },
            Compared::Differs { .. } => {
                let word = self.look(hand, op);
                SettleAnswer::Not { at: op, word }
            }
            Compared::Equal => {
                let new = settled(word.attempt, word.value, hand.tag);
                self.seal(hand, op, word, new)
            }
        }
    }

    /// Settles the operation with this word, if the event aborts.
    fn settle_aborted(&self, hand: &mut Hand, plan: &Plan, op: u32, word: OpWord) -> SettleAnswer
        requires may { MayBegin self.now hand.old plan.now op }
        requires word { IsWord word }
        requires loaded { IsNotedLast op (view_of hand.old) word }
        requires state { is_open word.state ≡ true }
        requires decided { IsDecisionSeen (view_of hand.old) (event_of plan.now op) false }
        ensures hand { IsHandOf self.now hand.new }
        ensures answer { (v : V) → BeginsWithLoad plan.now op v (view_of hand.old) word
            → SettleDoes plan.now (cap_of self.now) op v (view_of hand.new) result }
    {
        match self.source_value(hand, plan, op, 0, true) {
            Err(stop) => SettleAnswer::Not {
                at: stop.source,
                word: stop.word,
            },
            Ok(value) => {
                let new = settled_aborted(word.attempt, value, hand.tag);
                self.seal(hand, op, word, new)
            }
        }
    }

    /// Settles an operation of an event that commits, from the word at which the hand saw it good. It loads nothing:
    /// the answer is [`SettleAnswer::Not`] exactly if the exchange finds another word.
    pub fn settle_good(&self, hand: &mut Hand, plan: &Plan, op: u32, word: OpWord) -> SettleAnswer
        requires may { MayBegin self.now hand.old plan.now op }
        requires good { IsGoodAt plan.now (view_of hand.old) op word }
        requires decided { IsDecisionSeen (view_of hand.old) (event_of plan.now op) true }
        ensures hand { IsHandOf self.now hand.new }
        ensures answer { SettleGoodDoes plan.now op (view_of hand.old)
            (view_of hand.new) word result }
    {
        let sealed = settled(word.attempt, word.value, hand.tag);
        self.seal(hand, op, word, sealed)
    }

    /// Exchanges the word for a settled one.
    fn seal(&self, hand: &mut Hand, op: u32, word: OpWord, new: OpWord) -> SettleAnswer
        requires hand { IsHandOf self.now hand.old }
        requires in_range { op < op_count (plan_of self.now) }
        requires free { (view_of hand.old).claim ≡ None }
        requires word { IsWord word }
        requires new { IsWord new }
        requires grounds { MaySettleIt (plan_of self.now) (view_of hand.old) op word new }
        ensures { IsSealed (call_on self.now hand.old hand.new) op word new result }
    {
        let (first, second) = (word.pack(), new.pack());
        let found = self
            .table
            .shared
            .compare_exchange::<Settle>(&mut hand.seat, op as usize, first, second);
        if found == first {
            note(&mut hand.journal, CoreEvent::Settle { op, by: hand.tag });
            return SettleAnswer::Done(new.value);
        }
        let Some(word) = OpWord::unpack(found) else {
            unreachable!()
        };
        SettleAnswer::Not { at: op, word }
    }
}
