//! Judges operations by their records and their settled sources.
ghost use Rattle.std.specs.Prelude.{◌<◌};
ghost use Rattle.morph_base.specs.Plans.{op_count};
ghost use Rattle.interleaving_core.specs.Core.{places};
ghost use Rattle.op_words.specs.Judging.{VerdictDoes, VerdictAtDoes};
ghost use Rattle.op_words.specs.Comparing.{IsComparedAt, IsCompared, IsConfirmed, IsJudgedAs};
ghost use Rattle.op_words.specs.Hands.{call_on, plan_of, cap_of, view_of, IsHandOf, MayBegin};

use super::{Board, Hand};
use crate::answers::{Compared, Verdict};
use crate::places::places_of;
use crate::words::{has_run, is_same};
use morph_base::{OpWord, Plan};

impl Board {
    /// Says what an operation's records are worth once its sources are settled.
    ///
    /// The call loads the operation's word; then, place by place and as long as nothing stops it, the source's word and
    /// the record; and then the operation's word again. A value can be rolled back and come again between these loads.
    /// If the two words are equal, the records were those of that word all the time.
    pub fn verdict(&self, hand: &mut Hand, plan: &Plan, op: u32) -> Verdict
        requires may { MayBegin self.now hand.old plan.now op }
        ensures hand { IsHandOf self.now hand.new }
        ensures answer { VerdictDoes plan.now (cap_of self.now) op (view_of hand.old)
            (view_of hand.new) result }
    {
        let (_, verdict) = self.judge(hand, plan, op);
        verdict
    }

    /// Says what an operation's records are worth, as [`Board::verdict`] does, and returns the word of it that was
    /// loaded last. A good operation can be [settled](Board::settle_good) from that word.
    pub fn verdict_at(&self, hand: &mut Hand, plan: &Plan, op: u32) -> (OpWord, Verdict)
        requires may { MayBegin self.now hand.old plan.now op }
        ensures hand { IsHandOf self.now hand.new }
        ensures answer { VerdictAtDoes plan.now (cap_of self.now) op (view_of hand.old)
            (view_of hand.new) result.0 result.1 }
    {
        self.judge(hand, plan, op)
    }

    /// Returns the verdict on an operation, and the word of it that was loaded last.
    pub(super) fn judge(&self, hand: &mut Hand, plan: &Plan, op: u32) -> (OpWord, Verdict)
        requires may { MayBegin self.now hand.old plan.now op }
        ensures { IsJudgedAs (call_on self.now hand.old hand.new) plan.now (cap_of self.now) op
            result.0 result.1 }
    {
        let first = self.look(hand, op);
        if !has_run(first) {
            return (
                first,
                Verdict::Unready {
                    at: op,
                    word: first,
                },
            );
        }
        match self.compare(hand, plan, op) {
            Compared::Equal => self.confirm(hand, op, first, Verdict::of(first)),
            Compared::Differs { j, kept, settled } => {
                self.confirm(hand, op, first, Verdict::Stale { j, kept, settled })
            }
            Compared::Open(stop) => (
                first,
                Verdict::Unready {
                    at: stop.source,
                    word: stop.word,
                },
            ),
        }
    }

    /// Loads the operation's word again. The verdict stands if it is the word that was loaded first.
    fn confirm(
        &self,
        hand: &mut Hand,
        op: u32,
        first: OpWord,
        verdict: Verdict,
    ) -> (OpWord, Verdict)
        requires hand { IsHandOf self.now hand.old }
        requires in_range { op < op_count (plan_of self.now) }
        ensures { IsConfirmed (call_on self.now hand.old hand.new) op first verdict result.0 result.1 }
    {
        let word = self.look(hand, op);
        if is_same(word, first) {
            (word, verdict)
        } else {
            (word, Verdict::Unready { at: op, word })
        }
    }

    /// Compares an operation's records with its sources, place by place, up to the first source that is not settled or
    /// the first record that differs.
    pub(super) fn compare(&self, hand: &mut Hand, plan: &Plan, op: u32) -> Compared
        requires may { MayBegin self.now hand.old plan.now op }
        ensures { IsCompared (call_on self.now hand.old hand.new) plan.now op result }
    {
        for j in 0..places_of(plan, op) {
            let compared = self.compare_at(hand, plan, op, j);
            let Compared::Equal = compared else {
                return compared;
            };
        }
        Compared::Equal
    }

    /// Compares one record with its source. It loads the source's word first and then the record.
    fn compare_at(&self, hand: &mut Hand, plan: &Plan, op: u32, j: u8) -> Compared
        requires may { MayBegin self.now hand.old plan.now op }
        requires in_places { j < places plan.now op }
        ensures { IsComparedAt (call_on self.now hand.old hand.new) plan.now op j result }
    {
        let settled = match self.source_value(hand, plan, op, j, true) {
            Ok(value) => value,
            Err(stop) => return Compared::Open(stop),
        };
        let kept = self.recall(hand, plan, op, j);
        if kept == settled {
            Compared::Equal
        } else {
            Compared::Differs { j, kept, settled }
        }
    }
}
