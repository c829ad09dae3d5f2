//! A stale operation is taken back and evaluated again in one call, which loads each of its sources once.
ghost use Rattle.op_words.specs.Judging.{IsStaleSeen};
ghost use Rattle.op_words.specs.Redoing.{RedoDoes};
ghost use Rattle.op_words.specs.Hands.{cap_of, view_of, IsHandOf, MayBegin};

use super::{Board, Hand, Holding};
use crate::answers::{Outcome, Redone, Stop};
use morph_base::{OpWord, Plan, READS};

impl Board {
    /// Takes the value of a stale operation back and evaluates the operation at its next attempt, on the settled values
    /// of its sources. The hand judged it stale at place `j` with this word ([`Board::verdict_at`]), and loaded no
    /// record since.
    ///
    /// The call loads the sources, place by place, up to the first one that is not settled. If all are settled, the
    /// operation is rolled back, made ready and claimed, these values are recorded, and it is finished, each by one
    /// step. That is what [`roll_back`](Board::roll_back), [`ready`](Board::ready), [`claim`](Board::claim),
    /// [`fetch`](Board::fetch) and [`finish`](Board::finish) do one after another, where each source is loaded three
    /// times. No further verdict is needed: the records are the settled values.
    #[inline(never)]
    pub fn redo(&self, hand: &mut Hand, plan: &Plan, op: u32, word: OpWord, j: u8) -> Redone
        requires may { MayBegin self.now hand.old plan.now op }
        requires stale { IsStaleSeen plan.now (cap_of self.now) (view_of hand.old) op word j }
        ensures hand { IsHandOf self.now hand.new }
        ensures answer { RedoDoes plan.now op word j (view_of hand.old) (view_of hand.new) result }
    {
        let attempt = word.attempt + 1;
        let mut found = Holding {
            op,
            attempt,
            count: 0,
            values: [0; READS],
        };
        if let Some(Stop { source, word }) = self.load_all(hand, plan, op, &mut found, true) {
            return Redone::Open { source, word };
        }
        if let Some(word) = self.leave_blocked(hand, op, word, j) {
            return Redone::Busy { word };
        }
        match self.take_up(hand, plan, op, attempt, &found) {
            Ok(Outcome::Executed(value)) => Redone::Good(found.word(Some(value))),
            Ok(Outcome::Failed) => Redone::Bad(found.word(None)),
            Err(word) => Redone::Busy { word },
        }
    }
}
