//! Makes a step that may be made.
ghost use Rattle.std.specs.Prelude.{◌≡◌, ◌<◌, ◌↔◌};
ghost use Rattle.morph_base.specs.Plans.{IsPlan, op_count, event_of};
ghost use Rattle.interleaving_core.specs.Core.{entry_of};
ghost use Rattle.interleaving_core.specs.Steps.{May, MayReady, MayClaim, IsClaimedBy, MayFetch, MayFinish};
ghost use Rattle.interleaving_core.specs.Steps.{MaySpread, MayRollBack, MaySettle, after, readied, claiming};
ghost use Rattle.interleaving_core.specs.Steps.{fetching, end_of, finishing, giving_back, spread_of};
ghost use Rattle.interleaving_core.specs.Steps.{spreading, rolling_back, settling};
ghost use Rattle.interleaving_core.specs.Stored.{core_of, cap_of, IsSameShape, IsStateOf};

use super::CoreState;
use crate::claim::Claim;
use crate::entry::{Entry, Record, Settling};
use crate::event::CoreEvent;
use morph_base::{OpState, OpWord, Plan, READS};

impl CoreState {
    /// Makes a step that may be made.
    pub(super) fn make(&mut self, plan: &Plan, event: &CoreEvent)
        requires plan { IsPlan plan.now }
        requires state { IsStateOf plan.now self.old }
        requires may { May plan.now (cap_of self.old) (core_of self.old) event.now }
        ensures core { core_of self.new ≡ after plan.now (core_of self.old) event.now }
        ensures shape { IsSameShape self.old self.new }
    {
        match *event {
            CoreEvent::Ready { op } => self.ready(plan, op),
            CoreEvent::Claim { op, by } => self.claim(plan, op, by),
            CoreEvent::Fetch { op, j, by, value } => self.fetch(plan, op, j, by, value),
            CoreEvent::Finish { op, by } => self.finish(plan, op, by),
            CoreEvent::GiveBack { op, by } => self.give_back(plan, op, by),
            CoreEvent::Spread { op, sibling } => self.spread(plan, op, sibling),
            CoreEvent::RollBack { op, j } => self.roll_back(plan, op, j),
            CoreEvent::Decide { event, committed } => self.put_decision(event, committed),
            CoreEvent::Settle { op, by } => self.settle(plan, op, by),
        }
    }

    fn ready(&mut self, plan: &Plan, op: u32)
        requires state { IsStateOf plan.now self.old }
        requires may { MayReady plan.now (core_of self.old) op }
        ensures core { core_of self.new ≡ readied plan.now (core_of self.old) op }
        ensures shape { IsSameShape self.old self.new }
    {
        let attempt = self.word(op).attempt;
        let ready = OpWord {
            state: OpState::Ready,
            ..OpWord::blocked(attempt)
        };
        self.put_word(op, ready);
    }

    fn claim(&mut self, plan: &Plan, op: u32, by: u8)
        requires state { IsStateOf plan.now self.old }
        requires may { MayClaim plan.now (core_of self.old) op by }
        ensures core { core_of self.new ≡ claiming plan.now (core_of self.old) op by }
        ensures shape { IsSameShape self.old self.new }
    {
        let attempt = self.word(op).attempt;
        self.put_word(
            op,
            OpWord {
                value: 0,
                attempt,
                state: OpState::Claimed,
                by,
            },
        );
        self.put_claim(
            by,
            Some(Claim {
                op,
                attempt,
                count: 0,
                values: [0; READS],
            }),
        );
    }

    fn fetch(&mut self, plan: &Plan, op: u32, j: u8, by: u8, value: u64)
        requires plan { IsPlan plan.now }
        requires state { IsStateOf plan.now self.old }
        requires may { MayFetch plan.now (cap_of self.old) (core_of self.old) op j by value }
        ensures core { core_of self.new ≡ fetching plan.now (core_of self.old) op j by value }
        ensures shape { IsSameShape self.old self.new }
    {
        let attempt = self.word(op).attempt;
        let mut values = self.held(by).values;
        values[j as usize] = value;
        self.put_record(op, j, Record { value, attempt });
        self.put_claim(
            by,
            Some(Claim {
                op,
                attempt,
                count: j + 1,
                values,
            }),
        );
    }

    fn finish(&mut self, plan: &Plan, op: u32, by: u8)
        requires plan { IsPlan plan.now }
        requires state { IsStateOf plan.now self.old }
        requires may { MayFinish plan.now (core_of self.old) op by }
        ensures core { core_of self.new ≡ finishing plan.now (core_of self.old) op by }
        ensures shape { IsSameShape self.old self.new }
    {
        let word = self.end(plan, op, by);
        self.publish(entry(op, word));
        self.put_word(op, word);
        self.put_claim(by, None);
    }

    /// The word with which the operation is finished, on the values that the worker fetched for it.
    fn end(&self, plan: &Plan, op: u32, by: u8) -> OpWord
        requires plan { IsPlan plan.now }
        requires state { IsStateOf plan.now self.now }
        requires may { MayFinish plan.now (core_of self.now) op by }
        ensures { result ≡ end_of plan.now (core_of self.now) op by }
    {
        let attempt = self.word(op).attempt;
        let claim = self.held(by);
        plan.ops.evaluate(op as usize, &claim.values[..claim.count as usize], attempt)
    }

    fn give_back(&mut self, plan: &Plan, op: u32, by: u8)
        requires state { IsStateOf plan.now self.old }
        requires may { IsClaimedBy plan.now (core_of self.old) op by }
        ensures core { core_of self.new ≡ giving_back plan.now (core_of self.old) op by }
        ensures shape { IsSameShape self.old self.new }
    {
        let attempt = self.word(op).attempt;
        self.put_word(op, OpWord::blocked(attempt));
        self.put_claim(by, None);
    }

    fn spread(&mut self, plan: &Plan, op: u32, sibling: u32)
        requires plan { IsPlan plan.now }
        requires state { IsStateOf plan.now self.old }
        requires may { MaySpread plan.now (cap_of self.old) (core_of self.old) op sibling }
        ensures core { core_of self.new ≡ spreading plan.now (core_of self.old) op }
        ensures shape { IsSameShape self.old self.new }
    {
        let word = self.spread_word(plan, op);
        self.publish(entry(op, word));
        self.put_word(op, word);
    }

    /// The word of the next attempt, with the value of the first record.
    fn spread_word(&self, plan: &Plan, op: u32) -> OpWord
        requires state { IsStateOf plan.now self.now }
        requires op { op < op_count plan.now }
        ensures { result ≡ spread_of plan.now (core_of self.now) op }
    {
        let value = match self.record(op, 0) {
            Some(kept) => kept.value,
            None => 0,
        };
        OpWord {
            value,
            attempt: self.word(op).attempt + 1,
            state: OpState::Spread,
            by: 0,
        }
    }

    fn roll_back(&mut self, plan: &Plan, op: u32, j: u8)
        requires state { IsStateOf plan.now self.old }
        requires may { MayRollBack plan.now (cap_of self.old) (core_of self.old) op j }
        ensures core { core_of self.new ≡ rolling_back plan.now (core_of self.old) op }
        ensures shape { IsSameShape self.old self.new }
    {
        let attempt = self.word(op).attempt;
        self.put_word(op, OpWord::blocked(attempt + 1));
    }

    fn settle(&mut self, plan: &Plan, op: u32, by: u8)
        requires plan { IsPlan plan.now }
        requires state { IsStateOf plan.now self.old }
        requires may { MaySettle plan.now (core_of self.old) op by }
        ensures core { core_of self.new
            ≡ settling plan.now (core_of self.old) op by
            ((core_of self.old).decision (event_of plan.now op)) }
        ensures shape { IsSameShape self.old self.new }
    {
        let word = self.word(op);
        match self.decision(plan.ops.event(op as usize)) {
            Some(true) => {
                self.book(Settling { op, by });
                self.put_word(
                    op,
                    OpWord {
                        state: OpState::Settled,
                        by,
                        ..word
                    },
                );
            }
            Some(false) => {
                let value = self.source_value(plan, op, 0);
                self.book(Settling { op, by });
                self.put_word(
                    op,
                    OpWord {
                        value,
                        state: OpState::SettledAborted,
                        by,
                        ..word
                    },
                );
            }
            None => {}
        }
    }
}

/// The entry that shows a word.
fn entry(op: u32, word: OpWord) -> Entry
    ensures { result ≡ entry_of op word }
{
    Entry {
        op,
        attempt: word.attempt,
        value: word.value,
        failed: word.state.is_failed(),
    }
}
