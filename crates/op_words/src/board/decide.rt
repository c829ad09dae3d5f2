//! Decides events by the verdicts on their operations.
ghost use Rattle.std.specs.Prelude.{◌≡◌, ◌+◌, ◌<◌, None};
ghost use Rattle.morph_base.specs.Plans.{event_count, event_at};
ghost use Rattle.op_words.specs.Judging.{DecideDoes, ConcludeDoes, MaySayOf};
ghost use Rattle.op_words.specs.Comparing.{IsWeighed, HasFoundGrounds};
ghost use Rattle.op_words.specs.Hands.{call_on, plan_of, cap_of, view_of, IsHandOf, MayBegin};

use super::{Board, Hand};
use crate::answers::{Decided, Verdict};
use crate::note::note;
use crate::rule::Decide;
use crate::words::pack_decision;
use interleaving_core::CoreEvent;
use morph_base::Plan;

impl Board {
    /// Returns the decision on an event, and makes one if there is none. The event aborts if an operation is bad, and
    /// commits if all are good.
    ///
    /// The call loads the decision and then judges the operations in order, up to the first bad one. The exchange comes
    /// last.
    pub fn decide(&self, hand: &mut Hand, plan: &Plan, event: u32) -> Decided
        requires hand { IsHandOf self.now hand.old }
        requires plan { plan.now ≡ plan_of self.now }
        requires in_range { event < event_count plan.now }
        requires free { (view_of hand.old).claim ≡ None }
        ensures hand { IsHandOf self.now hand.new }
        ensures answer { DecideDoes plan.now (cap_of self.now) event (view_of hand.old)
            (view_of hand.new) result }
    {
        if let Some(committed) = self.learn(hand, plan, event) {
            return Decided::of(committed);
        }
        let committed = match self.grounds(hand, plan, event) {
            Decided::Committed => true,
            Decided::Aborted => false,
            Decided::NotYet { op, word } => return Decided::NotYet { op, word },
        };
        self.conclude(hand, plan, event, committed);
        Decided::of(committed)
    }

    /// What the verdicts on its operations say of an event.
    fn grounds(&self, hand: &mut Hand, plan: &Plan, event: u32) -> Decided
        requires hand { IsHandOf self.now hand.old }
        requires plan { plan.now ≡ plan_of self.now }
        requires in_range { event < event_count plan.now }
        requires free { (view_of hand.old).claim ≡ None }
        ensures { HasFoundGrounds (call_on self.now hand.old hand.new) plan.now event
            ((event_at plan.now event).first + (event_at plan.now event).count) result }
    {
        let entry = plan.events.get(event as usize);
        let (first, end) = (entry.first, entry.first + entry.count);
        let mut grounds = Decided::Committed;
        for op in first..end {
            let next = self.weigh(hand, plan, op);
            if let Decided::Aborted = next {
                return next;
            }
            grounds = grounds.and(next);
        }
        grounds
    }

    /// What the verdict on one operation says of the event.
    fn weigh(&self, hand: &mut Hand, plan: &Plan, op: u32) -> Decided
        requires may { MayBegin self.now hand.old plan.now op }
        ensures { IsWeighed (call_on self.now hand.old hand.new) plan.now (cap_of self.now) op result }
    {
        let (word, verdict) = self.judge(hand, plan, op);
        match verdict {
            Verdict::Good(_) => Decided::Committed,
            Verdict::Bad => Decided::Aborted,
            Verdict::Stale { .. } => Decided::NotYet { op, word },
            Verdict::Unready { at, word } => Decided::NotYet { op: at, word },
        }
    }

    /// Decides an event as its operations say that the hand has seen: it commits if all are good, and aborts if one is
    /// bad. If there is a decision, it is the same.
    pub fn conclude(&self, hand: &mut Hand, plan: &Plan, event: u32, committed: bool)
        requires hand { IsHandOf self.now hand.old }
        requires plan { plan.now ≡ plan_of self.now }
        requires in_range { event < event_count plan.now }
        requires grounds { MaySayOf plan.now (view_of hand.old) event committed }
        requires free { (view_of hand.old).claim ≡ None }
        ensures hand { IsHandOf self.now hand.new }
        ensures answer { ConcludeDoes plan.now event (view_of hand.old)
            (view_of hand.new) committed }
    {
        let place = self.level - plan.events.len() + event as usize;
        let new = pack_decision(committed);
        let found = self
            .table
            .shared
            .compare_exchange::<Decide>(&mut hand.seat, place, 0, new);
        if found != 0 {
            return;
        }
        note(&mut hand.journal, CoreEvent::Decide { event, committed });
    }
}
