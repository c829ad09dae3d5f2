//! Loads of records and decisions.
ghost use Rattle.std.specs.Prelude.{◌≡◌, ◌<◌};
ghost use Rattle.morph_base.specs.Plans.{event_count};
ghost use Rattle.interleaving_core.specs.Core.{places};
ghost use Rattle.op_words.specs.Stepping.{Recalled, Learned};
ghost use Rattle.op_words.specs.Hands.{call_on, plan_of, IsHandOf, MayCall};

use super::{Board, Hand};
use crate::rule::{LoadDecision, LoadRecord};
use crate::words::{decision_of, value_of_record};
use morph_base::Plan;

impl Board {
    /// Loads the record of an operation at a place that it reads. It is 0 if there is none.
    pub(super) fn recall(&self, hand: &mut Hand, plan: &Plan, op: u32, j: u8) -> u64
        requires may { MayCall self.now hand.old plan.now op }
        requires in_places { j < places plan.now op }
        ensures { Recalled (call_on self.now hand.old hand.new) op j result }
    {
        let place = plan.ops.len() + plan.ops.places_before(op as usize) + j as usize;
        let n = self.table.shared.load::<LoadRecord>(&mut hand.seat, place);
        value_of_record(n)
    }

    /// Loads the decision on an event.
    pub(super) fn learn(&self, hand: &mut Hand, plan: &Plan, event: u32) -> Option<bool>
        requires hand { IsHandOf self.now hand.old }
        requires plan { plan.now ≡ plan_of self.now }
        requires in_range { event < event_count plan.now }
        ensures { Learned (call_on self.now hand.old hand.new) event result }
    {
        let place = self.level - plan.events.len() + event as usize;
        let n = self
            .table
            .shared
            .load::<LoadDecision>(&mut hand.seat, place);
        decision_of(n)
    }
}
