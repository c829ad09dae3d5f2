//! Whether an operation answers, or fails, on settled sources, and whether its records agree with them.
ghost use Rattle.std.specs.Prelude.{◌≡◌, ◌+◌, ◌*◌, ◌<◌, ◌↔◌, Some, None, IsTrue};
ghost use Rattle.morph_base.specs.declared.limits.TheConstants.{READS};
ghost use Rattle.morph_base.specs.Plans.{IsPlan, op_count, event_count};
ghost use Rattle.morph_base.specs.Clean.{source, outcome};
ghost use Rattle.morph_base.specs.Known.{AreKnown};
ghost use Rattle.interleaving_core.specs.Core.{IsSettledIn, value_in, places};
ghost use Rattle.interleaving_core.specs.Steps.{AnswersOnSettled, FailsOnSettled, AllAnswer, OneFails};
ghost use Rattle.interleaving_core.specs.Steps.{RecordAgrees, RecordsAgree, IsRecordedOtherwise};
ghost use Rattle.interleaving_core.specs.Stored.{core_of, IsStateOf};

use super::CoreState;
use super::reads::{origin_of, places_of};
use morph_base::{Plan, READS};

impl CoreState {
    /// Whether all sources of the operation are settled.
    pub(super) fn are_settled(&self, plan: &Plan, op: u32) -> bool
        requires plan { IsPlan plan.now }
        requires state { IsStateOf plan.now self.now }
        requires op { op < op_count plan.now }
        ensures { IsTrue result ↔ AreKnown plan.now (IsSettledIn (core_of self.now)) op }
    {
        for j in 0..places_of(plan, op) {
            if self.settled_value(origin_of(plan, op, j)).is_none() {
                return false;
            }
        }
        true
    }

    /// The value that the source at a place has now.
    pub(super) fn source_value(&self, plan: &Plan, op: u32, j: usize) -> u64
        requires plan { IsPlan plan.now }
        requires state { IsStateOf plan.now self.now }
        requires op { op < op_count plan.now }
        requires place { j < places plan.now op }
        ensures { result ≡ source plan.now (value_in (core_of self.now)) op j }
    {
        origin_of(plan, op, j).word_value_in(&self.words)
    }

    /// Whether there is a record at the place with another value than this one.
    pub(super) fn is_recorded_otherwise(&self, plan: &Plan, op: u32, j: usize, value: u64) -> bool
        requires state { IsStateOf plan.now self.now }
        requires op { op < op_count plan.now }
        requires place { j < READS }
        ensures { IsTrue result ↔ IsRecordedOtherwise (core_of self.now) op j value }
    {
        match self.record(op, j) {
            Some(kept) => kept.value != value,
            None => false,
        }
    }

    /// Whether each record of the operation has the value of its source.
    pub(super) fn records_agree(&self, plan: &Plan, op: u32) -> bool
        requires plan { IsPlan plan.now }
        requires state { IsStateOf plan.now self.now }
        requires op { op < op_count plan.now }
        ensures { IsTrue result ↔ RecordsAgree plan.now (core_of self.now) op }
    {
        for j in 0..places_of(plan, op) {
            if !self.agrees(plan, op, j) {
                return false;
            }
        }
        true
    }

    /// Whether there is a record at the place with the value of its source.
    fn agrees(&self, plan: &Plan, op: u32, j: usize) -> bool
        requires plan { IsPlan plan.now }
        requires state { IsStateOf plan.now self.now }
        requires op { op < op_count plan.now }
        requires place { j < places plan.now op }
        ensures { IsTrue result ↔ RecordAgrees plan.now (core_of self.now) op j }
    {
        match self.record(op, j) {
            Some(kept) => kept.value == self.source_value(plan, op, j),
            None => false,
        }
    }

    /// What the operation answers on the values of its sources, which are settled.
    pub(super) fn answer(&self, plan: &Plan, op: u32) -> Option<u64>
        requires plan { IsPlan plan.now }
        requires state { IsStateOf plan.now self.now }
        requires op { op < op_count plan.now }
        requires settled { AreKnown plan.now (IsSettledIn (core_of self.now)) op }
        ensures { result ≡ outcome plan.now (value_in (core_of self.now)) op }
    {
        let places = places_of(plan, op);
        let mut values = [0; READS];
        for j in 0..places {
            values[j] = self.source_value(plan, op, j);
        }
        plan.ops.eval(op as usize, &values[..places])
    }

    /// Whether the operation answers on settled sources.
    fn answers(&self, plan: &Plan, op: u32) -> bool
        requires plan { IsPlan plan.now }
        requires state { IsStateOf plan.now self.now }
        requires op { op < op_count plan.now }
        ensures { IsTrue result ↔ AnswersOnSettled plan.now (core_of self.now) op }
    {
        self.are_settled(plan, op) && self.answer(plan, op).is_some()
    }

    /// Whether the operation fails on settled sources.
    fn fails(&self, plan: &Plan, op: u32) -> bool
        requires plan { IsPlan plan.now }
        requires state { IsStateOf plan.now self.now }
        requires op { op < op_count plan.now }
        ensures { IsTrue result ↔ FailsOnSettled plan.now (core_of self.now) op }
    {
        self.are_settled(plan, op) && self.answer(plan, op).is_none()
    }

    /// Whether all operations of the event answer on settled sources.
    pub(super) fn all_answer(&self, plan: &Plan, event: u32) -> bool
        requires plan { IsPlan plan.now }
        requires state { IsStateOf plan.now self.now }
        requires event { event < event_count plan.now }
        ensures { IsTrue result ↔ AllAnswer plan.now (core_of self.now) event }
    {
        let planned = *plan.events.get(event as usize);
        for k in 0..planned.count {
            if !self.answers(plan, planned.first + k) {
                return false;
            }
        }
        true
    }

    /// Whether an operation of the event fails on settled sources.
    pub(super) fn one_fails(&self, plan: &Plan, event: u32) -> bool
        requires plan { IsPlan plan.now }
        requires state { IsStateOf plan.now self.now }
        requires event { event < event_count plan.now }
        ensures { IsTrue result ↔ OneFails plan.now (core_of self.now) event }
    {
        let planned = *plan.events.get(event as usize);
        for k in 0..planned.count {
            if self.fails(plan, planned.first + k) {
                return true;
            }
        }
        false
    }
}
