//! Whether a step may be made.
ghost use Rattle.std.specs.Prelude.{◌≡◌, ◌<◌, ◌↔◌, IsTrue, Some};
ghost use Rattle.morph_base.specs.Plans.{IsPlan, op_count, event_of};
ghost use Rattle.interleaving_core.specs.Core.{places};
ghost use Rattle.interleaving_core.specs.Steps.{May, MayReady, MayClaim, IsClaimedBy, MayFetch, MayFinish};
ghost use Rattle.interleaving_core.specs.Steps.{MaySpread, MayRollBack, MayDecide, MaySettle};
ghost use Rattle.interleaving_core.specs.Steps.{MaySettleCommitted, MaySettleAborted, HasOtherVersion};
ghost use Rattle.interleaving_core.specs.Steps.{IsSpreadOnSettled, IsStaleAtCap};
ghost use Rattle.interleaving_core.specs.Stored.{core_of, cap_of, IsStateOf};

use super::CoreState;
use super::reads::{is_worker, origin_of, places_of};
use crate::event::CoreEvent;
use morph_base::{OpState, Plan};

impl CoreState {
    /// Whether the step may be made: its numbers are in range, the state that it goes from is there, and its guard
    /// holds.
    pub(super) fn may(&self, plan: &Plan, event: &CoreEvent) -> bool
        requires plan { IsPlan plan.now }
        requires state { IsStateOf plan.now self.now }
        ensures { IsTrue result ↔ May plan.now (cap_of self.now) (core_of self.now) event.now }
    {
        match *event {
            CoreEvent::Ready { op } => self.may_ready(plan, op),
            CoreEvent::Claim { op, by } => self.may_claim(plan, op, by),
            CoreEvent::Fetch { op, j, by, value } => self.may_fetch(plan, op, j, by, value),
            CoreEvent::Finish { op, by } => self.may_finish(plan, op, by),
            CoreEvent::GiveBack { op, by } => self.is_claimed_by(plan, op, by),
            CoreEvent::Spread { op, sibling } => self.may_spread(plan, op, sibling),
            CoreEvent::RollBack { op, j } => self.may_roll_back(plan, op, j),
            CoreEvent::Decide { event, committed } => self.may_decide(plan, event, committed),
            CoreEvent::Settle { op, by } => self.may_settle(plan, op, by),
        }
    }

    fn may_ready(&self, plan: &Plan, op: u32) -> bool
        requires { IsStateOf plan.now self.now }
        ensures { IsTrue result ↔ MayReady plan.now (core_of self.now) op }
    {
        self.is_at(plan, op, OpState::Blocked)
    }

    fn may_claim(&self, plan: &Plan, op: u32, by: u8) -> bool
        requires { IsStateOf plan.now self.now }
        ensures { IsTrue result ↔ MayClaim plan.now (core_of self.now) op by }
    {
        self.is_at(plan, op, OpState::Ready) && is_worker(by) && self.is_free(by)
    }

    fn may_fetch(&self, plan: &Plan, op: u32, j: u8, by: u8, value: u64) -> bool
        requires plan { IsPlan plan.now }
        requires state { IsStateOf plan.now self.now }
        ensures { IsTrue result
            ↔ MayFetch plan.now (cap_of self.now) (core_of self.now) op j by value }
    {
        if !self.is_claimed_by(plan, op, by) {
            return false;
        }
        let place = j as usize;
        if place >= places_of(plan, op) || self.held(by).count != j {
            return false;
        }
        let origin = origin_of(plan, op, place);
        if self.word(op).attempt <= self.cap {
            self.is_version(origin, value)
        } else {
            self.is_settled_as(origin, value)
        }
    }

    fn may_finish(&self, plan: &Plan, op: u32, by: u8) -> bool
        requires plan { IsPlan plan.now }
        requires state { IsStateOf plan.now self.now }
        ensures { IsTrue result ↔ MayFinish plan.now (core_of self.now) op by }
    {
        self.is_claimed_by(plan, op, by) && self.held(by).count as usize == places_of(plan, op)
    }

    fn may_spread(&self, plan: &Plan, op: u32, sibling: u32) -> bool
        requires { IsStateOf plan.now self.now }
        ensures { IsTrue result
            ↔ MaySpread plan.now (cap_of self.now) (core_of self.now) op sibling }
    {
        if !self.is_at(plan, op, OpState::Executed) || sibling as usize >= plan.ops.len() {
            return false;
        }
        sibling != op
            && plan.ops.event(sibling as usize) == plan.ops.event(op as usize)
            && self.word(op).attempt < self.cap
            && self.published.has_failed(sibling)
    }

    fn may_roll_back(&self, plan: &Plan, op: u32, j: u8) -> bool
        requires plan { IsPlan plan.now }
        requires state { IsStateOf plan.now self.now }
        ensures { IsTrue result ↔ MayRollBack plan.now (cap_of self.now) (core_of self.now) op j }
    {
        if op as usize >= plan.ops.len() {
            return false;
        }
        if j as usize >= places_of(plan, op) || !self.word(op).state.is_evaluated() {
            return false;
        }
        self.has_other_version(plan, op, j as usize)
            || self.is_spread_on_settled(plan, op)
            || self.is_stale_at_cap(plan, op, j as usize)
    }

    fn has_other_version(&self, plan: &Plan, op: u32, j: usize) -> bool
        requires plan { IsPlan plan.now }
        requires state { IsStateOf plan.now self.now }
        requires op { op < op_count plan.now }
        requires place { j < places plan.now op }
        ensures { IsTrue result
            ↔ HasOtherVersion plan.now (cap_of self.now) (core_of self.now) op j }
    {
        if self.word(op).attempt >= self.cap {
            return false;
        }
        match self.record(op, j) {
            Some(kept) => self.has_version_besides(origin_of(plan, op, j), kept.value),
            None => false,
        }
    }

    fn is_spread_on_settled(&self, plan: &Plan, op: u32) -> bool
        requires plan { IsPlan plan.now }
        requires state { IsStateOf plan.now self.now }
        requires op { op < op_count plan.now }
        ensures { IsTrue result
            ↔ IsSpreadOnSettled plan.now (cap_of self.now) (core_of self.now) op }
    {
        let word = self.word(op);
        word.attempt < self.cap && word.state == OpState::Spread && self.are_settled(plan, op)
    }

    fn is_stale_at_cap(&self, plan: &Plan, op: u32, j: usize) -> bool
        requires plan { IsPlan plan.now }
        requires state { IsStateOf plan.now self.now }
        requires op { op < op_count plan.now }
        requires place { j < places plan.now op }
        ensures { IsTrue result ↔ IsStaleAtCap plan.now (cap_of self.now) (core_of self.now) op j }
    {
        let word = self.word(op);
        if word.attempt != self.cap || !self.are_settled(plan, op) {
            return false;
        }
        word.state == OpState::Spread
            || self.is_recorded_otherwise(plan, op, j, self.source_value(plan, op, j))
    }

    fn may_decide(&self, plan: &Plan, event: u32, committed: bool) -> bool
        requires plan { IsPlan plan.now }
        requires state { IsStateOf plan.now self.now }
        ensures { IsTrue result ↔ MayDecide plan.now (core_of self.now) event committed }
    {
        if event as usize >= plan.events.len() || self.decision(event).is_some() {
            return false;
        }
        if committed {
            self.all_answer(plan, event)
        } else {
            self.one_fails(plan, event)
        }
    }

    fn may_settle(&self, plan: &Plan, op: u32, by: u8) -> bool
        requires plan { IsPlan plan.now }
        requires state { IsStateOf plan.now self.now }
        ensures { IsTrue result ↔ MaySettle plan.now (core_of self.now) op by }
    {
        if op as usize >= plan.ops.len() || !is_worker(by) {
            return false;
        }
        self.may_settle_committed(plan, op) || self.may_settle_aborted(plan, op)
    }

    fn may_settle_committed(&self, plan: &Plan, op: u32) -> bool
        requires plan { IsPlan plan.now }
        requires state { IsStateOf plan.now self.now }
        requires op { op < op_count plan.now }
        ensures { IsTrue result ↔ MaySettleCommitted plan.now (core_of self.now) op }
    {
        self.is_decided(plan, op, true)
            && self.word(op).state == OpState::Executed
            && self.are_settled(plan, op)
            && self.records_agree(plan, op)
    }

    fn may_settle_aborted(&self, plan: &Plan, op: u32) -> bool
        requires plan { IsPlan plan.now }
        requires state { IsStateOf plan.now self.now }
        requires op { op < op_count plan.now }
        ensures { IsTrue result ↔ MaySettleAborted plan.now (core_of self.now) op }
    {
        self.is_decided(plan, op, false)
            && self.word(op).state.is_open()
            && self.settled_value(origin_of(plan, op, 0)).is_some()
    }

    /// Whether the decision on the operation's event is this one.
    fn is_decided(&self, plan: &Plan, op: u32, committed: bool) -> bool
        requires plan { IsPlan plan.now }
        requires state { IsStateOf plan.now self.now }
        requires op { op < op_count plan.now }
        ensures { IsTrue result
            ↔ ((core_of self.now).decision (event_of plan.now op) ≡ Some committed) }
    {
        match self.decision(plan.ops.event(op as usize)) {
            Some(decided) => decided == committed,
            None => false,
        }
    }
}
