//! What guards need to know of a state and its plan.
ghost use Rattle.std.specs.Prelude.{◌≡◌, ◌+◌, ◌*◌, ◌<◌, ◌≤◌, ◌↔◌, length, take, Some, None, IsTrue, IsSome, IfSome};
ghost use Rattle.morph_base.specs.declared.limits.TheConstants.{READS, WORKERS};
ghost use Rattle.morph_base.specs.declared.word.OpState.{OpState};
ghost use Rattle.morph_base.specs.Plans.{IsPlan, op_count, origin_at};
ghost use Rattle.morph_base.specs.Clean.{from, source};
ghost use Rattle.morph_base.specs.Known.{IsKnown};
ghost use Rattle.interleaving_core.specs.declared.claim.Claim.{Claim};
ghost use Rattle.interleaving_core.specs.Core.{IsSettledIn, value_in, IsSettledAs, IsVersion, fetched, places};
ghost use Rattle.interleaving_core.specs.Steps.{IsWorker, IsClaimedBy};
ghost use Rattle.interleaving_core.specs.Stored.{core_of, word_count, published_count, IsInside};
ghost use Rattle.interleaving_core.specs.Stored.{IsSettledOtherwise, HasVersionBesides, AllFit};
ghost use Rattle.interleaving_core.specs.Stored.{HasClaimedValues, IsStateOf};

use super::CoreState;
use crate::claim::Claim;
use crate::entry::Record;
use morph_base::{OpState, Origin, Plan, READS, WORKERS};

/// How many places an operation reads.
pub(super) fn places_of(plan: &Plan, op: u32) -> usize
    requires plan { IsPlan plan.now }
    requires op { op < op_count plan.now }
    ensures places { result ≡ places plan.now op }
    ensures few { result ≤ READS }
    ensures some { 0 < result }
{
    plan.ops.places(op as usize)
}

/// Where the value of a place comes from.
pub(super) fn origin_of(plan: &Plan, op: u32, j: usize) -> Origin
    requires plan { IsPlan plan.now }
    requires op { op < op_count plan.now }
    requires place { j < places plan.now op }
    ensures origin { result ≡ origin_at plan.now op j }
    ensures inside { IsInside (op_count plan.now) result }
{
    plan.ops.origin(op as usize, j)
}

/// Whether this is the number of a worker.
pub(super) fn is_worker(by: u8) -> bool
    ensures { IsTrue result ↔ IsWorker by }
{
    1 <= by && by <= WORKERS
}

impl CoreState {
    /// The value of a settled source. `None` means that it is not settled.
    pub(super) fn settled_value(&self, origin: Origin) -> Option<u64>
        requires { IsInside (word_count self.now) origin }
        ensures known { IsSome result ↔ IsKnown (IsSettledIn (core_of self.now)) origin }
        ensures value { IfSome result (λ x. x ≡ from (value_in (core_of self.now)) origin) }
    {
        match origin {
            Origin::Base(value) => Some(value),
            Origin::Op(op) => {
                let word = self.word(op);
                if word.state.is_settled() {
                    Some(word.value)
                } else {
                    None
                }
            }
        }
    }

    /// The record of an operation at a place.
    pub(super) fn record(&self, op: u32, j: usize) -> Option<Record>
        requires place { j < READS }
        requires in_range { op * READS + j < length self.now.records.items }
        ensures { result ≡ (core_of self.now).recorded op j }
    {
        *self.records.get(op as usize * READS + j)
    }

    /// What a worker holds, or an empty claim if it holds nothing.
    pub(super) fn held(&self, by: u8) -> Claim
        requires worker { by < length self.now.claims.items }
        requires fits { AllFit self.now }
        ensures values { take result.count result.values ≡ fetched ((core_of self.now).claim by) }
        ensures fits { HasClaimedValues result }
    {
        match *self.claims.get(by as usize) {
            Some(claim) => claim,
            None => Claim {
                op: 0,
                attempt: 0,
                count: 0,
                values: [0; READS],
            },
        }
    }

    /// Whether the source is settled with this value.
    pub(super) fn is_settled_as(&self, origin: Origin, value: u64) -> bool
        requires { IsInside (word_count self.now) origin }
        ensures { IsTrue result ↔ IsSettledAs (core_of self.now) origin value }
    {
        match self.settled_value(origin) {
            Some(settled) => settled == value,
            None => false,
        }
    }

    /// Whether the value is a version of the source.
    pub(super) fn is_version(&self, origin: Origin, value: u64) -> bool
        requires word { IsInside (word_count self.now) origin }
        requires published { IsInside (published_count self.now) origin }
        ensures { IsTrue result ↔ IsVersion (core_of self.now) origin value }
    {
        if self.is_settled_as(origin, value) {
            return true;
        }
        match origin {
            Origin::Base(_) => false,
            Origin::Op(op) => self.published.has_shown(op, value),
        }
    }

    /// Whether the source is settled with another value.
    fn is_settled_otherwise(&self, origin: Origin, value: u64) -> bool
        requires { IsInside (word_count self.now) origin }
        ensures { IsTrue result ↔ IsSettledOtherwise (core_of self.now) origin value }
    {
        match self.settled_value(origin) {
            Some(settled) => settled != value,
            None => false,
        }
    }

    /// Whether the source has a version that differs from the value.
    pub(super) fn has_version_besides(&self, origin: Origin, value: u64) -> bool
        requires word { IsInside (word_count self.now) origin }
        requires published { IsInside (published_count self.now) origin }
        ensures { IsTrue result ↔ HasVersionBesides (core_of self.now) origin value }
    {
        if self.is_settled_otherwise(origin, value) {
            return true;
        }
        match origin {
            Origin::Base(_) => false,
            Origin::Op(op) => self.published.has_shown_another(op, value),
        }
    }

    /// Whether the worker holds nothing.
    pub(super) fn is_free(&self, by: u8) -> bool
        requires { by < length self.now.claims.items }
        ensures { IsTrue result ↔ ((core_of self.now).claim by ≡ None) }
    {
        self.claims.get(by as usize).is_none()
    }

    /// Whether the operation is one of the plan's and in this state.
    pub(super) fn is_at(&self, plan: &Plan, op: u32, state: OpState) -> bool
        requires { IsStateOf plan.now self.now }
        ensures { IsTrue result
            ↔ ((op < op_count plan.now) × (((core_of self.now).word op).state ≡ state)) }
    {
        (op as usize) < plan.ops.len() && self.word(op).state == state
    }

    /// Whether the worker holds the operation.
    pub(super) fn is_claimed_by(&self, plan: &Plan, op: u32, by: u8) -> bool
        requires { IsStateOf plan.now self.now }
        ensures { IsTrue result ↔ IsClaimedBy plan.now (core_of self.now) op by }
    {
        self.is_at(plan, op, OpState::Claimed) && is_worker(by) && self.word(op).by == by
    }
}
