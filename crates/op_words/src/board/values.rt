ghost use Rattle.std.specs.Prelude.{◌≡◌, ◌+◌, ◌≤◌, ◌<◌, ◌∷◌, ◌++◌, [], take, IfSome};
ghost use Rattle.morph_base.specs.declared.limits.TheConstants.{MAX, READS};
ghost use Rattle.morph_base.specs.Functions.{value_of};
ghost use Rattle.morph_base.specs.Plans.{IsPlan, op_at, op_count};
ghost use Rattle.morph_base.specs.Words.{IsWord};
ghost use Rattle.interleaving_core.specs.Core.{ended, places};
ghost use Rattle.op_words.specs.Hands.{HasHeldValues, fetched_of};

use super::Holding;
use morph_base::{OpState, OpWord, Plan, eval};

impl Holding {
    /// Adds the value of the next place.
    pub(super) fn put(&mut self, value: u64)
        requires fits { HasHeldValues self.old }
        requires few { self.old.count < READS }
        requires value { value ≤ MAX }
        ensures op { self.new.op ≡ self.old.op }
        ensures attempt { self.new.attempt ≡ self.old.attempt }
        ensures values { fetched_of self.new ≡ fetched_of self.old ++ value ∷ [] }
        ensures fits { HasHeldValues self.new }
    {
        self.values[self.count as usize] = value;
        self.count += 1;
    }

    /// Returns what the operation's function makes of the values of all its places.
    pub(super) fn answer(&self, plan: &Plan) -> Option<u64>
        requires plan { IsPlan plan.now }
        requires in_range { self.now.op < op_count plan.now }
        requires fits { HasHeldValues self.now }
        requires all { self.now.count ≡ places plan.now self.now.op }
        ensures value { result ≡ value_of (op_at plan.now self.now.op).op (fetched_of self.now) }
        ensures small { IfSome result (λ x. x ≤ MAX) }
    {
        let values = &self.values[..self.count as usize];
        plan.ops.eval(self.op as usize, values)
    }

    /// The word that the operation is left with: executed with the answer, or failed with the value of its target.
    pub(super) fn word(&self, answer: Option<u64>) -> OpWord
        requires fits { HasHeldValues self.now }
        requires some { 0 < self.now.count }
        requires small { IfSome answer (λ x. x ≤ MAX) }
        ensures word { result ≡ ended self.now.attempt (fetched_of self.now) answer }
        ensures in_range { IsWord result }
    {
        match answer {
            Some(value) => OpWord {
                value,
                attempt: self.attempt,
                state: OpState::Executed,
                by: 0,
            },
            None => OpWord {
                value: self.values[0],
                attempt: self.attempt,
                state: OpState::Failed,
                by: 0,
            },
        }
    }
}
