ghost use Rattle.std.specs.Prelude.{◌≡◌};
ghost use Rattle.morph_base.specs.Graphs.{IsValidPlan};
ghost use Rattle.batch_pipe.specs.PlanRuns.{picked};

use decision_model::{Last, choose, profile};
use morph_base::{Layout, Plan, Strategy};
use morph_engine::BatchEnd;
use rtrb::Protocol;

/// A plan that was sent to be run.
#[derive(Debug, Drop)]
pub struct Sent {
    /// The number of its batch, from 1 on.
    pub number: u64,
    /// The layout that has the plan's keys.
    pub layout: Layout,
    /// The greatest value of the plan's operations.
    pub greatest: u64,
    /// A valid plan of the batch. Its bases are filled in when it is run.
    pub plan: Plan,
}

/// The protocol of a ring over which plans go: each is what its parts say of it.
#[derive(Clone, Copy)]
pub(crate) struct ReadyPlans;

impl Protocol<Sent> for ReadyPlans {
    ghost use Rattle.batch_pipe.specs.PlannedBatches.{IsReadySent};

    ghost allows = { λ before sent. IsReadySent sent };
}

/// The result of a batch.
#[derive(Drop)]
pub struct Ran {
    /// The number of the batch, from 1 on.
    pub number: u64,
    /// The strategy that was picked for it.
    pub strategy: Strategy,
    /// All that the engine returns of it.
    pub end: BatchEnd,
}

/// How the strategy of each batch is picked.
#[derive(Clone, Copy, Debug, PartialEq, Eq)]
pub struct Picker {
    /// Whether it is chosen by the batch's plan and by the outcome of the batch before.
    pub auto: bool,
    /// The strategy of all batches, if it is not chosen for each.
    pub strategy: Strategy,
}

impl Picker {
    /// The strategy for a valid plan, after a batch with the outcome `last`.
    pub(crate) fn pick(&self, plan: &Plan, last: Last) -> Strategy
        requires { IsValidPlan plan.now }
        ensures { result ≡ picked self.now last plan.now }
    {
        if self.auto {
            choose(&profile(plan, last))
        } else {
            self.strategy
        }
    }
}
