//! A pass over one level, by all workers or by the first alone.
ghost use Rattle.std.specs.Prelude.{◌<◌, All, length, slice_index_or};
ghost use Rattle.abort_eager.specs.Grounds.{IsGround, ground_rules};
ghost use Rattle.op_words.specs.Hands.{counters_of};
ghost use Rattle.op_eval.specs.declared.runner.Runner.{Runner as Worker};
ghost use Rattle.op_eval.specs.Exploring.{Unused};
ghost use Rattle.op_eval.specs.Turns.{IsEnough};
ghost use Rattle.strata_explorer.specs.Passes.{FitsPass, IsPassed};
ghost use Rattle.op_eval.specs.Running.{IsFreeRunner};

use crate::walk::work;
use abort_eager::Ground;
use op_eval::{Patience, Runner};
use std::thread::Threads;
use worker_gate::{Gate, Job, Told, burst_for, pieces_for, run_few_or_all};

/// A pass over the operations of a level, whose places workers take from a counter.
#[derive(Drop)]
pub(crate) struct Pass<'a, G> {
    pub(crate) ground: Ground<'a>,
    pub(crate) gate: &'a G,
    pub(crate) ops: &'a [u32],
    pub(crate) counter: u32,
    /// How many workers there are.
    pub(crate) workers: usize,
}

impl<G: Gate> Job<Runner> for Pass<'_, G> {
    ghost use Rattle.std.specs.Prelude.{◌<◌, length};
    ghost use Rattle.abort_eager.specs.Grounds.{IsGround, ground_rules};
    ghost use Rattle.op_words.specs.Hands.{counters_of};
    ghost use Rattle.op_eval.specs.Exploring.{Unused};
    ghost use Rattle.op_eval.specs.Turns.{IsEnough};
    ghost use Rattle.strata_explorer.specs.Passes.{FitsPass, Worked};
    ghost use Rattle.op_eval.specs.Running.{IsFreeRunner};
    ghost use Rattle.strata_explorer.specs.Walks.{WalksAll};

    ghost can_run = { λ pass runner. IsGround pass.ground
        × FitsPass pass.ground.plan.now pass.ops.now
        × (pass.counter < counters_of pass.ground.board.now)
        × IsFreeRunner pass.ground.board.now runner × Unused pass.counter runner };

    ghost changes = { λ pass _ before after. IsFreeRunner pass.ground.board.now after
        × Worked (ground_rules pass.ground) pass.counter pass.ops.now before after
        × IsEnough pass.counter (length pass.ops.now) after
        × WalksAll (ground_rules pass.ground) pass.counter pass.ops.now before after };

    fn run(&self, _number: usize, worker: &mut Runner) {
        let told = Told {
            gate: self.gate,
            worker: u32::from(worker.hand.tag()),
        };
        let most = burst_for(self.workers, self.ops.len());
        // All levels below were passed, so there is nothing to wait for.
        let mut patience = Patience::none();
        work(
            &self.ground,
            &told,
            self.ops,
            self.counter,
            most,
            worker,
            &mut patience,
        )
    }
}

/// Makes a pass by all runners, or by the first runner alone if the level has [few](run_few_or_all) operations.
pub(crate) fn pass_by<R: Threads + Sync, G: Gate>(
    rt: &R,
    runners: &mut [Runner],
    pass: &Pass<'_, G>,
)
    requires some { 0 < length runners.old }
    requires ground { IsGround pass.now.ground }
    requires fits { FitsPass pass.now.ground.plan.now pass.now.ops.now }
    requires in_range { pass.now.counter < counters_of pass.now.ground.board.now }
    requires seated { All (IsFreeRunner pass.now.ground.board.now) runners.old }
    requires unused { All (Unused pass.now.counter) runners.old }
    ensures seated { All (IsFreeRunner pass.now.ground.board.now) runners.new }
    ensures passed { IsPassed (ground_rules pass.now.ground) pass.now.counter pass.now.ops.now
        runners.old runners.new }
    ensures first { (d : Worker)
        → IsEnough pass.now.counter (length pass.now.ops.now) (slice_index_or runners.new 0 d) }
{
    let pieces = pieces_for(pass.gate, pass.ops.len());
    run_few_or_all(rt, runners, pass.ops.len(), pieces, pass);
}
