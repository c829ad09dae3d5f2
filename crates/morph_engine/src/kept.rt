//! Runs that keep a journal.
ghost use Rattle.std.specs.Prelude.{◌≡◌, ◌+◌, ◌*◌, ◌^◌, ◌<◌, IfOk, OnOk, OnErr};
ghost use Rattle.morph_base.specs.Flat.{contents};
ghost use Rattle.morph_base.specs.Plans.{HasBases, PlanKeysIn, event_count, state_at};
ghost use Rattle.morph_base.specs.Graphs.{IsValidPlan};
ghost use Rattle.morph_engine.specs.Ends.{IsEnd};
ghost use Rattle.morph_engine.specs.Runs.{IsJournalledRun, journal_room};

use crate::engine::{BatchEnd, Engine};
use crate::prepared::Prepared;
use morph_base::{OutOfMemory, Plan, Strategy};
use std::alloc::Global;
use std::thread::Threads;
use worker_gate::FreeGate;

/// How many steps a journal has room for, for this many operations: enough for eight evaluations of each.
fn room_for(ops: usize) -> usize
    requires { ops < 2 ^ 32 }
    ensures { result ≡ 32 * ops + 64 }
{
    32 * ops + 64
}

impl Engine {
    /// Runs a plan as [`Engine::run_batch`] does, by one worker that writes down its steps. The closed board has the
    /// journal ([`Closed::journal`](op_words::Closed::journal)).
    ///
    /// The journal has room for 32 steps for each operation, and 64 more. If that is not enough, it has the first ones.
    pub fn run_kept<R: Threads + Sync>(
        &mut self,
        rt: &R,
        alloc: Global,
        plan: Plan,
        strategy: &Strategy,
    ) -> Result<BatchEnd, OutOfMemory>
        requires plan { IsValidPlan plan }
        requires bases { HasBases plan (contents self.old) }
        requires keys { PlanKeysIn plan self.old.layout }
        ensures state { OnOk result
            (contents self.new ≡ state_at plan (contents self.old) (event_count plan)) }
        ensures layout { self.new.layout ≡ self.old.layout }
        ensures ended { IfOk result (IsEnd plan strategy.now 1 (contents self.old)) }
        ensures kept { IfOk result
            (λ end. IsJournalledRun plan strategy.now.abort (journal_room plan) end.closed) }
        ensures refused { OnErr result (self.new ≡ self.old) }
    {
        let room = room_for(plan.ops.len());
        let prepared = Prepared::new(alloc, &plan, strategy, 1, false, room)?;
        Ok(self.run_prepared(rt, alloc, prepared, plan, strategy, &FreeGate))
    }
}
