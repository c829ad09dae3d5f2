ghost use Rattle.std.specs.Prelude.{◌≡◌, ℕ, ◌≤◌, IfOk, OnOk, OnErr};
ghost use Rattle.morph_base.specs.Limits.{most_workers};
ghost use Rattle.morph_base.specs.declared.key.Layout.{Layout};
ghost use Rattle.morph_base.specs.Flat.{contents};
ghost use Rattle.morph_base.specs.States.{opening_state, IsUpTo};
ghost use Rattle.morph_base.specs.Transactions.{IsBatch, BatchKeysIn, high_of_all, transactions_of};
ghost use Rattle.morph_base.specs.Plans.{HasBases, IsPlanOf, PlanKeysIn, event_count};
ghost use Rattle.morph_base.specs.Plans.{high_of, state_at, transactions};
ghost use Rattle.morph_base.specs.Graphs.{IsValidPlan};
ghost use Rattle.morph_engine.specs.Runs.{workers_of, IsPrepared, HasJournalRoom, IsJournalledRun};
ghost use Rattle.morph_engine.specs.Ends.{IsEnd};
ghost use Rattle.morph_engine.specs.Exploring.{explore_of};

use crate::prepared::{Prepared, Ran};
use morph_base::{Batch, Layout, List, OutOfMemory, Plan, Settled, Strategy};
use op_eval::Left;
use op_words::{Closed, Counts};
use precedence_graph::build;
use std::alloc::Global;
use std::marker::Model;
use std::thread::Threads;
use txn_splitter::split;
use version_table::State;
use worker_gate::Gate;

/// Makes the plan of a valid batch without a state: all its bases are 0 until [`Engine::rebase`] fills them in.
///
/// If the keys of the batch are in a layout, so are those of the plan.
pub fn plan_batch(alloc: Global, batch: Batch) -> Result<Plan, OutOfMemory>
    requires batch { IsBatch batch }
    ensures valid { IfOk result IsValidPlan }
    ensures events { IfOk result (IsPlanOf batch) }
    ensures bases { IfOk result (λ plan. HasBases plan opening_state) }
    ensures keys { IfOk result (λ plan. (layout : Layout)
        → BatchKeysIn layout batch → PlanKeysIn plan layout) }
{
    let txns = split(alloc, batch)?;
    let plan = build(alloc, txns)?;
    Ok(plan)
}

/// A state, on which batches are run. Contracts see the state.
#[derive(Debug, Drop)]
pub struct Engine {
    state: State,
}

/// The outcome of a batch: its plan, what was settled, and how.
///
/// Event `i` of the plan has its timestamp there, its verdict at `committed[i]`, and the values of its operations in
/// `values` from its `first` on, `count` of them.
pub struct BatchEnd {
    /// The plan that was run.
    pub plan: Plan,
    /// The strategy that the batch was run with.
    pub strategy: Strategy,
    /// The value of each operation, the verdict on each event, and who settled each operation.
    pub settled: Settled,
    /// The board of this batch after its end, with the words, decisions and counts that workers left on it.
    pub closed: Closed,
    /// Why events were left to the plain finish, by the worker that tried them, worker 1 first.
    pub left: List<List<Left>>,
    /// How often operations were evaluated, spread and rolled back on the board.
    pub counts: Counts,
    /// How many operations were handed out to workers by deques. It is 0 if the batch was explored by strata.
    pub handed: u64,
    /// How many of these a worker took from another worker's deque.
    pub stolen: u64,
}

// Not derived: see "What costs" in docs/CONTRIBUTING.md.
impl Drop for BatchEnd {
    fn drop(self) {
        let BatchEnd {
            plan: _,
            strategy: _,
            settled: _,
            closed: _,
            left: _,
            counts: _,
            handed: _,
            stolen: _,
        } = self;
    }
}

impl Model for Engine {
    ghost use Rattle.morph_base.specs.Flat.{Kept};

    ghost Value = { Kept };

    ghost view = { λ engine. engine.state };
}

impl Engine {
    /// Makes an engine in the state at the start: all values are 0.
    pub fn new(alloc: Global, layout: Layout) -> Result<Self, OutOfMemory>
        ensures layout { IfOk result (λ engine. engine.layout ≡ layout) }
        ensures opening { IfOk result (λ engine. contents engine ≡ opening_state) }
    {
        Ok(Engine {
            state: State::new(alloc, layout)?,
        })
    }

    /// The state between two batches.
    pub fn state(&self) -> &State
        ensures { result.now ≡ self.now }
    {
        &self.state
    }

    /// Makes the plan of a valid batch, all of whose keys are in the layout, from the present state.
    ///
    /// No value of the state may be above the greatest value of the batch.
    pub fn plan(&self, alloc: Global, batch: Batch) -> Result<Plan, OutOfMemory>
        requires batch { IsBatch batch }
        requires keys { BatchKeysIn self.now.layout batch }
        requires small { IsUpTo (high_of_all (transactions_of batch)) (contents self.now) }
        ensures valid { IfOk result IsValidPlan }
        ensures events { IfOk result (IsPlanOf batch) }
        ensures bases { IfOk result (λ plan. HasBases plan (contents self.now)) }
        ensures keys { IfOk result (λ plan. PlanKeysIn plan self.now.layout) }
    {
        let mut plan = plan_batch(alloc, batch)?;
        self.rebase(&mut plan);
        Ok(plan)
    }

    /// Fills in the bases of a plan from the present state, whatever state they were of before. Everything else of the
    /// plan stays.
    ///
    /// The plan may then be run, until another batch is run. No value of the state may be above the greatest value of
    /// the plan.
    pub fn rebase(&self, plan: &mut Plan)
        requires plan { IsValidPlan plan.old }
        requires keys { PlanKeysIn plan.old self.now.layout }
        requires small { IsUpTo (high_of plan.old) (contents self.now) }
        ensures valid { IsValidPlan plan.new }
        ensures transactions { transactions plan.new ≡ transactions plan.old }
        ensures bases { HasBases plan.new (contents self.now) }
        ensures keys { PlanKeysIn plan.new self.now.layout }
    {
        self.state.bases(plan);
    }

    /// Runs a plan that was made from the present state: the state becomes the fold of its events.
    ///
    /// There are 1 to [`WORKERS`](morph_base::WORKERS) workers. As many take part as the batch has work for: one for
    /// each 8,192 operations, and at least one. Under a gate that [needs threads](Gate::needs_threads) all of them do.
    /// The others have a hand on the board that does nothing, and an empty list of causes.
    ///
    /// Those who take part share a board with a word for each operation. First they explore: they evaluate the
    /// operations, on the values that their sources show at the time. By strata they go level by level, and take the
    /// operations of each level from a counter. By deques each worker has a deque of operations: those of level 1 are
    /// dealt to all, what an evaluation made ready is pushed, and a worker with nothing left steals from another. Then
    /// they settle the events, each tried once: what rested on an aborted version is rolled back and evaluated again.
    /// Whatever a worker skipped because another was in its way is completed in the end, on plain data.
    ///
    /// Under lazy abort a failure waits for settling. Under eager abort its cascade is run at once, and what the
    /// cascade rolled back is explored again: by strata from a lower level on, and by deques as an operation that is
    /// pushed. So an operation may be evaluated up to eight times, and up to twice under lazy abort. Neither that nor
    /// the number of workers, the rest of the strategy or the gate changes the state, the values and the verdicts.
    ///
    /// The closed board shows how it was done: the worker that settled an operation, the number of evaluations, and why
    /// an event was left. With one worker none is left. What exploring took was reached in a worker's trail: by strata
    /// each place of each pass, and by deques each operation that was handed out and taken. By strata each level was
    /// passed, or as many passes were made as the board has counters for.
    ///
    /// All memory is taken before the first worker runs. If it is refused, the state stays, and the plan is dropped.
    pub fn run_batch<R: Threads + Sync, G: Gate>(
        &mut self,
        rt: &R,
        alloc: Global,
        plan: Plan,
        strategy: &Strategy,
        workers: u32,
        gate: &G,
    ) -> Result<BatchEnd, OutOfMemory>
        requires plan { IsValidPlan plan }
        requires bases { HasBases plan (contents self.old) }
        requires keys { PlanKeysIn plan self.old.layout }
        requires some { 1 ≤ workers }
        requires few { workers ≤ most_workers }
        ensures state { OnOk result
            (contents self.new ≡ state_at plan (contents self.old) (event_count plan)) }
        ensures layout { self.new.layout ≡ self.old.layout }
        ensures ended { IfOk result (IsEnd plan strategy.now workers (contents self.old)) }
        ensures refused { OnErr result (self.new ≡ self.old) }
    {
        let side_by_side = gate.needs_threads();
        let prepared = Prepared::new(alloc, &plan, strategy, workers, side_by_side, 0)?;
        Ok(self.run_prepared(rt, alloc, prepared, plan, strategy, gate))
    }

    /// Runs a plan that all memory is taken for, and applies what was settled to the state.
    pub(crate) fn run_prepared<R: Threads + Sync, G: Gate>(
        &mut self,
        rt: &R,
        alloc: Global,
        prepared: Prepared,
        plan: Plan,
        strategy: &Strategy,
        gate: &G,
    ) -> BatchEnd
        requires plan { IsValidPlan plan }
        requires bases { HasBases plan (contents self.old) }
        requires keys { PlanKeysIn plan self.old.layout }
        requires prepared { IsPrepared plan prepared }
        requires explore { explore_of prepared.supply ≡ strategy.now.explore }
        requires abort { prepared.abort ≡ strategy.now.abort }
        ensures state { contents self.new ≡ state_at plan (contents self.old) (event_count plan) }
        ensures layout { self.new.layout ≡ self.old.layout }
        ensures ran { IsEnd plan strategy.now (workers_of prepared) (contents self.old) result }
        ensures kept { (room : ℕ) → HasJournalRoom room prepared
            → workers_of prepared ≡ 1
            → IsJournalledRun plan strategy.now.abort room result.closed }
    {
        let Ran {
            settled,
            closed,
            left,
            tallied,
        } = prepared.run(rt, alloc, &plan, gate);
        self.state.apply(&plan, &settled);
        let counts = closed.counts();
        BatchEnd {
            plan,
            strategy: *strategy,
            settled,
            closed,
            left,
            counts,
            handed: tallied.handed,
            stolen: tallied.stolen,
        }
    }
}
