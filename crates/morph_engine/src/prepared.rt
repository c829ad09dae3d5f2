//! What a batch takes its memory for, and its run with that, which takes none.
ghost use Rattle.std.specs.Prelude.{◌≡◌, ◌↔◌, ℕ, ◌≤◌, ◌<◌, IfOk, IsTrue, map};
ghost use Rattle.morph_base.specs.Graphs.{IsValidPlan};
ghost use Rattle.morph_base.specs.Limits.{most_attempts, most_workers};
ghost use Rattle.morph_base.specs.Plans.{IsPlan, IsSettledOf};
ghost use Rattle.op_words.specs.Hands.{plan_of, cap_of as cap_of_board, counters_of, view_of, IsHandOf};
ghost use Rattle.op_words.specs.Journals.{roomed};
ghost use Rattle.op_words.specs.Rule.{first_view};
ghost use Rattle.morph_engine.specs.Caps.{cap_for};
ghost use Rattle.morph_engine.specs.Exploring.{explore_of, NeedsDependents, HasDependentsFor};
ghost use Rattle.morph_engine.specs.Runs.{run_outcome, workers_of, IsPrepared, HasJournalRoom, HasRun, IsJournalledRun};

use crate::supply::{Supply, Tallied, explore_by};
use crate::team::team_for;
use abort_lazy::{Room, finish, settle_all};
use chain_units::{Units, units};
use morph_base::{Abort, Explore, List, OutOfMemory, Plan, Rows, Settled, Strategy};
use op_eval::{Left, Runners};
use op_words::{Board, Closed, Hand};
use precedence_graph::dependents;
use std::alloc::Global;
use std::thread::Threads;
use strata_explorer::counters;
use worker_gate::Gate;

/// The last attempt at which an operation may read what is not settled. After it each operation has one more attempt,
/// on settled values.
///
/// Under lazy abort one is enough. Under eager abort an operation is evaluated again while others explore, on values
/// that may be rolled back once more.
fn cap_of(abort: Abort) -> u8
    ensures { result ≡ cap_for abort }
{
    match abort {
        Abort::Lazy => 1,
        Abort::Eager => 7,
    }
}

/// Makes the board of a plan and its root, which keeps a journal if there is to be room for one.
fn board_for(
    alloc: Global,
    plan: &Plan,
    cap: u8,
    counters: u32,
    room: usize,
) -> Result<(Board, Hand), OutOfMemory>
    requires plan { IsPlan plan.now }
    requires cap { cap < most_attempts }
    ensures plan { IfOk result (λ r. plan_of r.0 ≡ plan.now) }
    ensures cap { IfOk result (λ r. cap_of_board r.0 ≡ cap) }
    ensures counters { IfOk result (λ r. counters_of r.0 ≡ counters) }
    ensures hand { IfOk result (λ r. IsHandOf r.0 r.1) }
    ensures view { IfOk result (λ r. view_of r.1
        ≡ roomed room (first_view r.0.table.shared.key.plan cap)) }
{
    let (board, mut root) = Board::new(alloc, plan, cap, counters)?;
    if room > 0 {
        root.keep(alloc, &board, room)?;
    }
    Ok((board, root))
}

/// Whether workers ask which operations read from one, while they explore by this strategy.
fn needs_dependents(strategy: &Strategy) -> bool
    ensures { IsTrue result ↔ NeedsDependents strategy.now.explore strategy.now.abort }
{
    strategy.explore == Explore::Steal || strategy.abort == Abort::Eager
}

/// Makes the lists of what reads from each operation, if this strategy needs them. They take time for each dependency
/// of the batch.
fn dependents_for(alloc: Global, plan: &Plan, strategy: &Strategy) -> Result<Rows, OutOfMemory>
    requires valid { IsValidPlan plan.now }
    ensures { IfOk result (HasDependentsFor plan.now strategy.now.explore strategy.now.abort) }
{
    if needs_dependents(strategy) {
        dependents(alloc, plan)
    } else {
        Ok(Rows::none(alloc))
    }
}

/// All that a batch takes its memory for, before its first worker runs.
pub(crate) struct Prepared {
    abort: Abort,
    units: Units,
    board: Board,
    /// Those of the workers who take part.
    runners: Runners,
    /// How many more workers there are.
    idle: u32,
    supply: Supply,
    /// For each operation those that read from it, if workers need them.
    dependents: Rows,
    room: Room,
}

// Not derived: see "What costs" in docs/CONTRIBUTING.md.
impl Drop for Prepared {
    fn drop(self) {
        let Prepared {
            abort: _,
            units: _,
            board: _,
            runners: _,
            idle: _,
            supply: _,
            dependents: _,
            room: _,
        } = self;
    }
}

/// What the workers and the plain finish made of a batch.
#[derive(Drop)]
pub(crate) struct Ran {
    pub(crate) settled: Settled,
    pub(crate) closed: Closed,
    pub(crate) left: List<List<Left>>,
    pub(crate) tallied: Tallied,
}

impl Prepared {
    /// Takes the memory for a plan, for this strategy and this many workers. The root has this much room for a journal.
    /// If the workers are to work side by side, all of them take part, and else as many as the plan has work for.
    pub(crate) fn new(
        alloc: Global,
        plan: &Plan,
        strategy: &Strategy,
        workers: u32,
        side_by_side: bool,
        room: usize,
    ) -> Result<Self, OutOfMemory>
        requires valid { IsValidPlan plan.now }
        requires some { 1 ≤ workers }
        requires few { workers ≤ most_workers }
        ensures prepared { IfOk result (IsPrepared plan.now) }
        ensures workers { IfOk result (λ made. workers_of made ≡ workers) }
        ensures explore { IfOk result (λ made. explore_of made.supply ≡ strategy.now.explore) }
        ensures abort { IfOk result (λ made. made.abort ≡ strategy.now.abort) }
        ensures journal { IfOk result (HasJournalRoom room) }
    {
        let units = units(alloc, plan, strategy.unit)?;
        let counters = counters(plan) + 4 * plan.event_levels.len() as u32;
        let (board, root) = board_for(alloc, plan, cap_of(strategy.abort), counters, room)?;
        let team = team_for(plan, workers, side_by_side);
        let runners = Runners::new(alloc, &board, root, team, plan.events.len() as u32)?;
        let supply = Supply::new(alloc, plan, strategy.explore, team, side_by_side)?;
        let dependents = dependents_for(alloc, plan, strategy)?;
        let room = Room::new(alloc, plan)?;
        Ok(Prepared {
            abort: strategy.abort,
            units,
            board,
            runners,
            idle: workers - team,
            supply,
            dependents,
            room,
        })
    }

    /// Explores and settles the plan side by side, closes the board, and completes what was left.
    pub(crate) fn run<R: Threads + Sync, G: Gate>(
        self,
        rt: &R,
        alloc: Global,
        plan: &Plan,
        gate: &G,
    ) -> Ran
        requires valid { IsValidPlan plan.now }
        requires prepared { IsPrepared plan.now self }
        ensures settled { IsSettledOf plan.now result.settled }
        ensures ran { HasRun plan.now (explore_of self.supply) self.abort
            (workers_of self) result.closed
            (run_outcome (map (λ list. list.items) result.left.items) result.settled.by.items
            result.tallied.handed result.tallied.stolen) }
        ensures kept { (room : ℕ) → HasJournalRoom room self
            → workers_of self ≡ 1
            → IsJournalledRun plan.now self.abort room result.closed }
    {
        let Prepared {
            abort,
            units,
            board,
            runners,
            idle,
            supply,
            dependents,
            room,
        } = self;
        let (explored, tallied) = explore_by(
            rt,
            board,
            runners,
            supply,
            plan,
            &units,
            abort,
            &dependents,
            gate,
        );
        let (closed, left) = settle_all(rt, explored, plan).close(alloc, plan, idle);
        let settled = finish(&closed, plan, room);
        Ran {
            settled,
            closed,
            left,
            tallied,
        }
    }
}
