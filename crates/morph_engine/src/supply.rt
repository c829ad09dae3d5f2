//! What workers take operations from while they explore, and exploring with it.
ghost use Rattle.std.specs.Prelude.{◌≡◌, ◌≤◌, IfOk, length};
ghost use Rattle.chain_units.specs.Places.{IsPartition};
ghost use Rattle.morph_base.specs.declared.strategy.Abort.TheVariants.{Lazy};
ghost use Rattle.morph_base.specs.Graphs.{IsValidPlan};
ghost use Rattle.morph_base.specs.Limits.{most_workers};
ghost use Rattle.morph_base.specs.Plans.{op_count};
ghost use Rattle.morph_engine.specs.Exploring.{explore_of, IsSupply, HasDependentsFor, HasExploredBy};
ghost use Rattle.op_eval.specs.Alone.{IsNewRoot, HasRunAll};
ghost use Rattle.op_eval.specs.Exploring.{MayExplore, IsExploredBoard};
ghost use Rattle.op_eval.specs.Further.{HaveGoneOn};
ghost use Rattle.op_eval.specs.Gathering.{runners_of};
ghost use Rattle.op_words.specs.Hands.{plan_of, cap_of, counters_of};
ghost use Rattle.strata_explorer.specs.Levels.{counters_for};

use crate::crew::Crew;
use chain_units::Units;
use morph_base::{Abort, Explore, OutOfMemory, Plan, Rows};
use op_eval::{Explored, Runners};
use op_words::Board;
use std::alloc::Global;
use std::thread::Threads;
use worker_gate::Gate;

/// What workers take operations from while they explore.
#[derive(Drop)]
pub(crate) enum Supply {
    /// The counters of the board, one for each pass.
    Counters,
    /// Deques: each worker of a crew takes from its own, or steals.
    Deques(Crew),
}

/// How many operations were handed out to workers, and how many of these another worker took.
#[derive(Clone, Copy)]
pub(crate) struct Tallied {
    pub(crate) handed: u64,
    pub(crate) stolen: u64,
}

impl Supply {
    /// Takes the memory that exploring needs beside the board. By strata it needs none.
    pub(crate) fn new(
        alloc: Global,
        plan: &Plan,
        explore: Explore,
        workers: u32,
        side_by_side: bool,
    ) -> Result<Self, OutOfMemory>
        requires valid { IsValidPlan plan.now }
        requires some { 1 ≤ workers }
        requires few { workers ≤ most_workers }
        ensures explore { IfOk result (λ made. explore_of made ≡ explore) }
        ensures ready { IfOk result (IsSupply plan.now workers) }
    {
        match explore {
            Explore::Strata => Ok(Supply::Counters),
            Explore::Steal => {
                let crew = Crew::new(alloc, plan, workers, side_by_side)?;
                Ok(Supply::Deques(crew))
            }
        }
    }
}

/// Explores a batch by strata or by deques. By strata nothing is handed out. The dependents are those of the plan, or
/// any rows by strata under lazy abort.
pub(crate) fn explore_by<R: Threads + Sync, G: Gate>(
    rt: &R,
    board: Board,
    runners: Runners,
    supply: Supply,
    plan: &Plan,
    units: &Units,
    abort: Abort,
    dependents: &Rows,
    gate: &G,
) -> (Explored, Tallied)
    requires valid { IsValidPlan plan.now }
    requires plan { plan.now ≡ plan_of board }
    requires units { IsPartition units.now.units (op_count plan.now) }
    requires number { units.now.ops ≡ op_count plan.now }
    requires counters { counters_for plan.now ≤ counters_of board }
    requires cap { 1 ≤ cap_of board }
    requires ready { MayExplore board 0 runners }
    requires supply { IsSupply plan.now (length (runners_of runners)) supply }
    requires dependents { HasDependentsFor plan.now (explore_of supply) abort dependents.now }
    ensures explored { IsExploredBoard result.0 }
    ensures plan { plan_of result.0.board ≡ plan_of board }
    ensures cap { cap_of result.0.board ≡ cap_of board }
    ensures counters { counters_of result.0.board ≡ counters_of board }
    ensures hands { HaveGoneOn (runners_of runners) (runners_of result.0.runners) }
    ensures ran { abort ≡ Lazy → IsNewRoot (runners_of runners)
        → HasRunAll plan.now (runners_of result.0.runners) }
    ensures next_counter { result.0.next_counter ≤ counters_for plan.now }
    ensures way { HasExploredBy (explore_of supply) plan.now abort (runners_of runners)
        result.0 result.1.handed
        result.1.stolen }
{
    match supply {
        Supply::Counters => {
            let explored = strata_explorer::explore(
                rt, board, runners, plan, units, abort, dependents, gate,
            );
            let none = Tallied {
                handed: 0,
                stolen: 0,
            };
            (explored, none)
        }
        Supply::Deques(crew) => {
            crew.explore(rt, board, runners, plan, units, abort, dependents, gate)
        }
    }
}
