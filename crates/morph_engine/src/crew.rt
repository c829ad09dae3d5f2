//! The workers who explore a batch by deques, and the others, who wait.
ghost use Rattle.std.specs.Prelude.{◌≡◌, ◌+◌, ◌<◌, ◌≤◌, [], ◌++◌, IfOk, length, reverse};
ghost use Rattle.chain_units.specs.Places.{IsPartition};
ghost use Rattle.morph_base.specs.declared.strategy.Abort.TheVariants.{Lazy};
ghost use Rattle.morph_base.specs.Graphs.{IsValidPlan};
ghost use Rattle.morph_base.specs.Readers.{dependents_of};
ghost use Rattle.morph_base.specs.Limits.{most_workers};
ghost use Rattle.morph_base.specs.Plans.{op_count};
ghost use Rattle.morph_engine.specs.Crews.{IsCrew, AreWaiting};
ghost use Rattle.morph_engine.specs.Exploring.{HaveHanded};
ghost use Rattle.op_eval.specs.Alone.{IsNewRoot, HasRunAll};
ghost use Rattle.op_eval.specs.Exploring.{MayExplore, IsExploredBoard};
ghost use Rattle.op_eval.specs.Further.{HaveGoneOn};
ghost use Rattle.op_eval.specs.Gathering.{runners_of, spare, HasPlaces};
ghost use Rattle.op_words.specs.Hands.{plan_of, cap_of};

use crate::supply::Tallied;
use chain_units::Units;
use morph_base::{Abort, List, OutOfMemory, Plan, Rows};
use op_eval::{Explored, Runner, Runners};
use op_words::Board;
use std::alloc::Global;
use std::thread::Threads;
use steal_explorer::{Deques, pieces};
use worker_gate::{Gate, threads_for};

/// How many workers a batch has work for: one for each thread that it is worth, or all of them if each is to have a
/// thread.
fn working_for(plan: &Plan, workers: u32, side_by_side: bool) -> u32
    requires some { 1 ≤ workers }
    requires few { workers ≤ most_workers }
    ensures some { 1 ≤ result }
    ensures few { result ≤ workers }
{
    if side_by_side {
        return workers;
    }
    threads_for(workers as usize, pieces(plan)) as u32
}

/// Deques for the workers that a batch has work for, and room for the runners of the others, who wait while it is
/// explored.
///
/// A worker with a deque looks into all of them 64 times before it ends. In a small batch that would take longer than
/// the batch itself.
#[derive(Drop)]
pub(crate) struct Crew {
    deques: Deques,
    /// How many workers wait: those with the greatest numbers.
    idle: u32,
    waiting: List<Runner>,
}

/// Takes the runners of the greatest numbers out, the last one first.
fn set_aside(runners: &mut Runners, count: u32, waiting: &mut List<Runner>)
    requires none { waiting.old.items ≡ [] }
    requires room { count ≤ waiting.old.room }
    requires enough { count ≤ length (runners_of runners.old) }
    ensures all { runners_of runners.old ≡ runners_of runners.new ++ reverse waiting.new.items }
    ensures many { length waiting.new.items ≡ count }
    ensures spare { spare runners.new ≡ spare runners.old + count }
    ensures places { HasPlaces runners.old → HasPlaces runners.new }
{
    'aside: for _ in 0..count {
        let Some(runner) = runners.pop() else {
            unreachable!()
        };
        waiting.add(runner);
    }
}

/// Puts runners back after those that are there, the last one first.
fn bring_back(runners: &mut Runners, waiting: &mut List<Runner>)
    requires room { length waiting.old.items ≤ spare runners.old }
    ensures all { runners_of runners.new ≡ runners_of runners.old ++ reverse waiting.old.items }
    ensures places { HasPlaces runners.old → HasPlaces runners.new }
{
    'back: for _ in 0..waiting.len() {
        let Some(runner) = waiting.pop() else {
            unreachable!()
        };
        runners.add(runner);
    }
}

/// What was explored, with the runners of those who waited after the others.
fn with_waiting(explored: Explored, waiting: List<Runner>) -> Explored
    requires explored { IsExploredBoard explored }
    requires room { length waiting.items ≤ spare explored.runners }
    requires waiting { AreWaiting explored.board (reverse waiting.items) }
    ensures explored { IsExploredBoard result }
    ensures board { result.board ≡ explored.board }
    ensures next { result.next_counter ≡ explored.next_counter }
    ensures runners { runners_of result.runners
        ≡ runners_of explored.runners ++ reverse waiting.items }
{
    let mut waiting = waiting;
    let (board, mut runners, end, next) = explored.parts();
    bring_back(&mut runners, &mut waiting);
    Explored::new(board, runners, end, next)
}

impl Crew {
    /// Takes the memory that exploring by deques needs, for the workers that the batch has work for, or for all of them
    /// if they are to work side by side.
    pub(crate) fn new(
        alloc: Global,
        plan: &Plan,
        workers: u32,
        side_by_side: bool,
    ) -> Result<Self, OutOfMemory>
        requires valid { IsValidPlan plan.now }
        requires some { 1 ≤ workers }
        requires few { workers ≤ most_workers }
        ensures { IfOk result (IsCrew plan.now workers) }
    {
        let working = working_for(plan, workers, side_by_side);
        let idle = workers - working;
        Ok(Crew {
            deques: Deques::new(alloc, plan, working)?,
            idle,
            waiting: List::with_room(alloc, idle as usize)?,
        })
    }

    /// Explores a batch by deques. Runners without a deque take no part.
    pub(crate) fn explore<R: Threads + Sync, G: Gate>(
        self,
        rt: &R,
        board: Board,
        runners: Runners,
        plan: &Plan,
        units: &Units,
        abort: Abort,
        dependents: &Rows,
        gate: &G,
    ) -> (Explored, Tallied)
        requires valid { IsValidPlan plan.now }
        requires plan { plan.now ≡ plan_of board }
        requires units { IsPartition units.now.units (op_count plan.now) }
        requires number { units.now.ops ≡ op_count plan.now }
        requires cap { 1 ≤ cap_of board }
        requires ready { MayExplore board 0 runners }
        requires crew { IsCrew plan.now (length (runners_of runners)) self }
        requires dependents { dependents.now ≡ dependents_of plan.now }
        ensures explored { IsExploredBoard result.0 }
        ensures board { result.0.board ≡ board }
        ensures hands { HaveGoneOn (runners_of runners) (runners_of result.0.runners) }
        ensures ran { abort ≡ Lazy → IsNewRoot (runners_of runners)
            → HasRunAll plan.now (runners_of result.0.runners) }
        ensures next_counter { result.0.next_counter ≡ 0 }
        ensures handed { HaveHanded plan.now abort (runners_of runners) result.0 result.1.handed
            result.1.stolen }
    {
        let Crew {
            deques,
            idle,
            mut waiting,
        } = self;
        let mut runners = runners;
        set_aside(&mut runners, idle, &mut waiting);
        let (explored, handed) = steal_explorer::explore(
            rt, board, runners, deques, plan, units, abort, dependents, gate,
        );
        let explored = with_waiting(explored, waiting);
        let tallied = Tallied {
            handed: handed.handed,
            stolen: handed.stolen,
        };
        (explored, tallied)
    }
}
