ghost use Rattle.std.specs.Prelude.{◌≡◌, ◌≤◌, ◌<◌, [], All, length};
ghost use Rattle.chain_units.specs.Places.{IsPartition};
ghost use Rattle.morph_base.specs.declared.strategy.Abort.TheVariants.{Eager, Lazy};
ghost use Rattle.morph_base.specs.Graphs.{IsValidPlan};
ghost use Rattle.morph_base.specs.Readers.{dependents_of};
ghost use Rattle.morph_base.specs.Plans.{op_count};
ghost use Rattle.op_words.specs.Hands.{plan_of, cap_of, counters_of};
ghost use Rattle.op_eval.specs.Alone.{IsNewRoot, HasRunAll};
ghost use Rattle.op_eval.specs.Further.{HaveGoneOn};
ghost use Rattle.op_eval.specs.Exploring.{MayExplore, IsExploredBoard, parts_of, rules_on};
ghost use Rattle.op_eval.specs.Gathering.{runners_of};
ghost use Rattle.op_eval.specs.Running.{IsFreeRunner};
ghost use Rattle.strata_explorer.specs.Levels.{counters_for, AreStrata, IsAlone};
ghost use Rattle.strata_explorer.specs.Outcomes.{HasPassed};
ghost use Rattle.strata_explorer.specs.Passes.{course_rules};

use crate::course::Course;
use crate::levels::pass_levels;
use crate::passes::pass_in_turn;
use chain_units::Units;
use morph_base::{Abort, Plan, Rows};
use op_eval::{Explored, RunEnd, Runner, Runners};
use op_words::Board;
use std::thread::Threads;
use worker_gate::Gate;

/// How many counters a board needs for exploring a plan on it.
pub fn counters(plan: &Plan) -> u32
    requires { IsValidPlan plan.now }
    ensures { result ≡ counters_for plan.now }
{
    4 * plan.op_levels.len() as u32 + 64
}

/// Passes all levels. Under lazy abort workers are started once for all of them. Under eager abort they are started for
/// each pass, since what was rolled back in it says which level comes next. Returns why exploring ended, and how many
/// counters were used.
fn pass_all<R: Threads + Sync, G: Gate>(
    rt: &R,
    board: &mut Board,
    runners: &mut [Runner],
    course: &Course<'_, G>,
) -> (RunEnd, u32)
    requires valid { IsValidPlan course.now.plan.now }
    requires plan { course.now.plan.now ≡ plan_of board.old }
    requires units { IsPartition course.now.units.now.units (op_count course.now.plan.now) }
    requires number { course.now.units.now.ops ≡ op_count course.now.plan.now }
    requires dependents { course.now.abort ≡ Eager
        → course.now.dependents.now ≡ dependents_of course.now.plan.now }
    requires counters { counters_for course.now.plan.now ≤ counters_of board.old }
    requires some { 0 < length runners.old }
    requires seated { All (IsFreeRunner board.old) runners.old }
    requires ready { AreStrata course.now.plan.now [] runners.old }
    ensures seated { All (IsFreeRunner board.new) runners.new }
    ensures plan { plan_of board.new ≡ plan_of board.old }
    ensures cap { cap_of board.new ≡ cap_of board.old }
    ensures counters { counters_of board.new ≡ counters_of board.old }
    ensures hands { HaveGoneOn runners.old runners.new }
    ensures passed { HasPassed (course_rules board.old course.now) runners.old runners.new
        result.0 result.1 }
    ensures alone { course.now.abort ≡ Lazy → 1 ≤ cap_of board.old
        → IsAlone course.now.plan.now (length course.now.plan.now.op_levels.items)
        runners.old runners.new }
{
    match course.abort {
        Abort::Lazy => pass_levels(rt, board, runners, course),
        Abort::Eager => pass_in_turn(rt, board, runners, course),
    }
}

/// Explores a batch level by level, from the lowest level on.
///
/// The places of a level are its operations. Workers take them from counters of the board, in
/// [bursts](worker_gate::burst_for) of up to 16 numbers, so each place goes to one worker. For each place of a burst in
/// turn, the worker walks the unit of the operation from it on. Some worker saw each counter run out, and every
/// operation whose place a worker took was reached in that worker's own trail. Nothing is settled on the way.
///
/// Under lazy abort each worker goes over all levels once, and with one worker all operations have run at attempt 1.
/// Workers are started once for all levels, in as many threads as the operations of the plan are
/// [worth](worker_gate::threads_for) at 128 pieces of work each. A level is cut into as many parts as there are threads,
/// at most 4, and each part has a counter of its own. A worker begins with [its own part](worker_gate::Shares), goes on
/// with those of the others, and is at the next level as soon as no place of any part is left. So before each place it
/// waits until the sources of the operation have values. It does so with a bounded [`Patience`](op_eval::Patience) for
/// all levels, and in one thread nobody waits. A place whose sources have no values when the patience ends is left
/// blocked, and settling evaluates it.
///
/// Under eager abort passes are made over one level after the other, each by a counter of its own. Workers are started
/// for each pass, and a worker runs the cascade of an operation to its end after each evaluation that failed, or that
/// was a second or later attempt. If operations were rolled back in a pass, exploring goes back to the lowest level of
/// one of them.
///
/// Under eager abort `dependents` are those of the plan. Under lazy abort nobody asks for them, and any rows will do.
///
/// The end is [`RunEnd::Whole`] after the last level. It is [`RunEnd::Spent`] if as many passes as the [`counters`] of
/// the plan were made before that, which happens under eager abort alone. The first unused counter is the one after the
/// last pass, or after the last part of the last level. The call takes no memory.
pub fn explore<R: Threads + Sync, G: Gate>(
    rt: &R,
    board: Board,
    runners: Runners,
    plan: &Plan,
    units: &Units,
    abort: Abort,
    dependents: &Rows,
    gate: &G,
) -> Explored
    requires valid { IsValidPlan plan.now }
    requires plan { plan.now ≡ plan_of board }
    requires units { IsPartition units.now.units (op_count plan.now) }
    requires number { units.now.ops ≡ op_count plan.now }
    requires dependents { abort ≡ Eager → dependents.now ≡ dependents_of plan.now }
    requires counters { counters_for plan.now ≤ counters_of board }
    requires ready { MayExplore board 0 runners }
    ensures explored { IsExploredBoard result }
    ensures plan { plan_of (parts_of result).0 ≡ plan_of board }
    ensures cap { cap_of (parts_of result).0 ≡ cap_of board }
    ensures counters { counters_of (parts_of result).0 ≡ counters_of board }
    ensures hands { HaveGoneOn (runners_of runners) (runners_of (parts_of result).1) }
    ensures passed { HasPassed (rules_on board plan.now units.now.units abort) (runners_of runners)
        (runners_of (parts_of result).1) (parts_of result).2 (parts_of result).3 }
    ensures alone { abort ≡ Lazy → 1 ≤ cap_of board
        → IsAlone plan.now (length plan.now.op_levels.items) (runners_of runners)
        (runners_of (parts_of result).1) }
    ensures ran { abort ≡ Lazy → 1 ≤ cap_of board → IsNewRoot (runners_of runners)
        → HasRunAll plan.now (runners_of (parts_of result).1) }
{
    let mut runners = runners;
    let mut board = board;
    let course = Course {
        plan,
        units,
        abort,
        dependents,
        gate,
    };
    let (end, passes) = pass_all(rt, &mut board, runners.as_mut_slice(), &course);
    Explored::new(board, runners, end, passes)
}
