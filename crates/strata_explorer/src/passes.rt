//! Passes over levels, one after another, under eager abort.
ghost use Rattle.std.specs.Prelude.{◌≡◌, ◌≤◌, ◌<◌, ◌+◌, ◌^◌, true, false, [], ◌∷◌, All, length};
ghost use Rattle.chain_units.specs.Places.{IsPartition};
ghost use Rattle.interleaving_core.specs.Counts.{rolled};
ghost use Rattle.morph_base.specs.declared.strategy.Abort.TheVariants.{Eager};
ghost use Rattle.morph_base.specs.Graphs.{IsValidPlan};
ghost use Rattle.morph_base.specs.Readers.{dependents_of};
ghost use Rattle.morph_base.specs.Plans.{op_count};
ghost use Rattle.op_words.specs.declared.board.Board.{Board as B};
ghost use Rattle.op_words.specs.Hands.{plan_of, cap_of, counters_of, up_to, IsHandOf};
ghost use Rattle.op_eval.specs.Further.{HaveGoneOn};
ghost use Rattle.op_eval.specs.Exploring.{Unused};
ghost use Rattle.op_eval.specs.Running.{hand_view, IsFreeRunner};
ghost use Rattle.strata_explorer.specs.Levels.{counters_for, ops_of, rolled_by};
ghost use Rattle.strata_explorer.specs.Levels.{AreStrata, FollowsPass};
ghost use Rattle.strata_explorer.specs.Outcomes.{HaveMadePasses};
ghost use Rattle.strata_explorer.specs.Passes.{course_rules, AreLike, IsPassed};

use crate::course::Course;
use crate::exploration::counters;
use crate::pass::{Pass, pass_by};
use abort_eager::Ground;
use op_eval::{RunEnd, Runner};
use op_words::Board;
use std::thread::Threads;
use worker_gate::Gate;

/// How many operations a runner rolled back, up to the greatest u64.
fn rolled_of(runner: &Runner) -> u64
    ensures { (b : B) → IsHandOf b runner.now.hand
        → result ≡ up_to (rolled (hand_view runner.now).events) }
{
    runner.hand.counts().rolled
}

/// How many operations all runners rolled back, up to the greatest u64.
fn count_rolled(runners: &[Runner]) -> u64
    ensures { (b : B) → All (IsFreeRunner b) runners.now → result ≡ up_to (rolled_by runners.now) }
{
    let mut total = 0u64;
    for k in 0..runners.len() {
        total = total.saturating_add(rolled_of(&runners[k]));
    }
    total
}

/// Whether operations were rolled back, beyond the `rolled` ones before.
fn has_risen(runners: &[Runner], rolled: u64) -> bool
    ensures { result ≡ true → (b : B) → All (IsFreeRunner b) runners.now
        → rolled < up_to (rolled_by runners.now) }
{
    count_rolled(runners) > rolled
}

/// Puts the greatest level into the level word, before a pass in which workers may lower it.
fn empty_level(board: &mut Board, runners: &mut [Runner])
    requires some { 0 < length runners.old }
    requires seated { All (IsFreeRunner board.old) runners.old }
    ensures seated { All (IsFreeRunner board.new) runners.new }
    ensures like { AreLike runners.old runners.new }
    ensures plan { plan_of board.new ≡ plan_of board.old }
    ensures cap { cap_of board.new ≡ cap_of board.old }
    ensures counters { counters_of board.new ≡ counters_of board.old }
{
    board.reset_level(&mut runners[0].hand);
}

/// The level of the next pass: the level above, or that of the level word if operations were rolled back and it is
/// lower.
fn next_level(board: &Board, runners: &mut [Runner], level: usize, risen: bool) -> usize
    requires some { 0 < length runners.old }
    requires seated { All (IsFreeRunner board.now) runners.old }
    requires small { level < 2 ^ 32 }
    ensures seated { All (IsFreeRunner board.now) runners.new }
    ensures like { AreLike runners.old runners.new }
    ensures most { result ≤ level + 1 }
    ensures above { risen ≡ false → result ≡ level + 1 }
{
    if !risen {
        return level + 1;
    }
    // The level word counts from 1 on.
    let lowest = board.level(&mut runners[0].hand) as usize;
    lowest.saturating_sub(1).min(level + 1)
}

/// Makes a pass over a level, by the counter of its own number, and returns the level that comes next.
fn pass_once<R: Threads + Sync, G: Gate>(
    rt: &R,
    board: &mut Board,
    runners: &mut [Runner],
    course: &Course<'_, G>,
    level: usize,
    counter: u32,
) -> usize
    requires eager { course.now.abort ≡ Eager }
    requires valid { IsValidPlan course.now.plan.now }
    requires plan { course.now.plan.now ≡ plan_of board.old }
    requires units { IsPartition course.now.units.now.units (op_count course.now.plan.now) }
    requires number { course.now.units.now.ops ≡ op_count course.now.plan.now }
    requires dependents { course.now.dependents.now ≡ dependents_of course.now.plan.now }
    requires level { level < length course.now.plan.now.op_levels.items }
    requires counter { counter < counters_of board.old }
    requires some { 0 < length runners.old }
    requires seated { All (IsFreeRunner board.old) runners.old }
    requires unused { All (Unused counter) runners.old }
    ensures seated { All (IsFreeRunner board.new) runners.new }
    ensures plan { plan_of board.new ≡ plan_of board.old }
    ensures cap { cap_of board.new ≡ cap_of board.old }
    ensures counters { counters_of board.new ≡ counters_of board.old }
    ensures passed { IsPassed (course_rules board.old course.now) counter
        (ops_of course.now.plan.now level) runners.old runners.new }
    ensures next { FollowsPass (course_rules board.old course.now) result (level ∷ [])
        runners.old runners.new }
{
    empty_level(board, runners);
    let rolled = count_rolled(runners);
    let pass = Pass {
        ground: Ground {
            board,
            plan: course.plan,
            units: course.units,
            abort: course.abort,
            dependents: course.dependents,
        },
        gate: course.gate,
        ops: course.plan.op_levels.get(level).as_slice(),
        counter,
        workers: runners.len(),
    };
    pass_by(rt, runners, &pass);
    let risen = has_risen(runners, rolled);
    next_level(board, runners, level, risen)
}

/// Makes passes from the lowest level on, until there is no next level or no counter is left. Returns why they ended,
/// and how many there were.
pub(crate) fn pass_in_turn<R: Threads + Sync, G: Gate>(
    rt: &R,
    board: &mut Board,
    runners: &mut [Runner],
    course: &Course<'_, G>,
) -> (RunEnd, u32)
    requires eager { course.now.abort ≡ Eager }
    requires valid { IsValidPlan course.now.plan.now }
    requires plan { course.now.plan.now ≡ plan_of board.old }
    requires units { IsPartition course.now.units.now.units (op_count course.now.plan.now) }
    requires number { course.now.units.now.ops ≡ op_count course.now.plan.now }
    requires dependents { course.now.dependents.now ≡ dependents_of course.now.plan.now }
    requires counters { counters_for course.now.plan.now ≤ counters_of board.old }
    requires some { 0 < length runners.old }
    requires seated { All (IsFreeRunner board.old) runners.old }
    requires ready { AreStrata course.now.plan.now [] runners.old }
    ensures seated { All (IsFreeRunner board.new) runners.new }
    ensures plan { plan_of board.new ≡ plan_of board.old }
    ensures cap { cap_of board.new ≡ cap_of board.old }
    ensures counters { counters_of board.new ≡ counters_of board.old }
    ensures hands { HaveGoneOn runners.old runners.new }
    ensures passed { HaveMadePasses (course_rules board.old course.now) runners.old runners.new
        result.0 result.1 }
{
    let levels = course.plan.op_levels.len();
    let most = counters(course.plan);
    let mut level = 0;
    let mut passes = 0;
    while level < levels && passes < most {
        level = pass_once(rt, board, runners, course, level, passes);
        passes += 1;
    }
    let end = if level < levels {
        RunEnd::Spent
    } else {
        RunEnd::Whole
    };
    (end, passes)
}
