//! All levels of a plan, over which each worker goes by itself.
ghost use Rattle.std.specs.Prelude.{ℕ, ◌≡◌, ◌<◌, ◌≤◌, ◌*◌, [], All, length};
ghost use Rattle.chain_units.specs.Places.{IsPartition};
ghost use Rattle.morph_base.specs.declared.strategy.Abort.TheVariants.{Lazy};
ghost use Rattle.morph_base.specs.Graphs.{IsValidPlan};
ghost use Rattle.morph_base.specs.Plans.{op_count};
ghost use Rattle.abort_eager.specs.Grounds.{IsGround, ground_rules};
ghost use Rattle.op_words.specs.Hands.{plan_of, cap_of, counters_of};
ghost use Rattle.op_eval.specs.Exploring.{Unused};
ghost use Rattle.op_eval.specs.Further.{HaveGoneOn};
ghost use Rattle.op_eval.specs.Running.{IsFreeRunner};
ghost use Rattle.worker_gate.specs.Parts.{AreShares, part_at, part_counter};
ghost use Rattle.strata_explorer.specs.Levels.{counters_for, AreStrata, IsAlone};
ghost use Rattle.strata_explorer.specs.Outcomes.{HaveGoneOver};
ghost use Rattle.strata_explorer.specs.Parts.{DoesLevel, DoesTurn, GoesOver};
ghost use Rattle.strata_explorer.specs.Passes.{course_rules};

use crate::course::Course;
use crate::look_ahead::LookAhead;
use crate::walk::work;
use abort_eager::Ground;
use morph_base::Plan;
use op_eval::{Patience, RunEnd, Runner};
use op_words::Board;
use std::thread::Threads;
use worker_gate::{
    Gate, Job, Shares, Told, Turns, burst_for, part_of, pieces_for, run_all, shareable, takes_part,
    threads_for,
};

/// How many pieces of work an operation is worth if its worker is started once for all levels.
const OP_PIECES: usize = 128;

/// How many pieces of work it is to explore a plan, if workers are started once for all levels.
fn pieces(plan: &Plan) -> usize {
    shareable(plan.ops.len(), plan.op_levels.len()).saturating_mul(OP_PIECES)
}

/// What workers share if each of them goes over all levels of the plan.
#[derive(Drop)]
pub(crate) struct Levels<'a, G> {
    pub(crate) ground: Ground<'a>,
    pub(crate) gate: &'a G,
    pub(crate) shares: Shares,
}

/// One of these workers.
#[derive(Drop)]
struct Climber<'a, T> {
    ground: &'a Ground<'a>,
    told: &'a T,
    shares: Shares,
    /// Its number, from 0 on.
    number: usize,
}

impl<T: Turns> Climber<'_, T> {
    /// Takes the places of one part of a level, by the counter of the part, if the worker [takes part](takes_part) in
    /// the level. The turn says which part it is.
    fn do_part(&self, level: usize, turn: usize, runner: &mut Runner, patience: &mut Patience)
        requires ground { IsGround self.now.ground.now }
        requires shares { AreShares self.now.shares }
        requires counters { counters_for self.now.ground.now.plan.now
            ≤ counters_of self.now.ground.now.board.now }
        requires level { level < length self.now.ground.now.plan.now.op_levels.items }
        requires turn { turn < self.now.shares.parts }
        requires seated { IsFreeRunner self.now.ground.now.board.now runner.old }
        requires unused { Unused (part_counter self.now.shares.parts level
            (part_at self.now.shares self.now.number turn)) runner.old }
        ensures seated { IsFreeRunner self.now.ground.now.board.now runner.new }
        ensures part { DoesTurn (ground_rules self.now.ground.now) self.now.shares self.now.number
            level turn runner.old runner.new }
    {
        let ops = self.ground.plan.op_levels.get(level).as_slice();
        if takes_part(self.number, ops.len()) {
            let part = self.shares.part_at(self.number, turn);
            let counter = (level * self.shares.parts + part) as u32;
            let most = burst_for(self.shares.threads, ops.len());
            let ops = part_of(ops, self.shares.parts, part);
            work(self.ground, self.told, ops, counter, most, runner, patience);
        }
    }

    /// Takes the places of all parts of a level, from the worker's own part on.
    fn do_parts(&self, level: usize, runner: &mut Runner, patience: &mut Patience)
        requires ground { IsGround self.now.ground.now }
        requires shares { AreShares self.now.shares }
        requires counters { counters_for self.now.ground.now.plan.now
            ≤ counters_of self.now.ground.now.board.now }
        requires level { level < length self.now.ground.now.plan.now.op_levels.items }
        requires seated { IsFreeRunner self.now.ground.now.board.now runner.old }
        requires unused { (c : ℕ) → level * self.now.shares.parts ≤ c → Unused c runner.old }
        ensures seated { IsFreeRunner self.now.ground.now.board.now runner.new }
        ensures level { DoesLevel (ground_rules self.now.ground.now) self.now.shares self.now.number
            level runner.old runner.new }
    {
        for turn in 0..self.shares.parts {
            self.do_part(level, turn, runner, patience);
        }
    }

    /// Does the worker's part of a level, before which it may look ahead.
    fn do_level(
        &self,
        level: usize,
        ahead: &mut LookAhead,
        runner: &mut Runner,
        patience: &mut Patience,
    )
        requires ground { IsGround self.now.ground.now }
        requires shares { AreShares self.now.shares }
        requires counters { counters_for self.now.ground.now.plan.now
            ≤ counters_of self.now.ground.now.board.now }
        requires level { level < length self.now.ground.now.plan.now.op_levels.items }
        requires seated { IsFreeRunner self.now.ground.now.board.now runner.old }
        requires unused { (c : ℕ) → level * self.now.shares.parts ≤ c → Unused c runner.old }
        ensures seated { IsFreeRunner self.now.ground.now.board.now runner.new }
        ensures level { DoesLevel (ground_rules self.now.ground.now) self.now.shares self.now.number
            level runner.old runner.new }
    {
        ahead.look(self.ground, self.shares, self.number, level, runner);
        self.do_parts(level, runner, patience);
    }

    /// Goes over all levels, from the lowest on. In one thread nobody waits, since the first worker has done all before
    /// the next begins.
    fn go_over(&self, runner: &mut Runner)
        requires ground { IsGround self.now.ground.now }
        requires shares { AreShares self.now.shares }
        requires counters { counters_for self.now.ground.now.plan.now
            ≤ counters_of self.now.ground.now.board.now }
        requires seated { IsFreeRunner self.now.ground.now.board.now runner.old }
        requires unused { (c : ℕ) → Unused c runner.old }
        ensures seated { IsFreeRunner self.now.ground.now.board.now runner.new }
        ensures goes_over { GoesOver (ground_rules self.now.ground.now) self.now.shares
            self.now.number (length self.now.ground.now.plan.now.op_levels.items)
            runner.old runner.new }
    {
        let mut patience = Patience::among(self.shares.threads);
        let mut ahead = LookAhead::new();
        for level in 0..self.ground.plan.op_levels.len() {
            self.do_level(level, &mut ahead, runner, &mut patience);
        }
    }
}

impl<G: Gate> Job<Runner> for Levels<'_, G> {
    ghost use Rattle.std.specs.Prelude.{ℕ, ◌≤◌, length};
    ghost use Rattle.abort_eager.specs.Grounds.{IsGround, ground_rules};
    ghost use Rattle.op_words.specs.Hands.{counters_of};
    ghost use Rattle.op_eval.specs.Exploring.{Unused};
    ghost use Rattle.op_eval.specs.Running.{IsFreeRunner};
    ghost use Rattle.worker_gate.specs.Parts.{AreShares};
    ghost use Rattle.strata_explorer.specs.Levels.{counters_for};
    ghost use Rattle.strata_explorer.specs.Parts.{GoesOver};

    ghost can_run = { λ levels runner. IsGround levels.ground × AreShares levels.shares
        × (counters_for levels.ground.plan.now ≤ counters_of levels.ground.board.now)
        × IsFreeRunner levels.ground.board.now runner × ((c : ℕ) → Unused c runner) };

    ghost changes = { λ levels number before after. IsFreeRunner levels.ground.board.now after
        × GoesOver (ground_rules levels.ground) levels.shares number
        (length levels.ground.plan.now.op_levels.items) before after };

    fn run(&self, number: usize, worker: &mut Runner) {
        let told = Told {
            gate: self.gate,
            worker: u32::from(worker.hand.tag()),
        };
        let climber = Climber {
            ground: &self.ground,
            told: &told,
            shares: self.shares,
            number,
        };
        climber.go_over(worker)
    }
}

/// Has each worker go over all levels. The workers are started once for all of them, in as many threads as the
/// operations of the plan are worth. Returns how it ended, and how many counters the parts of the levels have.
pub(crate) fn pass_levels<R: Threads + Sync, G: Gate>(
    rt: &R,
    board: &Board,
    runners: &mut [Runner],
    course: &Course<'_, G>,
) -> (RunEnd, u32)
    requires lazy { course.now.abort ≡ Lazy }
    requires valid { IsValidPlan course.now.plan.now }
    requires plan { course.now.plan.now ≡ plan_of board.now }
    requires units { IsPartition course.now.units.now.units (op_count course.now.plan.now) }
    requires number { course.now.units.now.ops ≡ op_count course.now.plan.now }
    requires counters { counters_for course.now.plan.now ≤ counters_of board.now }
    requires some { 0 < length runners.old }
    requires seated { All (IsFreeRunner board.now) runners.old }
    requires ready { AreStrata course.now.plan.now [] runners.old }
    ensures seated { All (IsFreeRunner board.now) runners.new }
    ensures hands { HaveGoneOn runners.old runners.new }
    ensures passed { HaveGoneOver (course_rules board.now course.now) runners.old runners.new
        result.0 result.1 }
    ensures alone { 1 ≤ cap_of board.now
        → IsAlone course.now.plan.now (length course.now.plan.now.op_levels.items)
        runners.old runners.new }
{
    let pieces = pieces_for(course.gate, pieces(course.plan));
    let shares = Shares::among(runners.len(), threads_for(runners.len(), pieces));
    let levels = Levels {
        ground: Ground {
            board,
            plan: course.plan,
            units: course.units,
            abort: course.abort,
            dependents: course.dependents,
        },
        gate: course.gate,
        shares,
    };
    run_all(rt, runners, pieces, &levels);
    let counters = course.plan.op_levels.len() * shares.parts;
    (RunEnd::Whole, counters as u32)
}
