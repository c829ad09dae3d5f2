//! Goes over all levels of events, by workers that are started once.
ghost use Rattle.std.specs.Prelude.{◌≡◌, ◌+◌, ◌≤◌, ◌<◌, ◌↔◌, ◌⊎◌, ℕ, All, IsTrue, length, slice_index_or};
ghost use Rattle.morph_base.specs.declared.limits.TheConstants.{EVENTS};
ghost use Rattle.op_eval.specs.declared.runner.Runner.{Runner as R};
ghost use Rattle.worker_gate.specs.Stages.{InStages};
ghost use Rattle.abort_lazy.specs.Sweeps.{CanSweep};
ghost use Rattle.abort_lazy.specs.Runs.{IsSettling, WasAtLevel, WasAtTurn, counter_at, events_at};
ghost use Rattle.abort_lazy.specs.Levels.{CanGoOver, FitsLevels};

use super::level::{Sweep, go_over};
use morph_base::Plan;
use op_eval::{Patience, Runner};
use op_words::Board;
use std::thread::Threads;
use worker_gate::{Job, Shares, burst_for, part_of, run_all, shareable, takes_part};

/// How many pieces of work trying one event is, by which threads are worth it: one for each 1,024 events.
const EVENT_PIECES: usize = 256;

/// How many pieces of work it is to settle the events of a plan.
pub fn pieces(plan: &Plan) -> usize {
    shareable(plan.events.len(), plan.event_levels.len()).saturating_mul(EVENT_PIECES)
}

/// The levels of a plan's events, each cut into parts.
///
/// The numbers of a part come from a counter of its own. With n parts to a level, that of part k of level l is counter
/// `from` + l * n + k.
#[derive(Drop)]
pub struct Levels<'a> {
    pub board: &'a Board,
    pub plan: &'a Plan,
    pub from: u32,
    /// How the workers share the parts of a level.
    pub shares: Shares,
}

/// Goes over a part of a level, the one at which the worker of this number is in this turn. Passes over it if the worker
/// takes no part in the level.
fn go_over_part(
    levels: &Levels<'_>,
    number: usize,
    level: usize,
    turn: usize,
    runner: &mut Runner,
    patience: &mut Patience,
)
    requires fits { FitsLevels levels.now.board.now levels.now.plan.now levels.now.from
        levels.now.shares }
    requires in_range { level < length levels.now.plan.now.event_levels.items }
    requires turn { turn < levels.now.shares.parts }
    requires can { CanSweep levels.now.board.now
        (levels.now.from + counter_at levels.now.shares number level turn)
        (events_at levels.now.plan.now levels.now.shares number level turn) runner.old }
    ensures { WasAtTurn levels.now.board.now levels.now.plan.now levels.now.from levels.now.shares
        number level turn runner.old runner.new }
{
    let events = levels.plan.event_levels.get(level).as_slice();
    if takes_part(number, events.len()) {
        let shares = &levels.shares;
        let part = shares.part_at(number, turn);
        let sweep = Sweep {
            board: levels.board,
            plan: levels.plan,
            events: part_of(events, shares.parts, part),
            counter: levels.from + (level * shares.parts + part) as u32,
            burst: burst_for(shares.threads, events.len()),
        };
        go_over(&sweep, runner, patience);
    }
}

/// Goes over the parts of one level as the worker of this number, from the worker's own part on.
fn go_over_level(
    levels: &Levels<'_>,
    number: usize,
    level: usize,
    runner: &mut Runner,
    patience: &mut Patience,
)
    requires fits { FitsLevels levels.now.board.now levels.now.plan.now levels.now.from
        levels.now.shares }
    requires in_range { level < length levels.now.plan.now.event_levels.items }
    requires ready { IsSettling levels.now.board.now levels.now.plan.now levels.now.from
        levels.now.shares.parts level runner.old runner.old }
    ensures { WasAtLevel levels.now.board.now levels.now.plan.now levels.now.from levels.now.shares
        number level runner.old runner.new }
{
    for turn in 0..levels.shares.parts {
        go_over_part(levels, number, level, turn, runner, patience);
    }
}

/// Goes over each level as the worker of this number, from the lowest on.
fn go_over_all(levels: &Levels<'_>, number: usize, runner: &mut Runner)
    requires fits { FitsLevels levels.now.board.now levels.now.plan.now levels.now.from
        levels.now.shares }
    requires ready { IsSettling levels.now.board.now levels.now.plan.now levels.now.from
        levels.now.shares.parts 0 runner.old runner.old }
    ensures { InStages (WasAtLevel levels.now.board.now levels.now.plan.now levels.now.from
        levels.now.shares number)
        (length levels.now.plan.now.event_levels.items) runner.old runner.new }
{
    let mut patience = Patience::among(levels.shares.threads);
    for level in 0..levels.plan.event_levels.len() {
        go_over_level(levels, number, level, runner, &mut patience);
    }
}

impl Job<Runner> for Levels<'_> {
    ghost use Rattle.std.specs.Prelude.{length};
    ghost use Rattle.worker_gate.specs.Stages.{InStages};
    ghost use Rattle.abort_lazy.specs.Levels.{CanGoOver};
    ghost use Rattle.abort_lazy.specs.Runs.{WasAtLevel};

    ghost can_run = { λ job runner.
        CanGoOver job.board.now job.plan.now job.from job.shares runner };

    ghost changes = { λ job number before after.
        InStages (WasAtLevel job.board.now job.plan.now job.from job.shares number)
        (length job.plan.now.event_levels.items) before after };

    fn run(&self, number: usize, worker: &mut Runner) {
        go_over_all(self, number, worker)
    }
}

/// Has each of these runners go over all levels, in as many threads as the events are worth.
pub fn go_over_by<T: Threads + Sync>(rt: &T, runners: &mut [Runner], levels: &Levels<'_>)
    requires few { length levels.now.plan.now.events.items ≤ EVENTS }
    requires can { All (CanGoOver levels.now.board.now levels.now.plan.now levels.now.from
        levels.now.shares)
        runners.old }
    ensures gone { (k : ℕ) (d : R) → k < length runners.old
        → InStages (WasAtLevel levels.now.board.now levels.now.plan.now levels.now.from
        levels.now.shares k)
        (length levels.now.plan.now.event_levels.items) (slice_index_or runners.old k d)
        (slice_index_or runners.new k d) }
{
    run_all(rt, runners, pieces(levels.plan), levels);
}
