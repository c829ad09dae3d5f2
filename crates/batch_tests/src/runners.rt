//! Runners that evaluate a batch of many events side by side, level by level.
ghost use Rattle.std.specs.Prelude.{◌≡◌, ◌≤◌};
ghost use Rattle.morph_base.specs.Limits.{most_workers};
ghost use Rattle.morph_base.specs.Plans.{IsPlan};
ghost use Rattle.op_words.specs.Hands.{plan_of, IsHandOf};
ghost use Rattle.op_eval.specs.Gathering.{AreAtRest};
ghost use Rattle.batch_tests.specs.Resting.{StaysAtRest};
ghost use Rattle.op_eval.specs.Running.{IsFreeRunner};

use crate::many_events::{EVENTS, plan};
use morph_base::{OpState, OutOfMemory, Plan};
use op_eval::{Runner, Runners, evaluate};
use op_words::{Board, Hand};
use std::alloc::Global;
use std::test::Fail;
use std::thread::Threads;
use worker_gate::{Job, run_all};

/// The operations of a level, shared out among workers. A worker has those whose place, divided by the number of
/// workers, has its tag as the remainder.
#[derive(Drop)]
struct Level<'a> {
    board: &'a Board,
    plan: &'a Plan,
    level: usize,
    workers: usize,
}

impl Job<Runner> for Level<'_> {
    ghost can_run = { λ job runner. (job.plan.now ≡ plan_of job.board.now) × IsFreeRunner job.board.now runner };

    ghost changes = { λ job _ before after. StaysAtRest job.board.now before after };

    fn run(&self, _number: usize, runner: &mut Runner) {
        if self.level >= self.plan.op_levels.len() {
            return;
        }
        let mine = runner.hand.tag() as usize % self.workers.max(1);
        for (i, op) in self
            .plan
            .op_levels
            .get(self.level)
            .as_slice()
            .iter()
            .enumerate()
        {
            if i % self.workers.max(1) == mine && (*op as usize) < self.plan.ops.len() {
                let _ = evaluate(self.board, runner, self.plan, *op);
            }
        }
    }
}

/// Has the runners evaluate one level after the other, each in a thread of its own.
fn evaluate_levels<R: Threads + Sync>(rt: &R, board: &Board, plan: &Plan, runners: &mut [Runner])
    requires plan { plan.now ≡ plan_of board.now }
    requires rest { AreAtRest board.now runners.old }
    ensures rest { AreAtRest board.now runners.new }
{
    let workers = runners.len();
    for level in 0..plan.op_levels.len() {
        let job = Level {
            board,
            plan,
            level,
            workers,
        };
        run_all(rt, runners, usize::MAX, &job);
    }
}

/// The outcome of a batch: how often an operation was evaluated, by the runners' answers and by the root's counts, and
/// each operation's state, attempt and value.
#[derive(Drop)]
struct Ran {
    answered: u64,
    counted: u64,
    words: Vec<(OpState, u8, u64)>,
}

/// The words of all operations.
pub(crate) fn words_of(
    alloc: Global,
    board: &Board,
    root: &mut Hand,
    plan: &Plan,
) -> Result<Vec<(OpState, u8, u64)>, OutOfMemory>
    requires hand { IsHandOf board.now root.old }
    requires plan { plan.now ≡ plan_of board.now }
{
    let mut words = Vec::new(alloc);
    for op in 0..plan.ops.len() as u32 {
        let word = board.peek(root, plan, op);
        words.push((word.state, word.attempt, word.value))?;
    }
    Ok(words)
}

/// Evaluates the operations of a plan by this many workers.
fn evaluate_all<R: Threads + Sync>(
    rt: &R,
    alloc: Global,
    plan: &Plan,
    workers: u32,
) -> Result<Ran, OutOfMemory>
    requires plan { IsPlan plan.now }
    requires some { 1 ≤ workers }
    requires few { workers ≤ most_workers }
{
    let (board, root) = Board::new(alloc, plan, 1, 0)?;
    let mut runners = Runners::new(alloc, &board, root, workers, 0)?;
    evaluate_levels(rt, &board, plan, runners.as_mut_slice());
    let mut answered = 0_u64;
    for runner in runners.as_mut_slice().iter() {
        answered = answered.saturating_add(runner.answers.evaluated);
    }
    let (mut root, _left) = runners.gather(&board);
    let words = words_of(alloc, &board, &mut root, plan)?;
    Ok(Ran {
        answered,
        counted: root.counts().evaluated,
        words,
    })
}

/// Four runners get the same values as one, and each operation is evaluated once, at its first attempt.
#[test]
fn four_runners_come_to_what_one_does(rt: HostRuntime) -> Result<(), Fail> {
    let plan = plan(&rt, rt.alloc())?;
    assert!(rt; plan.events.len() == EVENTS as usize && plan.op_levels.len() > 10);
    let alone = evaluate_all(&rt, rt.alloc(), &plan, 1)?;
    let ops = plan.ops.len() as u64;
    assert_eq!(rt; (alone.answered, alone.counted), (ops, ops));
    let shown = alone.words.iter().all(|(state, attempt, _)| {
        *attempt == 1 && (*state == OpState::Executed || *state == OpState::Failed)
    });
    let failed = alone.words.iter().any(|word| word.0 == OpState::Failed);
    assert!(rt; shown && failed);
    let together = evaluate_all(&rt, rt.alloc(), &plan, 4)?;
    assert_eq!(rt; (together.answered, together.counted), (ops, ops));
    assert!(rt; together.words == alone.words);
    Ok(())
}

/// The tags of sixteen runners.
#[test]
fn sixteen_runners(rt: HostRuntime) -> Result<(), Fail> {
    let plan = plan(&rt, rt.alloc())?;
    let (board, root) = Board::new(rt.alloc(), &plan, 7, 0)?;
    let mut runners = Runners::new(rt.alloc(), &board, root, 16, 0)?;
    let mut tags = Vec::new(rt.alloc());
    for runner in runners.as_mut_slice().iter() {
        tags.push(runner.hand.tag())?;
    }
    let wanted = [1, 2, 3, 4, 5, 6, 7, 8, 9, 10, 11, 12, 13, 14, 15, 16];
    assert_eq!(rt; tags.as_slice(), wanted.as_slice());
    let (root, left) = runners.gather(&board);
    assert_eq!(rt; (root.tag(), left.len()), (1, 16));
    Ok(())
}
