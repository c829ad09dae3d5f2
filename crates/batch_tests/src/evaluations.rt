//! The four events' first operations, evaluated by one runner.
ghost use Rattle.std.specs.Prelude.{◌≡◌, ◌<◌, None};
ghost use Rattle.op_words.specs.Hands.{MayBegin};
ghost use Rattle.op_words.specs.Hands.{plan_of, view_of, IsHandOf};
ghost use Rattle.op_eval.specs.Running.{hand_view};

use crate::four_events::{plan, plan_at};
use morph_base::{List, OpState, OpWord, Plan};
use op_eval::{Answers, Evaluation, Runner, Runners, evaluate};
use op_words::{Board, Claimed, Hand, Outcome};
use std::test::Fail;

fn word(state: OpState, value: u64) -> OpWord {
    OpWord {
        value,
        attempt: 1,
        state,
        by: 0,
    }
}

/// An evaluation at the first attempt.
fn first(outcome: Outcome) -> Evaluation {
    Evaluation::Evaluated {
        attempt: 1,
        outcome,
    }
}

/// Tries the rows one after another, and returns the first one whose answer is not the one that comes. A row has an
/// operation and its answer.
fn first_unlike(
    board: &Board,
    runner: &mut Runner,
    plan: &Plan,
    rows: &[(u32, Evaluation)],
) -> Option<usize>
    requires hand { IsHandOf board.now runner.old.hand }
    requires plan { plan.now ≡ plan_of board.now }
    requires free { (hand_view runner.old).claim ≡ None }
    ensures hand { IsHandOf board.now runner.new.hand }
    ensures free { (hand_view runner.new).claim ≡ None }
{
    for (i, (op, answer)) in rows.iter().enumerate() {
        if *op as usize >= plan.ops.len() || evaluate(board, runner, plan, *op) != *answer {
            return Some(i);
        }
    }
    None
}

/// A withdrawal waits for the deposit before it. The first transfer withdraws 60 of 100 from the account, and 6 of 5
/// assets, which fails.
#[test]
fn one_runner_evaluates(rt: HostRuntime) -> Result<(), Fail> {
    let plan = plan(&rt, rt.alloc())?;
    let (board, root) = Board::new(rt.alloc(), &plan, 1, 0)?;
    let mut runners = Runners::new(rt.alloc(), &board, root, 1, 4)?;
    let blocked = Evaluation::Blocked {
        source: 0,
        word: word(OpState::Blocked, 0),
    };
    let again = Evaluation::Already {
        word: word(OpState::Executed, 100),
    };
    let rows = [
        (2, blocked),
        (0, first(Outcome::Executed(100))),
        (0, again),
        (1, first(Outcome::Executed(5))),
        (2, first(Outcome::Executed(40))),
        (3, first(Outcome::Failed)),
    ];
    assert!(rt; plan.ops.len() == 14);
    let runner = runners.runner(1);
    let unlike = first_unlike(&board, runner, &plan, &rows);
    assert_eq!(rt; unlike, None);
    let failed = board.peek(&mut runner.hand, &plan, 3);
    assert_eq!(rt; failed, word(OpState::Failed, 5));
    assert_eq!(rt; runner.hand.counts().evaluated, 4);
    Ok(())
}

/// The runner's answer when it tries to evaluate an operation that another hand has made ready and holds. There is none
/// if the other hand cannot hold the operation.
fn answered(
    board: &Board,
    holder: &mut Hand,
    runner: &mut Runner,
    plan: &Plan,
    op: u32,
) -> Option<Evaluation>
    requires holder { IsHandOf board.now holder.old }
    requires may { MayBegin board.now runner.old.hand plan.now op }
    requires holder_free { (view_of holder.old).claim ≡ None }
    ensures holder { IsHandOf board.now holder.new }
    ensures hand { IsHandOf board.now runner.new.hand }
    ensures free { (hand_view runner.new).claim ≡ None }
{
    let _ = board.ready(holder, plan, op);
    match board.claim(holder, plan, op) {
        Claimed::Not { .. } => None,
        Claimed::Held { .. } => {
            let answer = evaluate(board, runner, plan, op);
            board.give_back(holder, plan, op);
            Some(answer)
        }
    }
}

/// A runner finds the operation busy while the root holds it, and evaluates it once it was given back.
#[test]
fn a_runner_is_busy(rt: HostRuntime) -> Result<(), Fail> {
    let plan = plan_at(&rt, rt.alloc(), &[1])?;
    assert!(rt; plan.ops.len() == 2);
    let (board, mut root) = Board::new(rt.alloc(), &plan, 1, 0)?;
    let mut runner = Runner {
        hand: board.split(&mut root),
        answers: Answers {
            evaluated: 0,
            blocked: 0,
            busy: 0,
            already: 0,
        },
        kept: List::new(rt.alloc()),
    };
    let claimed = OpWord {
        by: 1,
        ..word(OpState::Claimed, 0)
    };
    let busy = answered(&board, &mut root, &mut runner, &plan, 0);
    assert_eq!(rt; busy, Some(Evaluation::Busy { word: claimed }));
    let then = evaluate(&board, &mut runner, &plan, 0);
    assert_eq!(rt; then, first(Outcome::Executed(100)));
    assert_eq!(rt; (runner.answers.busy, runner.answers.evaluated), (1, 1));
    Ok(())
}
