//! An operation that was judged stale is taken back and evaluated again in one call.
ghost use Rattle.std.specs.Prelude.{◌≡◌, ◌<◌, ◌≤◌, None};
ghost use Rattle.morph_base.specs.Plans.{op_count};
ghost use Rattle.op_words.specs.Hands.{plan_of, view_of, IsHandOf, MayBegin};
ghost use Rattle.op_eval.specs.Running.{hand_view};

use crate::four_events::plan;
use crate::settling::settle;
use morph_base::{OpState, OpWord, Plan};
use op_eval::{Runner, Runners, evaluate};
use op_words::{Board, Decided, Hand, Redone, SettleAnswer, Verdict};
use std::test::Fail;

/// Evaluates the first operations of a plan, so many of them.
fn explore(board: &Board, runner: &mut Runner, plan: &Plan, count: u32)
    requires hand { IsHandOf board.now runner.old.hand }
    requires plan { plan.now ≡ plan_of board.now }
    requires free { (hand_view runner.old).claim ≡ None }
    requires count { count ≤ op_count plan.now }
    ensures hand { IsHandOf board.now runner.new.hand }
    ensures free { (hand_view runner.new).claim ≡ None }
{
    for op in 0..count {
        evaluate(board, runner, plan, op);
    }
}

/// The answer if an operation is redone, or `None` if it is not stale.
fn redo(board: &Board, hand: &mut Hand, plan: &Plan, op: u32) -> Option<Redone>
    requires may { MayBegin board.now hand.old plan.now op }
    ensures hand { IsHandOf board.now hand.new }
    ensures free { (view_of hand.new).claim ≡ None }
{
    let (word, verdict) = board.verdict_at(hand, plan, op);
    match verdict {
        Verdict::Stale { j, .. } => Some(board.redo(hand, plan, op, word, j)),
        Verdict::Good(_) | Verdict::Bad | Verdict::Unready { .. } => None,
    }
}

/// The answers if one hand redoes an operation behind the back of another, which had judged it stale too.
fn redo_twice(
    board: &Board,
    one: &mut Hand,
    other: &mut Hand,
    plan: &Plan,
    op: u32,
) -> Option<(Redone, Redone)>
    requires one { MayBegin board.now one.old plan.now op }
    requires other { MayBegin board.now other.old plan.now op }
    ensures one { IsHandOf board.now one.new }
    ensures other { IsHandOf board.now other.new }
    ensures one_free { (view_of one.new).claim ≡ None }
{
    let (word, verdict) = board.verdict_at(other, plan, op);
    let first = redo(board, one, plan, op)?;
    match verdict {
        Verdict::Stale { j, .. } => Some((first, board.redo(other, plan, op, word, j))),
        Verdict::Good(_) | Verdict::Bad | Verdict::Unready { .. } => None,
    }
}

/// The word of an operation that is executed with this value, at this attempt.
fn executed(attempt: u8, value: u64) -> OpWord {
    OpWord {
        value,
        attempt,
        state: OpState::Executed,
        by: 0,
    }
}

/// The second event takes 60 of 100 and fails. The third one has seen the 40 that it would have left, and fails too,
/// until its first operation is redone.
#[test]
fn a_stale_operation_is_redone(rt: HostRuntime) -> Result<(), Fail> {
    let plan = plan(&rt, rt.alloc())?;
    assert!(rt; plan.ops.len() == 14);
    let (board, mut root) = Board::new(rt.alloc(), &plan, 1, 0)?;
    let mut other = board.split(&mut root);
    let mut runners = Runners::new(rt.alloc(), &board, root, 1, 4)?;
    let runner = runners.runner(1);
    explore(&board, runner, &plan, 10);
    assert_eq!(rt; redo(&board, &mut runner.hand, &plan, 2), None);
    let done = |value| Some(SettleAnswer::Done(value));
    let hand = &mut runner.hand;
    assert_eq!(rt;
        settle(&board, hand, &plan, 0),
        (Decided::Committed, done(100))
    );
    assert_eq!(rt;
        settle(&board, hand, &plan, 1),
        (Decided::Committed, done(5))
    );
    assert_eq!(rt; settle(&board, hand, &plan, 4), (Decided::Aborted, done(0)));
    let open = Redone::Open {
        source: 2,
        word: executed(1, 40),
    };
    assert_eq!(rt; redo(&board, hand, &plan, 8), Some(open));
    assert_eq!(rt;
        settle(&board, hand, &plan, 2),
        (Decided::Aborted, done(100))
    );
    let good = executed(2, 40);
    let answers = (Redone::Good(good), Redone::Busy { word: good });
    assert_eq!(rt;
        redo_twice(&board, hand, &mut other, &plan, 6),
        Some(answers)
    );
    let counts = hand.counts();
    assert_eq!(rt;
        (counts.evaluated, counts.spread, counts.rolled),
        (11, 0, 1)
    );
    Ok(())
}
