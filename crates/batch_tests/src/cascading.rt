//! A cascade on the four events, after a failure.
ghost use Rattle.std.specs.Prelude.{◌≡◌, None};
ghost use Rattle.morph_base.specs.Graphs.{IsValidPlan};
ghost use Rattle.morph_base.specs.Readers.{dependents_of};
ghost use Rattle.op_words.specs.Hands.{plan_of, view_of, IsHandOf};

use crate::board::{evaluate, fails};
use crate::four_events::plan;
use abort_eager::{Cascade, Touch, Touched};
use morph_base::{OpState, OpWord, Plan, Rows};
use op_words::{Board, Hand};
use precedence_graph::dependents;
use std::test::Fail;

/// What becomes of the first three targets after operation 3 failed. It is `None` if operation 3 did not fail.
fn first_three(
    board: &Board,
    hand: &mut Hand,
    plan: &Plan,
    readers: &Rows,
) -> Option<[Option<Touched>; 3]>
    requires hand { IsHandOf board.now hand.old }
    requires plan { plan.now ≡ plan_of board.now }
    requires valid { IsValidPlan plan.now }
    requires readers { readers.now ≡ dependents_of plan.now }
    requires free { (view_of hand.old).claim ≡ None }
{
    if plan.ops.len() != 14 {
        return None;
    }
    evaluate(board, hand, plan, 0);
    evaluate(board, hand, plan, 1);
    evaluate(board, hand, plan, 2);
    if !fails(board, hand, plan, 3) {
        return None;
    }
    let mut cascade = Cascade::start(plan, 3, true);
    let first = cascade.next(board, hand, plan, readers);
    let second = cascade.next(board, hand, plan, readers);
    let third = cascade.next(board, hand, plan, readers);
    Some([first, second, third])
}

/// The failure takes back the value of the event's other withdrawal. The event's deposits have not begun.
#[test]
fn a_failure_goes_through_its_event(rt: HostRuntime) -> Result<(), Fail> {
    let plan = plan(&rt, rt.alloc())?;
    let (board, mut root) = Board::new(rt.alloc(), &plan, 7, 0)?;
    let blocked = OpWord {
        value: 0,
        attempt: 1,
        state: OpState::Blocked,
        by: 0,
    };
    let stopped = |op| {
        Some(Touched {
            op,
            touch: Touch::Not {
                at: op,
                word: blocked,
            },
        })
    };
    let spread = Some(Touched {
        op: 2,
        touch: Touch::Spread,
    });
    let readers = dependents(rt.alloc(), &plan)?;
    let touched = first_three(&board, &mut root, &plan, &readers);
    assert_eq!(rt; touched, Some([spread, stopped(4), stopped(5)]));
    Ok(())
}
