//! The four events, settled on the board one after another, with nothing evaluated before.
ghost use Rattle.std.specs.Prelude.{◌≡◌, None};
ghost use Rattle.op_words.specs.Hands.{plan_of, IsHandOf};
ghost use Rattle.op_eval.specs.Running.{hand_view};

use crate::four_events::plan;
use abort_lazy::{TxnAnswer, settle_txn};
use morph_base::{List, Plan};
use op_eval::{Answers, Runner};
use op_words::Board;
use std::test::Fail;

/// Tries the rows one after another, and returns the first one whose event is not settled as it says. A row has an
/// event and whether it commits.
fn first_unlike(
    board: &Board,
    runner: &mut Runner,
    plan: &Plan,
    rows: &[(u32, bool)],
) -> Option<usize>
    requires hand { IsHandOf board.now runner.old.hand }
    requires plan { plan.now ≡ plan_of board.now }
    requires free { (hand_view runner.old).claim ≡ None }
{
    for (i, (event, committed)) in rows.iter().enumerate() {
        let answer = TxnAnswer::Settled {
            committed: *committed,
        };
        if *event as usize >= plan.events.len()
            || settle_txn(board, runner, plan, *event) != answer
        {
            return Some(i);
        }
    }
    None
}

/// One hand evaluates each operation once, on settled values, so that nothing is spread or rolled back.
#[test]
fn one_hand_settles_the_events(rt: HostRuntime) -> Result<(), Fail> {
    let plan = plan(&rt, rt.alloc())?;
    let (board, hand) = Board::new(rt.alloc(), &plan, 1, 0)?;
    let mut runner = Runner {
        hand,
        answers: Answers {
            evaluated: 0,
            blocked: 0,
            busy: 0,
            already: 0,
        },
        kept: List::new(rt.alloc()),
    };
    let rows = [(0, true), (1, false), (2, true), (3, true)];
    let unlike = first_unlike(&board, &mut runner, &plan, &rows);
    assert_eq!(rt; unlike, None);
    let counts = runner.hand.counts();
    assert_eq!(rt;
        (counts.evaluated, counts.spread, counts.rolled),
        (14, 0, 0)
    );
    assert_eq!(rt; runner.answers.evaluated, 14);
    Ok(())
}
