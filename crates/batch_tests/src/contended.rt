//! A transaction while another hand holds one of its operations.
ghost use Rattle.std.specs.Prelude.{◌≡◌, ◌<◌, None};
ghost use Rattle.morph_base.specs.Plans.{op_count, event_count};
ghost use Rattle.op_words.specs.Hands.{plan_of, view_of, IsHandOf};
ghost use Rattle.op_eval.specs.Running.{hand_view};

use crate::four_events::plan_at;
use abort_lazy::{TxnAnswer, settle_txn};
use morph_base::{OpState, OpWord, Plan};
use op_eval::{Runner, Runners};
use op_words::{Board, Claimed, Hand};
use std::test::Fail;

/// The runner's answers when it tries to settle the first event, while another hand holds its first operation and once
/// that was given back. There are none if the operation cannot be held.
fn answers(
    board: &Board,
    holder: &mut Hand,
    runner: &mut Runner,
    plan: &Plan,
) -> Option<[TxnAnswer; 2]>
    requires holder { IsHandOf board.now holder.old }
    requires hand { IsHandOf board.now runner.old.hand }
    requires plan { plan.now ≡ plan_of board.now }
    requires some_ops { 0 < op_count plan.now }
    requires some_events { 0 < event_count plan.now }
    requires holder_free { (view_of holder.old).claim ≡ None }
    requires free { (hand_view runner.old).claim ≡ None }
{
    let _ = board.ready(holder, plan, 0);
    match board.claim(holder, plan, 0) {
        Claimed::Not { .. } => None,
        Claimed::Held { .. } => {
            let held = settle_txn(board, runner, plan, 0);
            board.give_back(holder, plan, 0);
            let free = settle_txn(board, runner, plan, 0);
            Some([held, free])
        }
    }
}

/// The holder is the second hand, split off before the root became a runner's. Its tag is in the word that the runner
/// found.
#[test]
fn a_transaction_waits_for_nobody(rt: HostRuntime) -> Result<(), Fail> {
    let plan = plan_at(&rt, rt.alloc(), &[1])?;
    assert!(rt; plan.ops.len() == 2 && plan.events.len() == 1);
    let (board, mut root) = Board::new(rt.alloc(), &plan, 1, 0)?;
    let mut second = board.split(&mut root);
    let mut runners = Runners::new(rt.alloc(), &board, root, 1, 1)?;
    let busy = TxnAnswer::Busy {
        at: 0,
        word: OpWord {
            value: 0,
            attempt: 1,
            state: OpState::Claimed,
            by: 2,
        },
    };
    let runner = runners.runner(1);
    let got = answers(&board, &mut second, runner, &plan);
    assert_eq!(rt; got, Some([busy, TxnAnswer::Settled { committed: true }]));
    Ok(())
}
