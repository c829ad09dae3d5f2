//! A hand decides on an event and settles its operations.
ghost use Rattle.std.specs.Prelude.{◌≡◌, ◌<◌, None};
ghost use Rattle.op_words.specs.Hands.{MayBegin};
ghost use Rattle.op_words.specs.Hands.{view_of, IsHandOf};

use crate::board::evaluate;
use crate::four_events::plan_at;
use morph_base::{OpState, OpWord, Plan};
use op_words::{Board, Counts, Decided, Hand, SettleAnswer, Verdict};
use std::test::Fail;

/// What the hand decides on the event of an operation, and how it then settles the operation. The second is `None` if
/// nothing is decided.
pub(crate) fn settle(
    board: &Board,
    hand: &mut Hand,
    plan: &Plan,
    op: u32,
) -> (Decided, Option<SettleAnswer>)
    requires may { MayBegin board.now hand.old plan.now op }
    ensures hand { IsHandOf board.now hand.new }
    ensures free { (view_of hand.new).claim ≡ None }
    ensures tag { (view_of hand.new).tag ≡ (view_of hand.old).tag }
    ensures made { (view_of hand.new).made ≡ (view_of hand.old).made }
{
    let event = plan.ops.event(op as usize);
    let decided = board.decide(hand, plan, event);
    let answer = match decided {
        Decided::Committed => Some(board.settle(hand, plan, op)),
        Decided::Aborted => Some(board.settle(hand, plan, op)),
        Decided::NotYet { .. } => None,
    };
    (decided, answer)
}

/// Both operations of a deposit are evaluated and settled once each. What is settled stays.
#[test]
fn a_deposit_is_settled(rt: HostRuntime) -> Result<(), Fail> {
    let plan = plan_at(&rt, rt.alloc(), &[1])?;
    assert!(rt; plan.ops.len() == 2 && plan.events.len() == 1);
    let (board, mut root) = Board::new(rt.alloc(), &plan, 1, 0)?;
    let blocked = OpWord {
        value: 0,
        attempt: 1,
        state: OpState::Blocked,
        by: 0,
    };
    assert_eq!(rt;
        settle(&board, &mut root, &plan, 1).0,
        Decided::NotYet {
            op: 0,
            word: blocked
        }
    );
    evaluate(&board, &mut root, &plan, 0);
    evaluate(&board, &mut root, &plan, 1);
    assert_eq!(rt; board.verdict(&mut root, &plan, 0), Verdict::Good(100));
    let done = |value| (Decided::Committed, Some(SettleAnswer::Done(value)));
    assert_eq!(rt; settle(&board, &mut root, &plan, 0), done(100));
    assert_eq!(rt; settle(&board, &mut root, &plan, 1), done(5));
    let word = OpWord {
        value: 100,
        attempt: 1,
        state: OpState::Settled,
        by: 1,
    };
    assert_eq!(rt; word.pack(), 6_210_041_673_678_948);
    let not = SettleAnswer::Not { at: 0, word };
    assert_eq!(rt;
        settle(&board, &mut root, &plan, 0),
        (Decided::Committed, Some(not))
    );
    let closed = board.close(&plan, root);
    let counts = Counts {
        evaluated: 2,
        spread: 0,
        rolled: 0,
    };
    assert_eq!(rt;
        (closed.word(0), closed.decision(0), closed.counts()),
        (word, Some(true), counts)
    );
    Ok(())
}
