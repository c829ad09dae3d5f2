//! A hand's way through an operation, alone and beside another hand.
ghost use Rattle.std.specs.Prelude.{◌≡◌, ◌≢◌, ◌<◌, true, Some, None};
ghost use Rattle.morph_base.specs.Plans.{op_count};
ghost use Rattle.op_words.specs.Hands.{MayBegin};
ghost use Rattle.op_words.specs.Hands.{plan_of, view_of, IsHandOf};
ghost use Rattle.op_words.specs.Views.{HasShownFailure};
ghost use Rattle.op_words.specs.declared.answers.Outcome.TheVariants.{Failed as HasFailed};

use crate::four_events::{plan, plan_at};
use morph_base::{OpState, OpWord, Plan};
use op_words::{
    Board, Claimed, Counts, Fetched, Hand, Outcome, Readied, Rolled, Spreaded, places_of,
};
use std::test::Fail;

/// What the calls of one way through an operation returned, up to the call that ended it.
#[derive(Clone, Copy, Debug, PartialEq, Eq)]
pub(crate) struct Way {
    readied: Readied,
    claimed: Option<Claimed>,
    fetched: Option<Fetched>,
    outcome: Option<Outcome>,
}

/// Makes an operation ready that reads one place, claims it, fetches the place and finishes it.
pub(crate) fn evaluate(board: &Board, hand: &mut Hand, plan: &Plan, op: u32) -> Way
    requires may { MayBegin board.now hand.old plan.now op }
    ensures hand { IsHandOf board.now hand.new }
    ensures free { (view_of hand.new).claim ≡ None }
    ensures tag { (view_of hand.new).tag ≡ (view_of hand.old).tag }
    ensures made { (view_of hand.new).made ≡ (view_of hand.old).made }
    ensures shown { result.outcome ≡ Some HasFailed → HasShownFailure (view_of hand.new) op }
{
    let readied = board.ready(hand, plan, op);
    let mut way = Way {
        readied,
        claimed: None,
        fetched: None,
        outcome: None,
    };
    if places_of(plan, op) != 1 {
        return way;
    }
    let claimed = board.claim(hand, plan, op);
    way.claimed = Some(claimed);
    if let Claimed::Not { .. } = claimed {
        return way;
    }
    let fetched = board.fetch(hand, plan, op, 0);
    way.fetched = Some(fetched);
    match fetched {
        Fetched::Value(_) => way.outcome = Some(board.finish(hand, plan, op)),
        Fetched::Unready { .. } => board.give_back(hand, plan, op),
    }
    way
}

/// The word of an operation that is blocked at attempt 1.
const BLOCKED: u64 = 0x0000_1000_0000_0000;

fn word(state: OpState, value: u64, by: u8) -> OpWord {
    OpWord {
        value,
        attempt: 1,
        state,
        by,
    }
}

/// A way to its end, with the value that was read.
fn whole(read: u64, outcome: Outcome) -> Way {
    Way {
        readied: Readied::Made,
        claimed: Some(Claimed::Held { attempt: 1 }),
        fetched: Some(Fetched::Value(read)),
        outcome: Some(outcome),
    }
}

/// Whether the hand's ways are as the rows say, one after another. A row has an operation, its way, and its packed word
/// afterwards.
fn held(board: &Board, hand: &mut Hand, plan: &Plan, rows: &[(u32, Way, u64)]) -> bool
    requires hand { IsHandOf board.now hand.old }
    requires plan { plan.now ≡ plan_of board.now }
    requires free { (view_of hand.old).claim ≡ None }
    ensures hand { IsHandOf board.now hand.new }
    ensures free { (view_of hand.new).claim ≡ None }
{
    for (op, way, packed) in rows {
        if *op as usize >= plan.ops.len() {
            return false;
        }
        let went = evaluate(board, hand, plan, *op);
        let after = board.peek(hand, plan, *op).pack();
        if went != *way || after != *packed {
            return false;
        }
    }
    true
}

/// The rows have the operations of the first two events that read one place: what is read, the outcome, and the packed
/// word.
#[test]
fn one_hand_evaluates(rt: HostRuntime) -> Result<(), Fail> {
    let plan = plan(&rt, rt.alloc())?;
    assert!(rt; plan.ops.len() == 14);
    let (board, mut root) = Board::new(rt.alloc(), &plan, 1, 4)?;
    assert_eq!(rt; (root.tag(), root.held()), (1, None));
    assert_eq!(rt; board.peek(&mut root, &plan, 0).pack(), BLOCKED);
    let blocked = word(OpState::Blocked, 0, 0);
    let not = Readied::Not {
        at: 0,
        word: blocked,
    };
    assert_eq!(rt; board.ready(&mut root, &plan, 2), not);
    let rows = [
        (0, whole(0, Outcome::Executed(100)), 0x0003_1000_0000_0064),
        (1, whole(0, Outcome::Executed(5)), 0x0003_1000_0000_0005),
        (2, whole(100, Outcome::Executed(40)), 0x0003_1000_0000_0028),
        (3, whole(5, Outcome::Failed), 0x0004_1000_0000_0005),
    ];
    assert!(rt; held(&board, &mut root, &plan, &rows));
    let counts = Counts {
        evaluated: 4,
        spread: 0,
        rolled: 0,
    };
    assert_eq!(rt; root.counts(), counts);
    Ok(())
}

/// Evaluates an operation that reads one place, and returns whether it failed.
pub(crate) fn fails(board: &Board, hand: &mut Hand, plan: &Plan, op: u32) -> bool
    requires may { MayBegin board.now hand.old plan.now op }
    ensures hand { IsHandOf board.now hand.new }
    ensures free { (view_of hand.new).claim ≡ None }
    ensures shown { result ≡ true → HasShownFailure (view_of hand.new) op }
{
    match evaluate(board, hand, plan, op).outcome {
        Some(Outcome::Failed) => true,
        _ => false,
    }
}

/// Evaluates an operation that reads one place, and spreads its failure to another one of its event, twice. Returns
/// `None` if the operation did not fail.
fn spread_twice(
    board: &Board,
    hand: &mut Hand,
    plan: &Plan,
    op: u32,
    sibling: u32,
) -> Option<(Spreaded, Spreaded)>
    requires may { MayBegin board.now hand.old plan.now op }
    requires sibling { sibling < op_count plan.now }
    requires another { sibling ≢ op }
    ensures hand { IsHandOf board.now hand.new }
    ensures free { (view_of hand.new).claim ≡ None }
{
    if plan.ops.event(sibling as usize) != plan.ops.event(op as usize) {
        return None;
    }
    if !fails(board, hand, plan, sibling) {
        return None;
    }
    let first = board.spread(hand, plan, op, sibling);
    let again = board.spread(hand, plan, op, sibling);
    Some((first, again))
}

/// Operation 3 fails, and its failure is spread to operation 2, which operation 6 has read.
fn withdraw(board: &Board, hand: &mut Hand, plan: &Plan) -> Option<(Spreaded, Spreaded)>
    requires hand { IsHandOf board.now hand.old }
    requires plan { plan.now ≡ plan_of board.now }
    requires free { (view_of hand.old).claim ≡ None }
    ensures hand { IsHandOf board.now hand.new }
    ensures free { (view_of hand.new).claim ≡ None }
{
    if plan.ops.len() != 14 {
        return None;
    }
    evaluate(board, hand, plan, 0);
    evaluate(board, hand, plan, 1);
    evaluate(board, hand, plan, 2);
    evaluate(board, hand, plan, 6);
    spread_twice(board, hand, plan, 2, 3)
}

/// The results of rolling back operations 6, 3 and 2 after that.
fn roll_back(board: &Board, hand: &mut Hand, plan: &Plan) -> Option<(Rolled, Rolled, Rolled)>
    requires hand { IsHandOf board.now hand.old }
    requires plan { plan.now ≡ plan_of board.now }
    requires free { (view_of hand.old).claim ≡ None }
    ensures hand { IsHandOf board.now hand.new }
{
    if plan.ops.len() != 14 {
        return None;
    }
    let stale = board.roll_back(hand, plan, 6, 0);
    let fresh = board.roll_back(hand, plan, 3, 0);
    let open = board.roll_back(hand, plan, 2, 0);
    Some((stale, fresh, open))
}

/// A failure is spread once. Then what has read the old value is stale, what failed is fresh, and what was spread is
/// evaluated again only on settled sources.
#[test]
fn a_failure_is_spread(rt: HostRuntime) -> Result<(), Fail> {
    let plan = plan(&rt, rt.alloc())?;
    let (board, mut root) = Board::new(rt.alloc(), &plan, 7, 0)?;
    let spread = OpWord {
        value: 100,
        attempt: 2,
        state: OpState::Spread,
        by: 0,
    };
    assert_eq!(rt; spread.pack(), 1_442_559_255_642_212);
    let twice = (Spreaded::Done, Spreaded::Not { word: spread });
    assert_eq!(rt; withdraw(&board, &mut root, &plan), Some(twice));
    let open = Rolled::Not {
        at: 0,
        word: word(OpState::Executed, 100, 0),
    };
    let rolled = (Rolled::Done, Rolled::Fresh { value: 5 }, open);
    assert_eq!(rt; roll_back(&board, &mut root, &plan), Some(rolled));
    let counts = root.counts();
    assert_eq!(rt; (counts.evaluated, counts.spread, counts.rolled), (5, 1, 1));
    Ok(())
}

/// At cap 1 nothing is spread.
#[test]
fn nothing_is_spread_at_the_cap(rt: HostRuntime) -> Result<(), Fail> {
    let plan = plan(&rt, rt.alloc())?;
    let (board, mut root) = Board::new(rt.alloc(), &plan, 1, 0)?;
    let not = Spreaded::Not {
        word: word(OpState::Executed, 40, 0),
    };
    assert_eq!(rt; withdraw(&board, &mut root, &plan), Some((not, not)));
    Ok(())
}

/// Claims an operation, and gives it back at once.
fn touch(board: &Board, hand: &mut Hand, plan: &Plan, op: u32) -> Claimed
    requires may { MayBegin board.now hand.old plan.now op }
    ensures hand { IsHandOf board.now hand.new }
    ensures free { (view_of hand.new).claim ≡ None }
{
    let claimed = board.claim(hand, plan, op);
    match claimed {
        Claimed::Not { .. } => {}
        Claimed::Held { .. } => board.give_back(hand, plan, op),
    }
    claimed
}

/// What one hand holds, and what the other finds there meanwhile. It is `None` if the one holds nothing.
fn meet(
    board: &Board,
    one: &mut Hand,
    other: &mut Hand,
    plan: &Plan,
    op: u32,
) -> Option<(Option<u32>, Readied, Claimed)>
    requires one { IsHandOf board.now one.old }
    requires other { IsHandOf board.now other.old }
    requires plan { plan.now ≡ plan_of board.now }
    requires in_range { op < op_count plan.now }
    requires one_free { (view_of one.old).claim ≡ None }
    requires other_free { (view_of other.old).claim ≡ None }
    ensures one { IsHandOf board.now one.new }
    ensures other { IsHandOf board.now other.new }
    ensures tag { (view_of one.new).tag ≡ (view_of one.old).tag }
    ensures one_free { (view_of one.new).claim ≡ None }
    ensures other_free { (view_of other.new).claim ≡ None }
{
    match board.claim(one, plan, op) {
        Claimed::Not { .. } => None,
        Claimed::Held { .. } => {
            let held = one.held();
            let readied = board.ready(other, plan, op);
            let claimed = touch(board, other, plan, op);
            board.give_back(one, plan, op);
            Some((held, readied, claimed))
        }
    }
}

/// Two hands on the one deposit: what one holds, the other finds claimed. After it was given back, the other evaluates
/// it.
#[test]
fn two_hands_meet(rt: HostRuntime) -> Result<(), Fail> {
    let plan = plan_at(&rt, rt.alloc(), &[1])?;
    assert!(rt; plan.ops.len() == 2);
    let (board, mut root) = Board::new(rt.alloc(), &plan, 1, 0)?;
    let mut other = board.split(&mut root);
    assert_eq!(rt; (root.tag(), other.tag()), (1, 2));
    assert_eq!(rt; board.ready(&mut root, &plan, 0), Readied::Made);
    let claimed = word(OpState::Claimed, 0, 1);
    let met = (
        Some(0),
        Readied::Not {
            at: 0,
            word: claimed,
        },
        Claimed::Not { word: claimed },
    );
    assert_eq!(rt; meet(&board, &mut root, &mut other, &plan, 0), Some(met));
    assert_eq!(rt; (root.held(), other.held()), (None, None));
    assert_eq!(rt; board.peek(&mut other, &plan, 0).pack(), BLOCKED);
    let way = evaluate(&board, &mut other, &plan, 0);
    assert_eq!(rt; way, whole(0, Outcome::Executed(100)));
    assert_eq!(rt; (root.counts().evaluated, other.counts().evaluated), (0, 1));
    board.join(&mut root, other);
    assert_eq!(rt; root.counts().evaluated, 1);
    Ok(())
}

/// A counter gives each of its numbers once. The level word has the lowest level that was put there.
#[test]
fn counters_and_the_level_word(rt: HostRuntime) -> Result<(), Fail> {
    let plan = plan_at(&rt, rt.alloc(), &[1])?;
    let (mut board, mut root) = Board::new(rt.alloc(), &plan, 1, 2)?;
    let taken = (
        board.take(&mut root, 1),
        board.take(&mut root, 1),
        board.take(&mut root, 0),
    );
    assert_eq!(rt; taken, (0, 1, 0));
    let first = board.level(&mut root);
    board.lower(&mut root, 3);
    board.lower(&mut root, 5);
    let lowered = board.level(&mut root);
    board.reset_level(&mut root);
    assert_eq!(rt;
        (first, lowered, board.level(&mut root)),
        (u32::MAX, 3, u32::MAX)
    );
    Ok(())
}

/// The end of a board on which nothing was evaluated.
#[test]
fn a_board_ends(rt: HostRuntime) -> Result<(), Fail> {
    let plan = plan_at(&rt, rt.alloc(), &[1])?;
    assert!(rt; plan.ops.len() == 2 && plan.events.len() == 1);
    let (board, root) = Board::new(rt.alloc(), &plan, 1, 0)?;
    let closed = board.close(&plan, root);
    assert_eq!(rt; closed.word(1).pack(), BLOCKED);
    assert_eq!(rt; (closed.decision(0), closed.counts().evaluated), (None, 0));
    Ok(())
}

/// Compiles only if threads may share the one and take over the other.
fn crosses<S: Sync, T: Send>(_shared: &S, _taken: &T) {}

#[test]
fn hands_cross_threads(rt: HostRuntime) -> Result<(), Fail> {
    let plan = plan_at(&rt, rt.alloc(), &[1])?;
    let (board, root) = Board::new(rt.alloc(), &plan, 7, 1)?;
    crosses(&board, &root);
    assert_eq!(rt; root.held(), None);
    Ok(())
}
