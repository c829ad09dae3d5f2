//! The machine of operation words, step by step.
ghost use Rattle.morph_base.specs.Plans.{IsPlan};
ghost use Rattle.interleaving_core.specs.Stored.{IsStateOf};

use crate::four_events::plan;
use interleaving_core::{CoreEvent, CoreState, Step};
use morph_base::{OpState, OpWord, Plan};
use std::test::Fail;

/// A step. The worker is worker 1 if none is named, and the place is place 0.
#[derive(Clone, Copy, Debug)]
enum Act {
    Ready(u32),
    Claim(u32, u8),
    Fetch(u32, u64),
    Finish(u32),
    GiveBack(u32, u8),
    Spread(u32, u32),
    RollBack(u32),
    Decide(u32, bool),
    Settle(u32),
}

fn event(act: Act) -> CoreEvent {
    let (j, by) = (0, 1);
    match act {
        Act::Ready(op) => CoreEvent::Ready { op },
        Act::Claim(op, by) => CoreEvent::Claim { op, by },
        Act::Fetch(op, value) => CoreEvent::Fetch { op, j, by, value },
        Act::Finish(op) => CoreEvent::Finish { op, by },
        Act::GiveBack(op, by) => CoreEvent::GiveBack { op, by },
        Act::Spread(op, sibling) => CoreEvent::Spread { op, sibling },
        Act::RollBack(op) => CoreEvent::RollBack { op, j },
        Act::Decide(event, committed) => CoreEvent::Decide { event, committed },
        Act::Settle(op) => CoreEvent::Settle { op, by },
    }
}

/// A step, whether it is taken, an operation, and its state, attempt and value after the step.
type Row = (Act, bool, u32, OpState, u8, u64);

/// Makes a step, and returns whether it was taken, and the word of an operation after it.
fn step(state: &mut CoreState, plan: &Plan, event: &CoreEvent, op: u32) -> (bool, Option<OpWord>)
    requires plan { IsPlan plan.now }
    requires state { IsStateOf plan.now state.old }
    ensures { IsStateOf plan.now state.new }
{
    let taken = state.step(plan, event) == Step::Taken;
    if op as usize >= plan.ops.len() {
        return (taken, None);
    }
    (taken, Some(state.word(op)))
}

/// Tries the rows one after another, and returns the first one that does not hold.
fn first_unlike(state: &mut CoreState, plan: &Plan, rows: &[Row]) -> Option<usize>
    requires plan { IsPlan plan.now }
    requires state { IsStateOf plan.now state.old }
    ensures { IsStateOf plan.now state.new }
{
    for (i, row) in rows.iter().enumerate() {
        let (act, taken, op, stand, attempt, value) = *row;
        let (was_taken, word) = step(state, plan, &event(act), op);
        let is_so = match word {
            Some(word) => (word.state, word.attempt, word.value) == (stand, attempt, value),
            None => false,
        };
        if was_taken != taken || !is_so {
            return Some(i);
        }
    }
    None
}

/// Account 0 and asset 0 are paid in. The transfer of too many assets fails. The failure is spread to the operation
/// beside it, which is blocked again once its source is settled. What read the failed transfer's account is rolled back
/// for the version after it.
const SEVEN: &[Row] = &[
    (Act::Claim(0, 1), false, 0, OpState::Blocked, 1, 0),
    (Act::Ready(0), true, 0, OpState::Ready, 1, 0),
    (Act::Claim(0, 1), true, 0, OpState::Claimed, 1, 0),
    (Act::Claim(0, 2), false, 0, OpState::Claimed, 1, 0),
    (Act::Finish(0), false, 0, OpState::Claimed, 1, 0),
    (Act::Fetch(0, 7), false, 0, OpState::Claimed, 1, 0),
    (Act::GiveBack(0, 2), false, 0, OpState::Claimed, 1, 0),
    (Act::GiveBack(0, 1), true, 0, OpState::Blocked, 1, 0),
    (Act::Ready(0), true, 0, OpState::Ready, 1, 0),
    (Act::Claim(0, 1), true, 0, OpState::Claimed, 1, 0),
    (Act::Fetch(0, 0), true, 0, OpState::Claimed, 1, 0),
    (Act::Finish(0), true, 0, OpState::Executed, 1, 100),
    (Act::Settle(0), false, 0, OpState::Executed, 1, 100),
    (Act::Ready(1), true, 1, OpState::Ready, 1, 0),
    (Act::Claim(1, 1), true, 1, OpState::Claimed, 1, 0),
    (Act::Fetch(1, 0), true, 1, OpState::Claimed, 1, 0),
    (Act::Finish(1), true, 1, OpState::Executed, 1, 5),
    (Act::Ready(2), true, 2, OpState::Ready, 1, 0),
    (Act::Claim(2, 1), true, 2, OpState::Claimed, 1, 0),
    (Act::Fetch(2, 100), true, 2, OpState::Claimed, 1, 0),
    (Act::Finish(2), true, 2, OpState::Executed, 1, 40),
    (Act::Ready(6), true, 6, OpState::Ready, 1, 0),
    (Act::Claim(6, 1), true, 6, OpState::Claimed, 1, 0),
    (Act::Fetch(6, 40), true, 6, OpState::Claimed, 1, 0),
    (Act::Finish(6), true, 6, OpState::Failed, 1, 40),
    (Act::Spread(2, 3), false, 2, OpState::Executed, 1, 40),
    (Act::RollBack(6), false, 6, OpState::Failed, 1, 40),
    (Act::Ready(3), true, 3, OpState::Ready, 1, 0),
    (Act::Claim(3, 1), true, 3, OpState::Claimed, 1, 0),
    (Act::Fetch(3, 5), true, 3, OpState::Claimed, 1, 0),
    (Act::Finish(3), true, 3, OpState::Failed, 1, 5),
    (Act::Spread(2, 3), true, 2, OpState::Spread, 2, 100),
    (Act::RollBack(6), true, 6, OpState::Blocked, 2, 0),
    (Act::RollBack(2), false, 2, OpState::Spread, 2, 100),
    (Act::Decide(0, true), true, 0, OpState::Executed, 1, 100),
    (Act::Settle(0), true, 0, OpState::Settled, 1, 100),
    (Act::Settle(0), false, 0, OpState::Settled, 1, 100),
    (Act::RollBack(2), true, 2, OpState::Blocked, 3, 0),
];

#[test]
fn seven_attempts_more(rt: HostRuntime) -> Result<(), Fail> {
    let plan = plan(&rt, rt.alloc())?;
    let mut state = CoreState::new(rt.alloc(), &plan, 7)?;
    assert_eq!(rt; first_unlike(&mut state, &plan, SEVEN), None);
    Ok(())
}

/// The first transfer is aborted, and settled with what its account had before. What read the value that it had left is
/// rolled back, and reads the settled one at its last attempt.
const ONE: &[Row] = &[
    (Act::Ready(0), true, 0, OpState::Ready, 1, 0),
    (Act::Claim(0, 1), true, 0, OpState::Claimed, 1, 0),
    (Act::Fetch(0, 0), true, 0, OpState::Claimed, 1, 0),
    (Act::Finish(0), true, 0, OpState::Executed, 1, 100),
    (Act::Ready(1), true, 1, OpState::Ready, 1, 0),
    (Act::Claim(1, 1), true, 1, OpState::Claimed, 1, 0),
    (Act::Fetch(1, 0), true, 1, OpState::Claimed, 1, 0),
    (Act::Finish(1), true, 1, OpState::Executed, 1, 5),
    (Act::Ready(2), true, 2, OpState::Ready, 1, 0),
    (Act::Claim(2, 1), true, 2, OpState::Claimed, 1, 0),
    (Act::Fetch(2, 100), true, 2, OpState::Claimed, 1, 0),
    (Act::Finish(2), true, 2, OpState::Executed, 1, 40),
    (Act::Ready(6), true, 6, OpState::Ready, 1, 0),
    (Act::Claim(6, 1), true, 6, OpState::Claimed, 1, 0),
    (Act::Fetch(6, 40), true, 6, OpState::Claimed, 1, 0),
    (Act::Finish(6), true, 6, OpState::Failed, 1, 40),
    (Act::Decide(1, false), false, 2, OpState::Executed, 1, 40),
    (Act::Decide(0, false), false, 0, OpState::Executed, 1, 100),
    (Act::Decide(0, true), true, 0, OpState::Executed, 1, 100),
    (Act::Decide(0, false), false, 0, OpState::Executed, 1, 100),
    (Act::Settle(0), true, 0, OpState::Settled, 1, 100),
    (Act::Settle(1), true, 1, OpState::Settled, 1, 5),
    (Act::Decide(1, true), false, 2, OpState::Executed, 1, 40),
    (Act::Decide(1, false), true, 2, OpState::Executed, 1, 40),
    (Act::RollBack(6), false, 6, OpState::Failed, 1, 40),
    (Act::Settle(2), true, 2, OpState::SettledAborted, 1, 100),
    (Act::RollBack(6), true, 6, OpState::Blocked, 2, 0),
    (Act::Ready(6), true, 6, OpState::Ready, 2, 0),
    (Act::Claim(6, 1), true, 6, OpState::Claimed, 2, 0),
    (Act::Fetch(6, 40), false, 6, OpState::Claimed, 2, 0),
    (Act::Fetch(6, 100), true, 6, OpState::Claimed, 2, 0),
    (Act::Finish(6), true, 6, OpState::Executed, 2, 40),
    (Act::RollBack(6), false, 6, OpState::Executed, 2, 40),
    (Act::Settle(3), true, 3, OpState::SettledAborted, 1, 5),
];

#[test]
fn one_attempt_more(rt: HostRuntime) -> Result<(), Fail> {
    let plan = plan(&rt, rt.alloc())?;
    let mut state = CoreState::new(rt.alloc(), &plan, 1)?;
    assert_eq!(rt; first_unlike(&mut state, &plan, ONE), None);
    let got = (
        state_decision(&state, &plan, 0),
        state_decision(&state, &plan, 1),
        state_decision(&state, &plan, 2),
    );
    assert_eq!(rt; got, (Some(true), Some(false), None));
    Ok(())
}

/// The decision on an event, if there is one.
fn state_decision(state: &CoreState, plan: &Plan, event: u32) -> Option<bool>
    requires { IsStateOf plan.now state.now }
{
    if event as usize >= plan.events.len() {
        return None;
    }
    state.decision(event)
}
