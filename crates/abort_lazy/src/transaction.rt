//! Settles transactions on the shared board, one at a time, by any runner.
ghost use Rattle.std.specs.Prelude.{◌≡◌, ◌+◌, ◌<◌};
ghost use Rattle.morph_base.specs.Plans.{IsPlan, event_at, event_count};
ghost use Rattle.op_words.specs.Hands.{IsHandOf};
ghost use Rattle.op_eval.specs.Running.{hand_view};
ghost use Rattle.abort_lazy.specs.Transactions.{MaySettleEvent, StopsAt, TxnDoes, IsAnswered};

use morph_base::{OpState, OpWord, Plan};
use op_eval::Runner;
use op_words::Board;

mod decide;
mod prepare;
mod settle;
mod standing;

use decide::decide;
use prepare::prepare_all;
use settle::settle_rest;
pub(crate) use standing::Grounds;

/// The outcome when a runner tries to settle a transaction.
#[derive(Clone, Copy, Debug, PartialEq, Eq)]
pub enum TxnAnswer {
    /// The hand saw each of its operations settled, some of them perhaps by other hands. `committed` says whether the
    /// event is committed.
    Settled { committed: bool },
    /// A source of one of its operations was not settled, as its word was loaded in the call; or another hand changed
    /// one of its operations, or a source of one, during the call. The word is the last one that was loaded there.
    NotYet { at: u32, word: OpWord },
    /// Another hand holds this operation of the event, as the word that was loaded last shows.
    Busy { at: u32, word: OpWord },
}

/// Settles a transaction: makes each of its operations ready for the decision, then decides the event, then settles
/// each operation. If all of them were judged, the event is decided by that, with one exchange; and if all were good,
/// each is settled from the word at which it was judged, with one exchange. Else the call judges them once more.
///
/// To make an operation ready, the call judges it. If a record differs from its settled source, the operation is taken
/// back and evaluated again on settled sources ([`redo`](op_eval::redo)), which is a verdict already. If a failure took
/// its value back, it is rolled back and evaluated again. If it was not evaluated yet, it is evaluated. After these two
/// it is judged. Each operation is mended at most once: what stands in the way then is another hand's change.
///
/// The answer is [`TxnAnswer::Settled`] exactly if at the return the hand has seen each operation settled. The other
/// answers name what stands in the way, and the call may be made again. If a root is the only hand ever made and has
/// seen all sources settled, the answer is `Settled`. The runner holds nothing before and after. Its `answers` count
/// what `evaluate` and `redo` answered on the way. The call takes no memory and waits for nobody.
pub fn settle_txn(board: &Board, runner: &mut Runner, plan: &Plan, event: u32) -> TxnAnswer
    requires may { MaySettleEvent board.now runner.old.hand plan.now event }
    ensures hand { IsHandOf board.now runner.new.hand }
    ensures answer { TxnDoes plan.now event (hand_view runner.old) (hand_view runner.new) result }
    ensures answered { IsAnswered (event_at plan.now event).count runner.old runner.new }
{
    let mut grounds = Grounds::new();
    settle_with(board, runner, plan, event, &mut grounds)
}

/// Settles a transaction as [`settle_txn`] does, with grounds that the caller lends. What they say before does not
/// matter.
pub(crate) fn settle_with(
    board: &Board,
    runner: &mut Runner,
    plan: &Plan,
    event: u32,
    grounds: &mut Grounds,
) -> TxnAnswer
    requires may { MaySettleEvent board.now runner.old.hand plan.now event }
    ensures hand { IsHandOf board.now runner.new.hand }
    ensures answer { TxnDoes plan.now event (hand_view runner.old) (hand_view runner.new) result }
    ensures answered { IsAnswered (event_at plan.now event).count runner.old runner.new }
{
    grounds.begin();
    if let Some(answer) = prepare_all(board, runner, plan, event, grounds) {
        return answer;
    }
    match decide(board, &mut runner.hand, plan, event, grounds) {
        Err(answer) => answer,
        Ok(committed) => match settle_rest(board, &mut runner.hand, plan, event, grounds) {
            Some(answer) => answer,
            // With `return` the answer goes to the caller without a copy on the way.
            None => return TxnAnswer::Settled { committed },
        },
    }
}

/// The answer if an operation of the event was found with this word. There is none if it is settled.
fn stop(op: u32, word: OpWord) -> Option<TxnAnswer>
    ensures { StopsAt op word result }
{
    match word.state {
        OpState::Settled | OpState::SettledAborted => None,
        OpState::Claimed => Some(TxnAnswer::Busy { at: op, word }),
        OpState::Blocked | OpState::Ready | OpState::Executed | OpState::Failed | OpState::Spread =>
            { Some(TxnAnswer::NotYet { at: op, word }) }
    }
}

/// The first operation of an event.
pub(crate) fn first_of(plan: &Plan, event: u32) -> u32
    requires in_range { event < event_count plan.now }
    ensures { result ≡ (event_at plan.now event).first }
{
    plan.events.get(event as usize).first
}

/// The end of an event's operations: one more than the number of its last one.
pub(crate) fn end_of(plan: &Plan, event: u32) -> u32
    requires valid { IsPlan plan.now }
    requires in_range { event < event_count plan.now }
    ensures { result ≡ (event_at plan.now event).first + (event_at plan.now event).count }
{
    let count = plan.events.get(event as usize).count;
    first_of(plan, event) + count
}
