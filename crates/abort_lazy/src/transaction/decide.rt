//! Decides an event once its operations are ready.
ghost use Rattle.std.specs.Prelude.{◌≡◌, ℕ, true};
ghost use Rattle.morph_base.specs.Plans.{InEvent};
ghost use Rattle.op_words.specs.Views.{IsSettledSeen};
ghost use Rattle.op_words.specs.Hands.{view_of, IsHandOf};
ghost use Rattle.abort_lazy.specs.Transactions.{MaySettleEvent};
ghost use Rattle.abort_lazy.specs.Progress.{DecidedDoes, SaysSo};

use super::standing::{Grounds, Say};
use super::{TxnAnswer, first_of, stop};
use morph_base::Plan;
use op_words::{Board, Decided, Hand};

/// Decides an event by its grounds. If one of its operations is settled, the decision is loaded.
pub(super) fn decide(
    board: &Board,
    hand: &mut Hand,
    plan: &Plan,
    event: u32,
    grounds: &Grounds,
) -> Result<bool, TxnAnswer>
    requires may { MaySettleEvent board.now hand.old plan.now event }
    requires grounds { SaysSo plan.now event (view_of hand.old) grounds.now.say }
    ensures hand { IsHandOf board.now hand.new }
    ensures decided { DecidedDoes plan.now event (view_of hand.old) (view_of hand.new) result }
    ensures commits { grounds.now.say ≡ Say.Commit → result ≡ Ok true }
{
    match grounds.say {
        Say::Commit => {
            board.conclude(hand, plan, event, true);
            Ok(true)
        }
        Say::Abort => {
            board.conclude(hand, plan, event, false);
            Ok(false)
        }
        Say::Decided => decide_now(board, hand, plan, event),
    }
}

/// Decides an event whose operations are ready. Another hand may have settled one of them in the meantime. Then there
/// is a decision.
fn decide_now(board: &Board, hand: &mut Hand, plan: &Plan, event: u32) -> Result<bool, TxnAnswer>
    requires may { MaySettleEvent board.now hand.old plan.now event }
    ensures hand { IsHandOf board.now hand.new }
    ensures decided { DecidedDoes plan.now event (view_of hand.old) (view_of hand.new) result }
{
    match board.decide(hand, plan, event) {
        Decided::Committed => Ok(true),
        Decided::Aborted => Ok(false),
        Decided::NotYet { op, word } => {
            // This operation is a source, so it is of an earlier event.
            if op < first_of(plan, event) {
                return Err(TxnAnswer::NotYet { at: op, word });
            }
            match stop(op, word) {
                Some(answer) => Err(answer),
                None => decide_again(board, hand, plan, event),
            }
        }
    }
}

/// Decides an event after an operation of it was seen settled, so that there is a decision.
fn decide_again(board: &Board, hand: &mut Hand, plan: &Plan, event: u32) -> Result<bool, TxnAnswer>
    requires may { MaySettleEvent board.now hand.old plan.now event }
    requires seen { (o : ℕ) × InEvent plan.now event o × IsSettledSeen (view_of hand.old) o }
    ensures hand { IsHandOf board.now hand.new }
    ensures decided { DecidedDoes plan.now event (view_of hand.old) (view_of hand.new) result }
{
    match board.decide(hand, plan, event) {
        Decided::Committed => Ok(true),
        Decided::Aborted => Ok(false),
        Decided::NotYet { op, word } => Err(TxnAnswer::NotYet { at: op, word }),
    }
}
