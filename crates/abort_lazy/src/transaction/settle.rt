//! Settles the operations of a decided event.
ghost use Rattle.std.specs.Prelude.{◌≡◌, ◌≢◌, Bool, true, None};
ghost use Rattle.morph_base.specs.Plans.{InEvent};
ghost use Rattle.op_words.specs.Judging.{IsGoodAt};
ghost use Rattle.op_words.specs.Views.{IsDecisionSeen};
ghost use Rattle.op_words.specs.Hands.{view_of, IsHandOf};
ghost use Rattle.abort_lazy.specs.Transactions.{MaySettleEvent};
ghost use Rattle.abort_lazy.specs.declared.transaction.standing.Grounds.{Grounds as G};
ghost use Rattle.abort_lazy.specs.Progress.{word_at, IsDecidedBy, OneDoes, RestDoes};

use super::standing::{Grounds, Say};
use super::{TxnAnswer, end_of, first_of, stop};
use morph_base::{OpWord, Plan};
use op_words::{Board, Hand, SettleAnswer};

/// Settles the operations of an event whose decision the hand knows, up to the first one that cannot be settled.
pub(super) fn settle_rest(
    board: &Board,
    hand: &mut Hand,
    plan: &Plan,
    event: u32,
    grounds: &Grounds,
) -> Option<TxnAnswer>
    requires may { MaySettleEvent board.now hand.old plan.now event }
    requires decided { IsDecidedBy plan.now event (view_of hand.old) grounds.now }
    ensures hand { IsHandOf board.now hand.new }
    ensures settled { RestDoes plan.now event grounds.now (view_of hand.old)
        (view_of hand.new) result }
{
    let first = first_of(plan, event);
    let end = end_of(plan, event);
    for op in first..end {
        match settle_by(board, hand, plan, event, op, grounds) {
            None => {}
            Some(answer) => return Some(answer),
        }
    }
    None
}

/// Settles an operation of an event whose decision the hand knows: from the word at which it was judged, if the event
/// commits by its grounds, and else as it is found.
fn settle_by(
    board: &Board,
    hand: &mut Hand,
    plan: &Plan,
    event: u32,
    op: u32,
    grounds: &Grounds,
) -> Option<TxnAnswer>
    requires may { MaySettleEvent board.now hand.old plan.now event }
    requires inside { InEvent plan.now event op }
    requires decided { IsDecidedBy plan.now event (view_of hand.old) grounds.now }
    ensures hand { IsHandOf board.now hand.new }
    ensures free { (view_of hand.new).claim ≡ None }
    ensures settled { OneDoes plan.now event grounds.now op (view_of hand.old)
        (view_of hand.new) result }
{
    let number = (op - first_of(plan, event)) as usize;
    match grounds.word(number) {
        Some(word) => settle_good(board, hand, plan, event, op, word),
        None => settle_one(board, hand, plan, event, op),
    }
}

/// Settles an operation of an event that commits, from the word at which it was judged good, or finds another word.
fn settle_good(
    board: &Board,
    hand: &mut Hand,
    plan: &Plan,
    event: u32,
    op: u32,
    word: OpWord,
) -> Option<TxnAnswer>
    requires may { MaySettleEvent board.now hand.old plan.now event }
    requires inside { InEvent plan.now event op }
    requires good { IsGoodAt plan.now (view_of hand.old) op word }
    requires decided { IsDecisionSeen (view_of hand.old) event true }
    ensures hand { IsHandOf board.now hand.new }
    ensures free { (view_of hand.new).claim ≡ None }
    ensures settled { (grounds : G) → grounds.say ≡ Say.Commit
        → word ≡ word_at plan.now event grounds op
        → OneDoes plan.now event grounds op (view_of hand.old) (view_of hand.new) result }
{
    match board.settle_good(hand, plan, op, word) {
        SettleAnswer::Done(_) => None,
        SettleAnswer::Not { word, .. } => stop(op, word),
    }
}

/// Settles an operation of an event whose decision the hand knows, or finds it settled.
fn settle_one(board: &Board, hand: &mut Hand, plan: &Plan, event: u32, op: u32) -> Option<TxnAnswer>
    requires may { MaySettleEvent board.now hand.old plan.now event }
    requires inside { InEvent plan.now event op }
    requires decided { (committed : Bool) × IsDecisionSeen (view_of hand.old) event committed }
    ensures hand { IsHandOf board.now hand.new }
    ensures free { (view_of hand.new).claim ≡ None }
    ensures settled { (grounds : G) → grounds.say ≢ Say.Commit
        → OneDoes plan.now event grounds op (view_of hand.old) (view_of hand.new) result }
{
    match board.settle(hand, plan, op) {
        SettleAnswer::Done(_) => None,
        SettleAnswer::Not { at, word } => {
            if at == op {
                stop(op, word)
            } else {
                Some(TxnAnswer::NotYet { at, word })
            }
        }
    }
}
