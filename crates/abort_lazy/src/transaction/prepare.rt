//! Makes operations ready for the decision on their event.
ghost use Rattle.std.specs.Prelude.{◌≡◌, ◌<◌, true, List, None};
ghost use Rattle.morph_base.specs.declared.limits.TheConstants.{EVENT_OPS};
ghost use Rattle.morph_base.specs.Plans.{event_at, InEvent};
ghost use Rattle.morph_base.specs.Words.{IsWord};
ghost use Rattle.interleaving_core.specs.Core.{has_run, places};
ghost use Rattle.op_words.specs.declared.trail.Item.{Item};
ghost use Rattle.op_words.specs.declared.trail.View.{View};
ghost use Rattle.op_words.specs.Hands.{MayBegin};
ghost use Rattle.op_words.specs.Hands.{cap_of, view_of, IsHandOf};
ghost use Rattle.op_words.specs.Judging.{IsStaleSeen, VerdictAtDoes};
ghost use Rattle.op_eval.specs.Running.{hand_view};
ghost use Rattle.abort_lazy.specs.Transactions.{MaySettleEvent, IsAnswered};
ghost use Rattle.abort_lazy.specs.Progress.{so_far, ReadyDoes, PreparesOne, AllReadyDoes};
ghost use Rattle.abort_lazy.specs.Progress.{IsIdleSoFar, IsStaleSoFar, IsSpreadSoFar, IsMadeSoFar, IsFoundSoFar};

use super::standing::{Grounds, Say, Standing};
use super::{TxnAnswer, end_of, first_of};
use morph_base::{OpState, OpWord, Plan};
use op_eval::{Evaluation, Runner, evaluate, redo};
use op_words::{Board, Hand, Redone, Rolled, Verdict};

/// Makes all operations of an event ready for the decision, up to the first one that cannot be made ready, and hears
/// what they say of the event.
pub(super) fn prepare_all(
    board: &Board,
    runner: &mut Runner,
    plan: &Plan,
    event: u32,
    grounds: &mut Grounds,
) -> Option<TxnAnswer>
    requires may { MaySettleEvent board.now runner.old.hand plan.now event }
    requires grounds { grounds.old.say ≡ Say.Commit }
    ensures hand { IsHandOf board.now runner.new.hand }
    ensures ready { AllReadyDoes plan.now event (hand_view runner.old)
        (hand_view runner.new) grounds.new result }
    ensures answered { IsAnswered (event_at plan.now event).count runner.old runner.new }
{
    let first = first_of(plan, event);
    let end = end_of(plan, event);
    for op in first..end {
        let number = (op - first) as usize;
        match prepare(board, runner, plan, event, op, number, grounds) {
            None => {}
            Some(answer) => return Some(answer),
        }
    }
    None
}

/// Makes an operation ready for the decision, and hears what it says of the event as its operation of this number.
fn prepare(
    board: &Board,
    runner: &mut Runner,
    plan: &Plan,
    event: u32,
    op: u32,
    number: usize,
    grounds: &mut Grounds,
) -> Option<TxnAnswer>
    requires may { MayBegin board.now runner.old.hand plan.now op }
    requires inside { InEvent plan.now event op }
    requires number { number < EVENT_OPS }
    ensures hand { IsHandOf board.now runner.new.hand }
    ensures free { (hand_view runner.new).claim ≡ None }
    ensures ready { PreparesOne plan.now event op number (hand_view runner.old)
        (hand_view runner.new) grounds.old grounds.new result }
    ensures answered { IsAnswered 1 runner.old runner.new }
{
    let (word, verdict) = board.verdict_at(&mut runner.hand, plan, op);
    if let Verdict::Good(_) = verdict {
        // Most are good. A standing would be put together for them, and taken apart.
        grounds.keep(number, without_worker(word));
        return None;
    }
    let standing = stand_by(board, runner, plan, event, op, word, verdict);
    grounds.hear(number, standing)
}

/// The word of an operation that has run, as it is: it has no worker.
///
/// `by` is written as a constant, so that it need not be loaded. A processor waits for a load of bytes that it stored one
/// by one just before, and settling took a sixth of its time for that.
fn without_worker(word: OpWord) -> OpWord
    requires in_range { IsWord word }
    requires ran { has_run word.state ≡ true }
    ensures { result ≡ word }
{
    OpWord { by: 0, ..word }
}

/// The standing of an operation by its verdict and the word that was loaded last, after it was mended if that is needed.
fn stand_by(
    board: &Board,
    runner: &mut Runner,
    plan: &Plan,
    event: u32,
    op: u32,
    word: OpWord,
    verdict: Verdict,
) -> Standing
    requires may { MayBegin board.now runner.old.hand plan.now op }
    requires inside { InEvent plan.now event op }
    requires judged { (start : View)
        × VerdictAtDoes plan.now (cap_of board.now) op start (hand_view runner.old) word verdict }
    ensures hand { IsHandOf board.now runner.new.hand }
    ensures free { (hand_view runner.new).claim ≡ None }
    ensures ready { (start : View)
        → VerdictAtDoes plan.now (cap_of board.now) op start (hand_view runner.old) word verdict
        → ReadyDoes plan.now event op start (hand_view runner.new) result }
    ensures answered { IsAnswered 1 runner.old runner.new }
{
    match verdict {
        Verdict::Good(_) => Standing::Good(word),
        Verdict::Bad => Standing::Bad,
        Verdict::Stale { j, .. } => redo_stale(board, runner, plan, event, op, word, j),
        Verdict::Unready { at, word } => {
            if at == op {
                mend(board, runner, plan, event, op, word)
            } else {
                Standing::Stopped(TxnAnswer::NotYet { at, word })
            }
        }
    }
}

/// Mends an operation whose own word, as it was loaded last, is neither executed nor failed, or has changed.
fn mend(
    board: &Board,
    runner: &mut Runner,
    plan: &Plan,
    event: u32,
    op: u32,
    word: OpWord,
) -> Standing
    requires may { MayBegin board.now runner.old.hand plan.now op }
    requires inside { InEvent plan.now event op }
    ensures hand { IsHandOf board.now runner.new.hand }
    ensures free { (hand_view runner.new).claim ≡ None }
    ensures ready { (start : View) (xs : List Item)
        → IsFoundSoFar plan.now (cap_of board.now) op (so_far start (hand_view runner.old) xs) word
        → ReadyDoes plan.now event op start (hand_view runner.new) result }
    ensures answered { IsAnswered 1 runner.old runner.new }
{
    match word.state {
        OpState::Spread => redo_spread(board, runner, plan, event, op),
        OpState::Blocked => run(board, runner, plan, event, op),
        OpState::Ready => run(board, runner, plan, event, op),
        OpState::Claimed => Standing::found(op, word),
        OpState::Executed => Standing::found(op, word),
        OpState::Failed => Standing::found(op, word),
        OpState::Settled => Standing::found(op, word),
        OpState::SettledAborted => Standing::found(op, word),
    }
}

/// Takes back an operation that was judged stale at this word, and evaluates it again. What it is evaluated to is good
/// or bad without a further look, since its sources were settled.
fn redo_stale(
    board: &Board,
    runner: &mut Runner,
    plan: &Plan,
    event: u32,
    op: u32,
    word: OpWord,
    j: u8,
) -> Standing
    requires may { MayBegin board.now runner.old.hand plan.now op }
    requires stale { IsStaleSeen plan.now (cap_of board.now) (hand_view runner.old) op word j }
    requires inside { InEvent plan.now event op }
    ensures hand { IsHandOf board.now runner.new.hand }
    ensures free { (hand_view runner.new).claim ≡ None }
    ensures ready { (start : View) (xs : List Item)
        → IsStaleSoFar op word (so_far start (hand_view runner.old) xs)
        → ReadyDoes plan.now event op start (hand_view runner.new) result }
    ensures answered { IsAnswered 1 runner.old runner.new }
{
    match redo(board, runner, plan, op, without_worker(word), j) {
        Redone::Good(word) => Standing::Good(word),
        Redone::Bad(_) => Standing::Bad,
        Redone::Open { source, word } => Standing::Stopped(TxnAnswer::NotYet { at: source, word }),
        Redone::Busy { word } => Standing::found(op, word),
    }
}

/// Rolls back an operation whose value another failure took back, and evaluates it again.
fn redo_spread(board: &Board, runner: &mut Runner, plan: &Plan, event: u32, op: u32) -> Standing
    requires may { MayBegin board.now runner.old.hand plan.now op }
    requires inside { InEvent plan.now event op }
    ensures hand { IsHandOf board.now runner.new.hand }
    ensures free { (hand_view runner.new).claim ≡ None }
    ensures ready { (start : View) (xs : List Item)
        → IsSpreadSoFar (cap_of board.now) op (so_far start (hand_view runner.old) xs)
        → ReadyDoes plan.now event op start (hand_view runner.new) result }
    ensures answered { IsAnswered 1 runner.old runner.new }
{
    match board.roll_back(&mut runner.hand, plan, op, 0) {
        Rolled::Done => run(board, runner, plan, event, op),
        Rolled::Fresh { .. } => {
            let word = board.peek(&mut runner.hand, plan, op);
            Standing::found(op, word)
        }
        Rolled::Not { at, word } => {
            if at == op {
                Standing::found(op, word)
            } else {
                Standing::Stopped(TxnAnswer::NotYet { at, word })
            }
        }
    }
}

/// Evaluates an operation that was found blocked or ready, and judges it.
fn run(board: &Board, runner: &mut Runner, plan: &Plan, event: u32, op: u32) -> Standing
    requires may { MayBegin board.now runner.old.hand plan.now op }
    requires inside { InEvent plan.now event op }
    ensures hand { IsHandOf board.now runner.new.hand }
    ensures free { (hand_view runner.new).claim ≡ None }
    ensures ready { (start : View) (xs : List Item) → IsIdleSoFar op (so_far start (hand_view runner.old) xs)
        → ReadyDoes plan.now event op start (hand_view runner.new) result }
    ensures answered { IsAnswered 1 runner.old runner.new }
{
    match evaluate(board, runner, plan, op) {
        Evaluation::Evaluated { .. } => judge(board, &mut runner.hand, plan, event, op),
        Evaluation::Blocked { source, word } => Standing::Stopped(TxnAnswer::NotYet {
            at: source,
            word,
        }),
        Evaluation::Busy { word } => Standing::found(op, word),
        Evaluation::Already { word } => Standing::found(op, word),
    }
}

/// The verdict on an operation that was evaluated in this call. If a record differs even so, another hand changed the
/// operation or its source.
fn judge(board: &Board, hand: &mut Hand, plan: &Plan, event: u32, op: u32) -> Standing
    requires may { MayBegin board.now hand.old plan.now op }
    requires inside { InEvent plan.now event op }
    ensures hand { IsHandOf board.now hand.new }
    ensures free { (view_of hand.new).claim ≡ None }
    ensures ready { (start : View) (xs : List Item)
        → IsMadeSoFar plan.now (cap_of board.now) op (so_far start (view_of hand.old) xs)
        → ReadyDoes plan.now event op start (view_of hand.new) result }
{
    let (word, verdict) = board.verdict_at(hand, plan, op);
    match verdict {
        Verdict::Good(_) => Standing::Good(word),
        Verdict::Bad => Standing::Bad,
        Verdict::Stale { .. } => {
            let word = board.peek(hand, plan, op);
            Standing::found(op, word)
        }
        Verdict::Unready { at, word } => {
            if at == op {
                Standing::found(op, word)
            } else {
                Standing::Stopped(TxnAnswer::NotYet { at, word })
            }
        }
    }
}
