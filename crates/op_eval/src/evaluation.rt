ghost use Rattle.std.specs.Prelude.{◌≡◌, ℕ, ◌≤◌, ◌<◌, List, [], None};
ghost use Rattle.morph_base.specs.Words.{IsWord};
ghost use Rattle.morph_base.specs.declared.word.OpState.TheVariants.{Ready, Blocked};
ghost use Rattle.morph_base.specs.declared.word.OpWord.{OpWord as Word};
ghost use Rattle.interleaving_core.specs.Core.{places};
ghost use Rattle.op_words.specs.declared.trail.Item.{Item};
ghost use Rattle.op_words.specs.declared.trail.View.{View};
ghost use Rattle.op_words.specs.Hands.{MayBegin, MayCall};
ghost use Rattle.op_words.specs.Hands.{cap_of, view_of, IsHandOf};
ghost use Rattle.op_words.specs.Views.{Holds};
ghost use Rattle.op_eval.specs.Evaluations.{fetching, EvaluationDoes, FetchAllTells, IsEvaluatingSoFar, Tries};

use crate::answers::Evaluation;
use crate::runner::Runner;
use morph_base::{OpState, OpWord, Plan};
use op_words::{Attempt, Board, Claimed, Fetched, Hand, Readied, places_of};

/// The source that stopped an evaluation, with its word.
#[derive(Clone, Copy, Debug, PartialEq, Eq)]
pub(crate) struct Stopped {
    pub(crate) source: u32,
    pub(crate) word: OpWord,
}

/// Fetches all places of the operation that the hand holds, and stops at the first source that stands in the way.
fn fetch_all(board: &Board, hand: &mut Hand, plan: &Plan, op: u32) -> Option<Stopped>
    requires may { MayCall board.now hand.old plan.now op }
    requires held { (a : ℕ) × Holds (view_of hand.old) op a [] }
    ensures hand { IsHandOf board.now hand.new }
    ensures answer { (a : ℕ) → Holds (view_of hand.old) op a []
        → FetchAllTells plan.now (cap_of board.now)
        (fetching op a (view_of hand.old) (view_of hand.new)) result }
{
    for j in 0..places_of(plan, op) {
        match board.fetch(hand, plan, op, j) {
            Fetched::Value(_) => {}
            Fetched::Unready { source, word } => return Some(Stopped { source, word }),
        }
    }
    None
}

/// Claims an operation that is ready, fetches its places and finishes it. If a source stops this, the operation is
/// given back.
fn hold(board: &Board, hand: &mut Hand, plan: &Plan, op: u32) -> Evaluation
    requires may { MayBegin board.now hand.old plan.now op }
    ensures hand { IsHandOf board.now hand.new }
    ensures answer { (start : View) (xs : List Item) (w : Word)
        → IsEvaluatingSoFar op start (view_of hand.old) xs w
        → w.state ≡ Ready
        → EvaluationDoes plan.now (cap_of board.now) op start (view_of hand.new) result }
{
    match board.claim(hand, plan, op) {
        Claimed::Not { word } => Evaluation::Busy { word },
        Claimed::Held { attempt } => match fetch_all(board, hand, plan, op) {
            None => {
                let outcome = board.finish(hand, plan, op);
                Evaluation::Evaluated { attempt, outcome }
            }
            Some(Stopped { source, word }) => {
                board.give_back(hand, plan, op);
                Evaluation::Blocked { source, word }
            }
        },
    }
}

/// Makes a blocked operation ready, and goes on.
fn make(board: &Board, hand: &mut Hand, plan: &Plan, op: u32) -> Evaluation
    requires may { MayBegin board.now hand.old plan.now op }
    ensures hand { IsHandOf board.now hand.new }
    ensures answer { (start : View) (xs : List Item) (w : Word)
        → IsEvaluatingSoFar op start (view_of hand.old) xs w
        → w.state ≡ Blocked
        → EvaluationDoes plan.now (cap_of board.now) op start (view_of hand.new) result }
{
    match board.ready(hand, plan, op) {
        Readied::Made => hold(board, hand, plan, op),
        Readied::Not { at, word } => {
            if at == op {
                Evaluation::Busy { word }
            } else {
                Evaluation::Blocked { source: at, word }
            }
        }
    }
}

/// Evaluates an operation that was found blocked with this word, which is not at the last attempt.
fn attempt(board: &Board, hand: &mut Hand, plan: &Plan, op: u32, word: OpWord) -> Evaluation
    requires may { MayBegin board.now hand.old plan.now op }
    requires word { IsWord word }
    requires blocked { word.state ≡ Blocked }
    requires below { word.attempt ≤ cap_of board.now }
    ensures hand { IsHandOf board.now hand.new }
    ensures answer { (start : View) (xs : List Item)
        → IsEvaluatingSoFar op start (view_of hand.old) xs word
        → EvaluationDoes plan.now (cap_of board.now) op start (view_of hand.new) result }
{
    match board.attempt(hand, plan, op, word.attempt) {
        Attempt::Ran(outcome) => Evaluation::Evaluated {
            attempt: word.attempt,
            outcome,
        },
        Attempt::Blocked { source, word } => Evaluation::Blocked { source, word },
        Attempt::Busy { word } => Evaluation::Busy { word },
    }
}

/// Evaluates an operation that was found blocked with this word: in one call, unless it is at the last attempt.
fn begin(board: &Board, hand: &mut Hand, plan: &Plan, op: u32, word: OpWord) -> Evaluation
    requires may { MayBegin board.now hand.old plan.now op }
    requires word { IsWord word }
    requires blocked { word.state ≡ Blocked }
    ensures hand { IsHandOf board.now hand.new }
    ensures answer { (start : View) (xs : List Item)
        → IsEvaluatingSoFar op start (view_of hand.old) xs word
        → EvaluationDoes plan.now (cap_of board.now) op start (view_of hand.new) result }
{
    if board.may_guess(word.attempt) {
        attempt(board, hand, plan, op, word)
    } else {
        make(board, hand, plan, op)
    }
}

/// Loads an operation's word, and evaluates the operation if it is idle.
fn evaluate_by(board: &Board, hand: &mut Hand, plan: &Plan, op: u32) -> Evaluation
    requires may { MayBegin board.now hand.old plan.now op }
    ensures hand { IsHandOf board.now hand.new }
    ensures answer { EvaluationDoes plan.now (cap_of board.now) op (view_of hand.old)
        (view_of hand.new) result }
{
    let word = board.peek(hand, plan, op);
    match word.state {
        // With `return` the answer goes to the caller without a copy on the way.
        OpState::Blocked => return begin(board, hand, plan, op, word),
        OpState::Ready => hold(board, hand, plan, op),
        OpState::Claimed => Evaluation::Busy { word },
        OpState::Executed => Evaluation::Already { word },
        OpState::Failed => Evaluation::Already { word },
        OpState::Spread => Evaluation::Already { word },
        OpState::Settled => Evaluation::Already { word },
        OpState::SettledAborted => Evaluation::Already { word },
    }
}

/// Evaluates an operation: makes it ready if it is blocked, claims it, fetches its places in order, and finishes it. If
/// a source stops this, the operation is given back. The sources of a blocked operation are loaded before its first
/// step, and once, unless it is at the last attempt.
///
/// The answer is [`Evaluation::Blocked`] only if the named source, as its word was loaded here, was neither evaluated
/// nor settled, or was not settled at the last attempt. It is [`Evaluation::Busy`] only if the operation was seen
/// claimed by another hand, or was changed by one during the call. It is [`Evaluation::Already`] exactly if the word
/// that was loaded first was evaluated or settled.
///
/// The runner holds nothing before and after. Its `answers` count the answer. The call takes no memory and waits for
/// nobody.
#[inline(always)]
pub fn evaluate(board: &Board, runner: &mut Runner, plan: &Plan, op: u32) -> Evaluation
    requires may { MayBegin board.now runner.old.hand plan.now op }
    ensures hand { IsHandOf board.now runner.new.hand }
    ensures answer { Tries plan.now (cap_of board.now) op runner.old runner.new result }
{
    let answer = evaluate_by(board, &mut runner.hand, plan, op);
    runner.answers.count(answer);
    answer
}
