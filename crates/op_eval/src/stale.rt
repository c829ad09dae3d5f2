ghost use Rattle.std.specs.Prelude.{◌≡◌};
ghost use Rattle.op_words.specs.Hands.{cap_of, IsHandOf, MayBegin};
ghost use Rattle.op_words.specs.Judging.{IsStaleSeen};
ghost use Rattle.op_eval.specs.Evaluations.{Redoes, evaluation_of};
ghost use Rattle.op_eval.specs.Running.{hand_view};

use crate::answers::Evaluation;
use crate::runner::Runner;
use morph_base::{OpWord, Plan};
use op_words::{Board, Outcome, Redone};

/// The answer of [`evaluate`](crate::evaluate) that says the same.
fn as_evaluation(answer: Redone) -> Evaluation
    ensures { result ≡ evaluation_of answer }
{
    match answer {
        Redone::Good(word) => Evaluation::Evaluated {
            attempt: word.attempt,
            outcome: Outcome::Executed(word.value),
        },
        Redone::Bad(word) => Evaluation::Evaluated {
            attempt: word.attempt,
            outcome: Outcome::Failed,
        },
        Redone::Open { source, word } => Evaluation::Blocked { source, word },
        Redone::Busy { word } => Evaluation::Busy { word },
    }
}

/// Takes the value of a stale operation back and evaluates the operation again, as [`Board::redo`] does. The runner's
/// `answers` count it as evaluated if it was, as blocked if a source was not settled, and as busy if another hand
/// changed the operation.
///
/// The runner holds nothing before and after. The call takes no memory and waits for nobody.
pub fn redo(board: &Board, runner: &mut Runner, plan: &Plan, op: u32, word: OpWord, j: u8) -> Redone
    requires may { MayBegin board.now runner.old.hand plan.now op }
    requires stale { IsStaleSeen plan.now (cap_of board.now) (hand_view runner.old) op word j }
    ensures hand { IsHandOf board.now runner.new.hand }
    ensures answer { Redoes plan.now op word j runner.old runner.new result }
{
    let answer = board.redo(&mut runner.hand, plan, op, word, j);
    runner.answers.count(as_evaluation(answer));
    answer
}
