//! When a cascade follows an evaluation.
ghost use Rattle.std.specs.Prelude.{◌≡◌};
ghost use Rattle.abort_eager.specs.Sweeps.{cascade_for};

use morph_base::Abort;
use op_eval::Evaluation;
use op_words::Outcome;

/// Whether a cascade follows an answer of [`evaluate`](op_eval::evaluate), and whether it is that of a failure.
///
/// Under eager abort a cascade follows each evaluation that failed, or that was a second or later attempt: what read
/// the version before has to be looked at again. Under lazy abort none follows.
pub fn cascade_behind(abort: Abort, answer: Evaluation) -> Option<bool>
    ensures { result ≡ cascade_for abort answer }
{
    match abort {
        Abort::Lazy => None,
        Abort::Eager => match answer {
            Evaluation::Evaluated { attempt, outcome } => match outcome {
                Outcome::Failed => Some(true),
                Outcome::Executed(_) => { if attempt > 1 { Some(false) } else { None } }
            },
            Evaluation::Blocked { .. } => None,
            Evaluation::Busy { .. } => None,
            Evaluation::Already { .. } => None,
        },
    }
}
