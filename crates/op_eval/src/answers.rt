use morph_base::OpWord;
use op_words::Outcome;

/// The outcome when a runner tries to evaluate an operation.
#[derive(Clone, Copy, Debug, PartialEq, Eq)]
pub enum Evaluation {
    /// It was evaluated at this attempt.
    Evaluated { attempt: u8, outcome: Outcome },
    /// The word of the source, as loaded in this call, had no value, or was not settled at the last attempt.
    Blocked { source: u32, word: OpWord },
    /// Another hand holds the operation, or changed it during the call. The word is the one that shows this.
    Busy { word: OpWord },
    /// The operation was evaluated or settled before.
    Already { word: OpWord },
}

/// How often a runner was given each answer, by `evaluate`, or by `redo` in its own words. Each number stops at the
/// greatest u64.
#[derive(Clone, Copy, Debug, PartialEq, Eq)]
pub struct Answers {
    /// [`Evaluation::Evaluated`].
    pub evaluated: u64,
    /// [`Evaluation::Blocked`].
    pub blocked: u64,
    /// [`Evaluation::Busy`].
    pub busy: u64,
    /// [`Evaluation::Already`].
    pub already: u64,
}

impl Answers {
    ghost use Rattle.std.specs.Prelude.{◌≡◌};
    ghost use Rattle.op_eval.specs.Running.{no_answers, counted};

    /// No answers yet.
    pub(crate) fn none() -> Answers
        ensures { result ≡ no_answers }
    {
        Answers {
            evaluated: 0,
            blocked: 0,
            busy: 0,
            already: 0,
        }
    }

    /// Counts one more answer.
    pub(crate) fn count(&mut self, answer: Evaluation)
        ensures { self.new ≡ counted answer self.old }
    {
        match answer {
            Evaluation::Evaluated { .. } => self.evaluated = self.evaluated.saturating_add(1),
            Evaluation::Blocked { .. } => self.blocked = self.blocked.saturating_add(1),
            Evaluation::Busy { .. } => self.busy = self.busy.saturating_add(1),
            Evaluation::Already { .. } => self.already = self.already.saturating_add(1),
        }
    }
}

/// Why an event was not settled by the worker that tried it.
#[derive(Clone, Copy, Debug, PartialEq, Eq)]
pub struct Left {
    /// The event, by its number in the plan.
    pub event: u32,
    /// The operation whose word stood in the way: one of the event, or a source of one.
    pub at: u32,
    /// That word, as the worker saw it.
    pub word: OpWord,
    /// Whether another hand was at work there.
    pub busy: bool,
}
