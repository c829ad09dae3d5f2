ghost use Rattle.std.specs.Prelude.{◌≡◌, ◌+◌, ◌-◌, ◌^◌, min};
ghost use Rattle.op_words.specs.Calls.{answer_of};
ghost use Rattle.op_words.specs.Judging.{verdict_of, decided_as};
ghost use Rattle.op_words.specs.declared.answers.Decided.TheVariants.{Committed};

use morph_base::OpWord;

/// Whether an operation was made ready.
#[derive(Clone, Copy, Debug, PartialEq, Eq)]
pub enum Readied {
    /// Each source was loaded with a value in this call, and the operation went from blocked to ready.
    Made,
    /// Nothing was done. `at` is the operation, and its word was not blocked, or changed between the load and the
    /// exchange; or `at` is one of its sources, and its word had no value. `word` is the word that was loaded or found.
    Not { at: u32, word: OpWord },
}

/// Whether a hand claimed an operation.
#[derive(Clone, Copy, Debug, PartialEq, Eq)]
pub enum Claimed {
    /// The hand holds it at this attempt.
    Held { attempt: u8 },
    /// The word was not ready, or changed between the load and the exchange. `word` is the word that was loaded or
    /// found.
    Not { word: OpWord },
}

/// What was fetched for a place of the operation that is held.
#[derive(Clone, Copy, Debug, PartialEq, Eq)]
pub enum Fetched {
    /// The value of its source.
    Value(u64),
    /// The word of the source, as loaded in this call, had no value, or was not settled at the last attempt.
    Unready { source: u32, word: OpWord },
}

/// The outcome of an operation at one attempt.
#[derive(Clone, Copy, Debug, PartialEq, Eq)]
pub enum Outcome {
    /// Its function gave this value.
    Executed(u64),
    /// Its function failed.
    Failed,
}

/// The outcome when a blocked operation is evaluated in one call.
#[derive(Clone, Copy, Debug, PartialEq, Eq)]
pub enum Attempt {
    /// It was evaluated.
    Ran(Outcome),
    /// The source had no value, as its word was loaded in the call. The operation is as it was.
    Blocked { source: u32, word: OpWord },
    /// Another hand changed the operation: this word was found in place of the blocked one, or of the ready one that
    /// the call had left.
    Busy { word: OpWord },
}

/// Whether the failure of an operation was spread to another operation of its event.
#[derive(Clone, Copy, Debug, PartialEq, Eq)]
pub enum Spreaded {
    /// The operation has its target's record as its value, at its next attempt.
    Done,
    /// The operation's word was not executed, was not below the cap, or changed between the load and the exchange.
    /// `word` is the word that was loaded or found.
    Not { word: OpWord },
}

/// Whether an operation was rolled back to its next attempt.
#[derive(Clone, Copy, Debug, PartialEq, Eq)]
pub enum Rolled {
    /// It is blocked, at its next attempt.
    Done,
    /// Nothing was wrong: the source's value, as loaded in this call, is that of the record, and the operation's word
    /// is not spread.
    Fresh { value: u64 },
    /// `at` is the operation, and its word had no value that may be taken back, was at the last attempt, or changed; or
    /// `at` is a source whose word had no value, or was not settled although the rollback needs it settled. `word` is
    /// the word that was loaded or found.
    Not { at: u32, word: OpWord },
}

/// What an operation's records and settled sources say of it.
#[derive(Clone, Copy, Debug, PartialEq, Eq)]
pub enum Verdict {
    /// It is executed, each record is the settled value of its source, and this is its value.
    Good(u64),
    /// It failed, and each record is the settled value of its source.
    Bad,
    /// The record at place `j` has the value `kept`, but the settled value of its source is `settled`.
    Stale { j: u8, kept: u64, settled: u64 },
    /// `at` is a source that is not settled, or it is the operation, and its word was neither executed nor failed, or
    /// changed. `word` is the word that was loaded.
    Unready { at: u32, word: OpWord },
}

/// The outcome when a stale operation is taken back and evaluated again in one call.
#[derive(Clone, Copy, Debug, PartialEq, Eq)]
pub enum Redone {
    /// It was evaluated again and is executed with this word. Each record is the settled value of its source.
    Good(OpWord),
    /// It was evaluated again and failed with this word. Each record is the settled value of its source.
    Bad(OpWord),
    /// The source was not settled, as its word was loaded in the call. The operation is as it was.
    Open { source: u32, word: OpWord },
    /// Another hand changed the operation: this word was found in place of the one that was judged, or of one that the
    /// call had left.
    Busy { word: OpWord },
}

/// The decision on an event.
#[derive(Clone, Copy, Debug, PartialEq, Eq)]
pub enum Decided {
    /// Each of its operations answers on settled sources.
    Committed,
    /// One of its operations fails on settled sources.
    Aborted,
    /// No operation of the event was bad. The first one that was not good was stale, and `op` and `word` are this
    /// operation and its word; or it was [`Verdict::Unready`], and they are those of that answer.
    NotYet { op: u32, word: OpWord },
}

/// Whether an operation was settled.
#[derive(Clone, Copy, Debug, PartialEq, Eq)]
pub enum SettleAnswer {
    /// The hand settled it in this call, with this value.
    Done(u64),
    /// `at` is the operation, and its word was claimed or settled, or changed between the load and the exchange; or the
    /// event commits, and the word was not executed or a record differed from its source. Or `at` is a source that has
    /// to be settled, and was not. `word` is the word that was loaded or found.
    Not { at: u32, word: OpWord },
}

/// How many operations a hand and those joined into it evaluated, spread and rolled back. Each number stops at the
/// greatest u64.
#[derive(Clone, Copy, Debug, PartialEq, Eq)]
pub struct Counts {
    /// How many claims ended executed or failed.
    pub evaluated: u64,
    /// How many operations were told that another operation of their event had failed.
    pub spread: u64,
    /// How many operations were rolled back to their next attempt.
    pub rolled: u64,
}

/// A source that has no value yet, or that is not settled, with its word.
#[derive(Clone, Copy, Debug, PartialEq, Eq)]
pub(crate) struct Stop {
    pub(crate) source: u32,
    pub(crate) word: OpWord,
}

/// An operation's records, compared with its sources.
#[derive(Clone, Copy, Debug, PartialEq, Eq)]
pub(crate) enum Compared {
    /// All sources are settled, and each record is the value of its source.
    Equal,
    /// A source is not settled.
    Open(Stop),
    /// The record at place `j` has the value `kept`, but the settled value of its source is `settled`.
    Differs { j: u8, kept: u64, settled: u64 },
}

impl Outcome {
    /// The outcome if the function gave this answer.
    pub(crate) fn of(answer: Option<u64>) -> Outcome
        ensures { result ≡ answer_of answer }
    {
        match answer {
            Some(value) => Outcome::Executed(value),
            None => Outcome::Failed,
        }
    }
}

impl Decided {
    /// The answer that there is this decision.
    pub(crate) fn of(committed: bool) -> Decided
        ensures { result ≡ decided_as committed }
    {
        if committed {
            Decided::Committed
        } else {
            Decided::Aborted
        }
    }

    /// What the operations say of their event together, if those so far say `self` and the next one says `next`: the
    /// first doubt stays.
    pub(crate) fn and(self, next: Decided) -> Decided
        ensures first { self ≡ Committed → result ≡ next }
        ensures doubt { (self ≡ Committed → ⊥) → result ≡ self }
    {
        if let Decided::Committed = self {
            next
        } else {
            self
        }
    }
}

impl Verdict {
    /// The verdict on an operation with this word, executed or failed, if its records are the values of its sources.
    pub(crate) fn of(word: OpWord) -> Verdict
        ensures { result ≡ verdict_of word }
    {
        if word.state.is_failed() {
            Verdict::Bad
        } else {
            Verdict::Good(word.value)
        }
    }
}

impl Counts {
    pub(crate) fn none() -> Counts
        ensures { result ≡ record { evaluated = 0; spread = 0; rolled = 0 } }
    {
        Counts {
            evaluated: 0,
            spread: 0,
            rolled: 0,
        }
    }

    /// The sums of both.
    pub(crate) fn and(self, other: Counts) -> Counts
        ensures evaluated { result.evaluated ≡ min (self.evaluated + other.evaluated) (2 ^ 64 - 1) }
        ensures spread { result.spread ≡ min (self.spread + other.spread) (2 ^ 64 - 1) }
        ensures rolled { result.rolled ≡ min (self.rolled + other.rolled) (2 ^ 64 - 1) }
    {
        Counts {
            evaluated: self.evaluated.saturating_add(other.evaluated),
            spread: self.spread.saturating_add(other.spread),
            rolled: self.rolled.saturating_add(other.rolled),
        }
    }
}
