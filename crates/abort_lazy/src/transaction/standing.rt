//! How operations are before the decision on their event, and what they say of it together.
ghost use Rattle.std.specs.Prelude.{◌≡◌, ◌≢◌, ◌<◌, IfSome, None, slice_index_or};
ghost use Rattle.morph_base.specs.declared.limits.TheConstants.{EVENT_OPS};
ghost use Rattle.abort_lazy.specs.Progress.{no_word, IsStandingOf, HasHeard};

use super::{TxnAnswer, stop};
use morph_base::{EVENT_OPS, OpState, OpWord};

/// How an operation is before the decision on its event.
#[derive(Clone, Copy, Debug, PartialEq, Eq)]
pub(super) enum Standing {
    /// It was judged good at this word.
    Good(OpWord),
    /// It was judged bad.
    Bad,
    /// It was seen settled.
    Settled,
    /// It stops the call with this answer.
    Stopped(TxnAnswer),
}

impl Standing {
    /// The standing of an operation that was found with this word: it is settled, or stops the call.
    pub(super) fn found(op: u32, word: OpWord) -> Standing
        ensures { IsStandingOf op word result }
    {
        match stop(op, word) {
            None => Standing::Settled,
            Some(answer) => Standing::Stopped(answer),
        }
    }
}

/// What the operations of an event say of it together.
#[derive(Clone, Copy, Debug, PartialEq, Eq)]
pub(super) enum Say {
    /// All of them are good, so it commits.
    Commit,
    /// One of them is bad, so it aborts.
    Abort,
    /// One of them is settled, so there is a decision.
    Decided,
}

/// What the operations of an event say of it, and the words at which those that are good were judged.
#[derive(Clone, Copy, Debug, PartialEq, Eq)]
pub(crate) struct Grounds {
    words: [OpWord; EVENT_OPS],
    pub(super) say: Say,
}

/// A word of zeros, in the places where nothing was judged: to fill an array with it takes few instructions.
const NO_WORD: OpWord = OpWord {
    value: 0,
    attempt: 0,
    state: OpState::Blocked,
    by: 0,
};

impl Grounds {
    /// The grounds before the first operation.
    pub(crate) fn new() -> Grounds
        ensures { result.say ≡ Say.Commit }
    {
        Grounds {
            words: [NO_WORD; EVENT_OPS],
            say: Say::Commit,
        }
    }

    /// Begins anew, with no operation heard. The words of earlier operations stay in their places until others come.
    pub(crate) fn begin(&mut self)
        ensures { self.new.say ≡ Say.Commit }
    {
        self.say = Say::Commit;
    }

    /// Keeps the word at which the operation of this number in the event was judged good.
    pub(super) fn keep(&mut self, number: usize, word: OpWord)
        requires number { number < EVENT_OPS }
        ensures { HasHeard number (Standing.Good word) self.old self.new None }
    {
        self.words[number] = word;
    }

    /// Adds what the operation of this number in the event says. Returns the answer if it stops the call.
    pub(super) fn hear(&mut self, number: usize, standing: Standing) -> Option<TxnAnswer>
        requires number { number < EVENT_OPS }
        ensures { HasHeard number standing self.old self.new result }
    {
        match standing {
            Standing::Good(word) => {
                self.keep(number, word);
                None
            }
            Standing::Bad => {
                self.say = Say::Abort;
                None
            }
            Standing::Settled => {
                self.say = Say::Decided;
                None
            }
            Standing::Stopped(answer) => Some(answer),
        }
    }

    /// The word at which the operation of this number in the event was judged good, if all of them were.
    pub(super) fn word(&self, number: usize) -> Option<OpWord>
        requires number { number < EVENT_OPS }
        ensures good { IfSome result (λ word. (self.now.say ≡ Say.Commit)
            × (word ≡ slice_index_or self.now.words number no_word)) }
        ensures none { result ≡ None → self.now.say ≢ Say.Commit }
    {
        match self.say {
            Say::Commit => Some(self.words[number]),
            Say::Abort => None,
            Say::Decided => None,
        }
    }
}
