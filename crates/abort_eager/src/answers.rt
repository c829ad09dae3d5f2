ghost use Rattle.std.specs.Prelude.{◌≡◌};
ghost use Rattle.abort_eager.specs.Touching.{spread_touch, roll_touch};

use morph_base::OpWord;
use op_words::{Rolled, Spreaded};

/// What a cascade touches next.
#[derive(Clone, Copy, Debug, PartialEq, Eq)]
pub enum Target {
    /// Another operation of the failed operation's event: the failure is spread to it.
    Spread { op: u32 },
    /// An operation is rolled back, for what it read at a place.
    RollBack { op: u32, place: u8 },
}

/// What became of an operation that a cascade touched.
#[derive(Clone, Copy, Debug, PartialEq, Eq)]
pub enum Touch {
    /// The failure was spread to it.
    Spread,
    /// It is blocked, at its next attempt.
    RolledBack,
    /// It read the value that its source has, and was left as it is.
    Fresh { value: u64 },
    /// The word of operation `at`, which is the target itself or a source, stood in the way: see [`Spreaded::Not`] and
    /// [`Rolled::Not`].
    Not { at: u32, word: OpWord },
}

/// An operation that a cascade touched.
#[derive(Clone, Copy, Debug, PartialEq, Eq)]
pub struct Touched {
    /// The operation, by its number in the plan.
    pub op: u32,
    /// What became of it.
    pub touch: Touch,
}

impl Touch {
    /// The board's answer to spreading a failure to an operation.
    pub(crate) fn of_spread(op: u32, answer: Spreaded) -> Touch
        ensures { result ≡ spread_touch op answer }
    {
        match answer {
            Spreaded::Done => Touch::Spread,
            Spreaded::Not { word } => Touch::Not { at: op, word },
        }
    }

    /// The board's answer to rolling an operation back.
    pub(crate) fn of_roll(answer: Rolled) -> Touch
        ensures { result ≡ roll_touch answer }
    {
        match answer {
            Rolled::Done => Touch::RolledBack,
            Rolled::Fresh { value } => Touch::Fresh { value },
            Rolled::Not { at, word } => Touch::Not { at, word },
        }
    }
}
