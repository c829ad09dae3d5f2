//! The steps on counters and on the level word.
use crate::trail::View;
use atomic_table::Play;

/// An addition of 1 to a counter.
pub(crate) struct Take;

impl Play<(), Option<View>> for Take {
    ghost use Rattle.op_words.specs.Counting.{takes};

    ghost then = { takes };
}

/// Any step on the level word.
pub(crate) struct Pass;

impl Play<(), Option<View>> for Pass {
    ghost use Rattle.op_words.specs.Counting.{passes};

    ghost then = { passes };
}

/// A step that leaves the level word as it is, and gives the hand's journal its room.
pub(crate) struct Fit;

impl Play<(), Option<View>> for Fit {
    ghost use Rattle.op_words.specs.Counting.{fits};

    ghost then = { fits };
}
