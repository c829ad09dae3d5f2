ghost use Rattle.morph_base.specs.EventHeads.{AreInside};

use crate::list::List;
use crate::op_rows::OpRows;

mod calls;

/// Where an event of a batch has its operations.
#[derive(Clone, Copy, Debug)]
struct EventHead {
    ts: u64,
    /// The place of its first operation in the list of all.
    first: usize,
    /// How many operations it has.
    count: usize,
}

/// How much memory a batch may ask for at once, so that it need not grow. No contract speaks of it.
#[derive(Clone, Copy, Debug)]
pub struct BatchRoom {
    events: usize,
    ops: usize,
    keys: usize,
}

impl BatchRoom {
    /// No room: the memory is taken as the events come.
    pub fn none() -> Self {
        BatchRoom {
            events: 0,
            ops: 0,
            keys: 0,
        }
    }
}

/// The events between two punctuations, in order of arrival.
///
/// It is valid if its events are valid, at most [`EVENTS`](crate::EVENTS) in number, and their timestamps differ. The
/// operations of all events stand in the same rows, so that an event takes no memory of its own.
#[derive(Debug, Drop)]
pub struct Batch {
    heads: List<EventHead>,
    ops: OpRows,
    ghost inside: { AreInside ops heads.items },
}
