ghost use Rattle.std.specs.Prelude.{IfOk};
ghost use Rattle.abort_lazy.specs.Rooms.{IsRoomFor};

use morph_base::{List, OutOfMemory, Plan};
use std::alloc::Global;

/// The memory of a [`Settled`](morph_base::Settled) of a plan. It is taken before the plan is settled, so settling
/// cannot fail.
#[derive(Debug, Drop)]
pub struct Room {
    pub(crate) values: List<u64>,
    pub(crate) committed: List<bool>,
    pub(crate) by: List<u8>,
}

impl Room {
    /// Makes room for what is settled of the plan: a value and a worker for each operation, a verdict for each event.
    pub fn new(alloc: Global, plan: &Plan) -> Result<Self, OutOfMemory>
        ensures { IfOk result (IsRoomFor plan.now) }
    {
        Ok(Room {
            values: List::with_room(alloc, plan.ops.len())?,
            committed: List::with_room(alloc, plan.events.len())?,
            by: List::with_room(alloc, plan.ops.len())?,
        })
    }
}
