//! The steps that a hand writes down.
ghost use Rattle.std.specs.Prelude.{◌≡◌, ◌+◌, ◌≤◌, ◌∷◌, ◌++◌, [], length, take, IfOk};

use interleaving_core::CoreEvent;
use morph_base::{List, OutOfMemory};
use std::alloc::Global;

/// The first steps of a hand, in order, as many as it has room for.
#[derive(Drop)]
pub(crate) struct Journal {
    steps: List<CoreEvent>,
    room: usize,
    ghost few: { length steps.items ≤ room },
    ghost fits: { room ≤ length steps.items + steps.room },
}

impl Journal {
    /// Makes an empty journal with room for this many steps. All of its memory is taken here.
    pub(crate) fn with_room(alloc: Global, room: usize) -> Result<Self, OutOfMemory>
        ensures steps { IfOk result (λ made. made.steps.items ≡ []) }
        ensures room { IfOk result (λ made. made.room ≡ room) }
    {
        let steps = List::with_room(alloc, room)?;
        Ok(Journal { steps, room })
    }

    /// The steps in order.
    pub(crate) fn steps(&self) -> &[CoreEvent]
        ensures { result.now ≡ self.now.steps.items }
    {
        self.steps.as_slice()
    }

    /// Writes a step down, if there is room.
    pub(crate) fn add(&mut self, step: CoreEvent)
        ensures room { self.new.room ≡ self.old.room }
        ensures steps { self.new.steps.items
            ≡ take self.old.room (self.old.steps.items ++ step ∷ []) }
    {
        if self.steps.len() < self.room {
            self.steps.add(step);
        }
    }
}
