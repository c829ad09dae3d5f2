ghost use Rattle.std.specs.Prelude.{◌≡◌, ℕ, ◌<◌, ◌^◌, [], ◌∷◌, IfOk};

use morph_base::{List, OutOfMemory};
use std::alloc::Global;
use std::marker::Model;

/// Operations, each of which is a unit of its own number. Contracts see how many there are.
///
/// It takes one piece of memory however many they are.
#[derive(Debug, Drop)]
pub(crate) struct Alone {
    /// The numbers from 0 on.
    ops: List<u32>,
}

impl Model for Alone {
    ghost use Rattle.std.specs.Prelude.{◌≡◌, ℕ, ◌<◌, ◌^◌, length};
    ghost use Rattle.morph_base.specs.Graphs.{below};

    ghost Value = { ℕ };

    ghost view = { λ alone. length alone.ops.items };

    ghost invariant = { λ alone. (alone.ops.items ≡ below (length alone.ops.items))
        × (length alone.ops.items < 2 ^ 32) };
}

impl Alone {
    /// Makes units of this many operations.
    pub(crate) fn new(alloc: Global, ops: usize) -> Result<Self, OutOfMemory>
        requires { ops < 2 ^ 32 }
        ensures { IfOk result (λ alone. alone ≡ ops) }
    {
        let mut numbers = List::with_room(alloc, ops)?;
        for op in 0..ops {
            numbers.add(op as u32);
        }
        Ok(Alone { ops: numbers })
    }

    /// How many operations there are.
    pub(crate) fn len(&self) -> u32
        ensures { result ≡ self.now }
    {
        self.ops.len() as u32
    }

    /// The unit of an operation: the operation alone.
    pub(crate) fn unit(&self, op: u32) -> &[u32]
        requires { op < self.now }
        ensures { result.now ≡ op ∷ [] }
    {
        let at = op as usize;
        &self.ops.as_slice()[at..at + 1]
    }
}
