//! The entries that were shown, in order, linked by operation.
ghost use Rattle.std.specs.Prelude.{◌≡◌, ℕ, ◌+◌, ◌<◌, ◌^◌, ◌↔◌, List, [], ◌∷◌, ◌++◌, length, IsTrue, IfOk};
ghost use Rattle.morph_base.specs.Links.{AreEnds, AreLinked};
ghost use Rattle.interleaving_core.specs.Core.{HasShown};
ghost use Rattle.interleaving_core.specs.Entries.{op_in, before_in, is_sought, HasSought, HasShownAnother};
ghost use Rattle.interleaving_core.specs.Steps.{HasFailed};

use crate::entry::Entry;
use morph_base::{List, OutOfMemory};
use std::alloc::Global;

/// What is sought among the entries of an operation.
#[derive(Clone, Copy, Debug)]
enum Sought {
    Value(u64),
    ValueBesides(u64),
    Failure,
}

impl Sought {
    fn is(self, entry: &Entry) -> bool
        ensures { result ≡ is_sought self entry.now }
    {
        match self {
            Sought::Value(value) => entry.value == value,
            Sought::ValueBesides(value) => entry.value != value,
            Sought::Failure => entry.failed,
        }
    }
}

/// The entries that were shown.
///
/// Those of an operation are walked from its last one back, so that nobody looks through the entries of others.
#[derive(Debug, Drop)]
pub struct Published {
    entries: List<Entry>,
    /// For each entry, 1 and the number of the one before it of the same operation, or 0 if there is none.
    before: List<u32>,
    /// For each operation, 1 and the number of its last entry, or 0 if it has none.
    ends: List<u32>,
    ghost few: { length entries.items + entries.room < 2 ^ 32 },
    ghost long: { length before.items ≡ length entries.items },
    ghost room: { before.room ≡ entries.room },
    ghost ended: { AreEnds (op_in entries.items) (length entries.items) ends.items },
    ghost linked: { AreLinked (op_in entries.items) (length entries.items)
        (before_in before.items) },
}

impl Published {
    /// Makes an empty list, with room for this many entries of this many operations.
    pub(super) fn new(alloc: Global, ops: usize, room: usize) -> Result<Self, OutOfMemory>
        requires { room < 2 ^ 32 }
        ensures entries { IfOk result (λ published. published.entries.items ≡ []) }
        ensures room { IfOk result (λ published. published.entries.room ≡ room) }
        ensures ops { IfOk result (λ published. length published.ends.items ≡ ops) }
    {
        Ok(Published {
            entries: List::with_room(alloc, room)?,
            before: List::with_room(alloc, room)?,
            ends: List::filled(alloc, ops, 0)?,
        })
    }

    /// Appends an entry.
    pub(super) fn add(&mut self, entry: Entry)
        requires room { 0 < self.old.entries.room }
        requires op { entry.op < length self.old.ends.items }
        ensures entries { self.new.entries.items ≡ self.old.entries.items ++ entry ∷ [] }
        ensures room { self.old.entries.room ≡ self.new.entries.room + 1 }
        ensures ops { length self.new.ends.items ≡ length self.old.ends.items }
    {
        let op = entry.op as usize;
        self.before.add(*self.ends.get(op));
        self.entries.add(entry);
        self.ends.set(op, self.entries.len() as u32);
    }

    /// Whether the value was shown for the operation.
    pub(super) fn has_shown(&self, op: u32, value: u64) -> bool
        requires { op < length self.now.ends.items }
        ensures { IsTrue result ↔ HasShown self.now.entries.items op value }
    {
        self.has(op, Sought::Value(value))
    }

    /// Whether another value than this one was shown for the operation.
    pub(super) fn has_shown_another(&self, op: u32, value: u64) -> bool
        requires { op < length self.now.ends.items }
        ensures { IsTrue result ↔ HasShownAnother self.now.entries.items op value }
    {
        self.has(op, Sought::ValueBesides(value))
    }

    /// Whether a failure of the operation was shown.
    pub(super) fn has_failed(&self, op: u32) -> bool
        requires { op < length self.now.ends.items }
        ensures { IsTrue result ↔ HasFailed self.now.entries.items op }
    {
        self.has(op, Sought::Failure)
    }

    fn has(&self, op: u32, sought: Sought) -> bool
        requires { op < length self.now.ends.items }
        ensures { IsTrue result ↔ HasSought self.now.entries.items op sought }
    {
        let mut end = *self.ends.get(op as usize);
        while end > 0 {
            let number = end as usize - 1;
            if sought.is(self.entries.get(number)) {
                return true;
            }
            end = *self.before.get(number);
        }
        false
    }
}
