ghost use Rattle.std.specs.Prelude.{◌≡◌, ◌<◌, ◌↔◌, length, slice_index_or, [], IsTrue};
ghost use Rattle.morph_base.specs.Rows.{AreRows, rows_of, start_of};

use crate::list::List;
use std::alloc::Global;
use std::marker::Model;

/// Rows of numbers, one behind another in a single list.
///
/// Contracts see it as the list of its rows. It takes two pieces of memory however many rows there are, while a list of
/// lists takes one for each.
#[derive(Debug)]
pub struct Rows {
    /// Where each row ends in `items`, and the next one begins.
    ends: List<usize>,
    items: List<u32>,
}

// Not derived: see "What costs" in docs/CONTRIBUTING.md.
impl Drop for Rows {
    fn drop(self) {
        let Rows { ends: _, items: _ } = self;
    }
}

impl Model for Rows {
    ghost use Rattle.std.specs.Prelude.{ℕ, List};
    ghost use Rattle.morph_base.specs.Rows.{AreRows, rows_of};

    ghost Value = { List (List ℕ) };

    ghost view = { λ rows. rows_of rows.ends.items rows.items.items };

    ghost invariant = { λ rows. AreRows rows.ends.items rows.items.items };
}

/// Where row `i` begins.
fn start_of(ends: &List<usize>, i: usize) -> usize
    requires { i < length ends.now.items }
    ensures { result ≡ start_of ends.now.items i }
{
    match i.checked_sub(1) {
        None => 0,
        Some(before) => *ends.get(before),
    }
}

impl Rows {
    /// The rows of these items. Each row ends at its place in `ends`; the first begins at 0, and each other one where
    /// the one before it ends.
    pub fn new(ends: List<usize>, items: List<u32>) -> Self
        requires { AreRows ends.items items.items }
        ensures { result ≡ rows_of ends.items items.items }
    {
        Rows { ends, items }
    }

    /// No rows. They take no memory.
    pub fn none(alloc: Global) -> Self
        ensures { result ≡ [] }
    {
        Rows::new(List::new(alloc), List::new(alloc))
    }

    /// How many rows there are.
    pub fn len(&self) -> usize
        ensures { result ≡ length self.now }
    {
        self.ends.len()
    }

    /// Whether there is no row.
    pub fn is_empty(&self) -> bool
        ensures { IsTrue result ↔ (self.now ≡ []) }
    {
        self.len() == 0
    }

    /// A row, by its number from 0.
    pub fn row(&self, i: usize) -> &[u32]
        requires { i < length self.now }
        ensures { result.now ≡ slice_index_or self.now i [] }
    {
        let start = start_of(&self.ends, i);
        let end = *self.ends.get(i);
        &self.items.as_slice()[start..end]
    }
}
