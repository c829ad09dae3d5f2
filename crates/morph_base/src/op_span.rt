ghost use Rattle.std.specs.Prelude.{◌≡◌, ◌<◌, ◌↔◌, [], length, slice_index_or, IfOk, IsTrue};
ghost use Rattle.morph_base.specs.Operations.{no_op};

use crate::list::List;
use crate::memory::OutOfMemory;
use crate::op_rows::OpRows;
use crate::operation::Op;
use std::alloc::Global;
use std::marker::Model;

/// The operations of one event of a batch, in operation order, which contracts see as a list.
#[derive(Debug, Drop)]
pub struct OpSpan<'a> {
    /// The operations of the batch.
    pub(crate) rows: &'a OpRows,
    /// The place of the first one among them.
    pub(crate) first: usize,
    pub(crate) count: usize,
}

impl<'a> Model for OpSpan<'a> {
    ghost use Rattle.std.specs.Prelude.{◌+◌, ◌≤◌, ◌<◌, List, length, take, drop};
    ghost use Rattle.morph_base.specs.declared.operation.Op.{Op};

    ghost Value = { List Op };

    ghost view = { λ span. take span.count (drop span.first span.rows.now) };

    ghost invariant = { λ span. (span.first + span.count ≤ length span.rows.now)
        × (span.first + span.count < 18446744073709551616) };
}

impl<'a> OpSpan<'a> {
    /// How many operations there are.
    pub fn len(&self) -> usize
        ensures { result ≡ length self.now }
    {
        self.count
    }

    /// Whether there is none.
    pub fn is_empty(&self) -> bool
        ensures { IsTrue result ↔ (self.now ≡ []) }
    {
        self.count == 0
    }

    /// Operation `i`, counted from 0.
    pub fn get(&self, i: usize) -> Op
        requires { i < length self.now }
        ensures { result ≡ slice_index_or self.now i no_op }
    {
        self.rows.get(self.first + i)
    }

    /// The operations in a list of their own.
    pub fn to_list(&self, alloc: Global) -> Result<List<Op>, OutOfMemory>
        ensures { IfOk result (λ list. list.items ≡ self.now) }
    {
        let mut list = List::with_room(alloc, self.count)?;
        for i in 0..self.count {
            list.add(self.get(i));
        }
        Ok(list)
    }
}
