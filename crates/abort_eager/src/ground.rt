//! What is shared while a batch is explored.
use chain_units::Units;
use morph_base::{Abort, Plan, Rows};
use op_words::Board;

/// What all workers share while they explore a batch.
#[derive(Clone, Copy)]
pub struct Ground<'a> {
    pub board: &'a Board,
    pub plan: &'a Plan,
    pub units: &'a Units,
    pub abort: Abort,
    /// For each operation those that read from it. Under eager abort they are the plan's. Under lazy abort there are no
    /// cascades, and nothing in this crate reads them.
    pub dependents: &'a Rows,
}
