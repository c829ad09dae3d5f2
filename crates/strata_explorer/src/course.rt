//! What stays the same while a batch is explored.
use chain_units::Units;
use morph_base::{Abort, Plan, Rows};

/// What all passes over the levels of a plan have in common.
#[derive(Drop)]
pub(crate) struct Course<'a, G> {
    pub(crate) plan: &'a Plan,
    pub(crate) units: &'a Units,
    pub(crate) abort: Abort,
    /// Under eager abort they are the plan's. Under lazy abort nobody asks for them.
    pub(crate) dependents: &'a Rows,
    pub(crate) gate: &'a G,
}
