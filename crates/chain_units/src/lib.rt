//! The units of scheduling: what a worker takes as a whole.
//!
//! [`units`] cuts the operations of a plan into [`Units`]: each operation alone, or for each key the chain of the
//! operations that change it, by rising number. Each operation is in exactly one unit, as [`laws`] shows. A caller asks
//! for the operations of a unit, and for the unit of an operation and its place there:
//!
//! ```text
//! let units = units(alloc, &plan, Unit::Chain)?;
//! let rest = &units.ops(units.unit_of(op))[units.place_of(op) as usize..];
//! ```
//!
//! The crate uses `morph_base`, whose plans it cuts.
//!
//! # The files
//!
//! | File | What it has |
//! |---|---|
//! | `by_unit`, `unit_lists` | `units`; `Units` |
//! | `cut`, `alone`, `chained` | which form units have: each operation alone, or units of any length |
//! | `chains`, `places` | the chain of each key; the unit of each operation, and its place there |
//! | `laws` | that each operation is in one unit, and which keys have chains |
#![tactic(auto)]

mod alone;
mod by_unit;
mod chained;
mod chains;
mod cut;
pub mod laws;
mod places;
mod unit_lists;

pub use by_unit::units;
pub use unit_lists::Units;
