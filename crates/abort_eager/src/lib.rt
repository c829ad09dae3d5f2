//! Speculation with eager abort: what an evaluation that failed, or that was a second or later attempt, does to other
//! operations at once, on the board that workers share.
//!
//! A [`Cascade`] spreads a failure to the other operations of its event, and rolls back what read a value that is no
//! longer right, one target at a time. It is a position among its targets, and keeps no list of them. What read from an
//! operation it takes from the plan's dependents, which the caller passes.
//!
//! ```text
//! let mut cascade = Cascade::start(&plan, op, failed);
//! while let Some(touched) = cascade.next(&board, &mut hand, &plan, &dependents) {
//!     // Touch::RolledBack: its level has to be passed again
//! }
//! ```
//!
//! [`laws`] says what a whole cascade makes of a hand's view.
//!
//! Explorers share the rest: their [`Ground`], the walk through a unit ([`walk_unit`]), an [`attempt`] at an operation,
//! and the [`AttemptWithCascade`] with the cascade that follows, in which they take [`Notes`] of what was touched.
//!
//! The crate uses `op_eval`, `op_words` and `interleaving_core`, for the board and its runners; `chain_units`;
//! `worker_gate`; and `morph_base`.
//!
//! # The files
//!
//! | File | What it has |
//! |---|---|
//! | `ground` | `Ground`, what workers share while they explore |
//! | `walk` | `walk_unit`, and `Walking`: what a worker does with each operation |
//! | `attempts` | `attempt`; `AttemptWithCascade`, which also runs the cascade to its end; `Notes` |
//! | `behind` | whether a cascade follows an evaluation |
//! | `cascade`, `search` | `Cascade`, a position among the targets; how the next one is found |
//! | `answers` | `Target`, `Touch`, `Touched` |
//! | `laws` | what a whole cascade makes of a view |
#![tactic(auto)]

mod answers;
mod attempts;
mod behind;
mod cascade;
mod ground;
pub mod laws;
mod search;
mod walk;

pub use answers::{Target, Touch, Touched};
pub use attempts::{AttemptWithCascade, Notes, attempt};
pub use behind::cascade_behind;
pub use cascade::Cascade;
pub use ground::Ground;
pub use walk::{Walking, walk_unit};
