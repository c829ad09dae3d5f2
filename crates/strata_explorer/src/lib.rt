//! Explores a batch on the shared board level by level.
//!
//! [`explore`] goes over the levels of a plan, from the lowest on. The places of a level are its operations, in the
//! plan's order. Workers take them from counters, so each place goes to one of them, and take several numbers at a time,
//! so that neighbours go to one worker. At a place a worker walks the unit of that operation, from it on: it evaluates
//! one operation after the other, until an answer is not `Evaluated`. A level with [few](worker_gate::is_shared)
//! operations is left to the first worker alone.
//!
//! Under lazy abort nothing is rolled back on the way: failures are left to settling, and each worker goes over all
//! levels once. Workers are started once for all levels. A level is cut into [parts](worker_gate::Shares), each with a
//! counter of its own, and a worker begins with a part of its own. No worker waits for the end of a level: before a
//! place it waits until the sources of its operation have values, and its patience for all levels together is bounded.
//! A place that it does not get to in this time stays blocked, and settling evaluates it.
//!
//! Under eager abort workers are started for each pass. A worker runs the cascade of an operation after each evaluation
//! that failed, or that was a second or later attempt, and lowers the level word to the level of each operation that it
//! rolled back. If operations were rolled back in a pass, exploring goes back to the lowest of these levels if it is
//! below the next one. It ends after a pass over the last level from which it did not go back, or once the passes that
//! [`counters`] gives a plan are used up. Cascades ask for the plan's dependents, which the caller passes. Under lazy
//! abort there are no cascades, and any rows will do.
//!
//! | File | What is in it |
//! |---|---|
//! | `exploration` | [`explore`] and [`counters`] |
//! | `levels` | all levels, over which each worker goes by itself, under lazy abort |
//! | `look_ahead` | what a worker who is alone loads before a level |
//! | `passes` | passes one after another, under eager abort |
//! | `pass` | one of them, by all workers or the first alone |
//! | `walk` | how a worker takes the places of a pass, and walks their units |
//! | `level_notes` | what a worker notes of the targets of its cascades |
//! | `course` | what stays the same while a batch is explored |
//! | `laws` | what the runners did in total |
//!
//! ```text
//! let units = units(alloc, &plan, Unit::Op)?;
//! let (board, root) = Board::new(alloc, &plan, 1, counters(&plan))?;
//! let runners = Runners::new(alloc, &board, root, 4, plan.events.len() as u32)?;
//! let explored = explore(&rt, board, runners, &plan, &units, Abort::Lazy, &dependents, &FreeGate);
//! ```
//!
//! It uses `op_eval` and `op_words`, the board and its runners; `abort_eager`; `chain_units`; `worker_gate`; and
//! `morph_base`.
#![tactic(auto)]

mod course;
mod exploration;
pub mod laws;
mod level_notes;
mod levels;
mod look_ahead;
mod pass;
mod passes;
mod walk;

pub use exploration::{counters, explore};
