//! Evaluates operations on the shared board, by runners: a worker's hand, its answers, and what it left.
//!
//! [`evaluate`] takes a runner through one operation: it makes the operation ready if it is blocked, claims it, fetches
//! its places in order, and finishes it. If a source stops this, the operation is given back. A blocked operation
//! before its last attempt takes one call of the board, [`attempt`](op_words::Board::attempt). The answer names the
//! cause, with the word that shows it, and the runner counts it. [`redo`] does the same for an operation that the hand
//! judged stale: it is taken back and evaluated again, on settled sources. [`Runners`] are the runners of a board: one
//! for the root, and one for each hand that is split off for a worker.
//!
//! ```text
//! let (board, root) = Board::new(alloc, &plan, 1, 0)?;
//! let mut runners = Runners::new(alloc, &board, root, 4, plan.events.len() as u32)?;
//! let answer = evaluate(&board, runners.runner(1), &plan, 0);
//! let (root, left) = runners.gather(&board);
//! ```
//!
//! It uses `op_words`, the board; `interleaving_core`, whose words its contracts cite; and `morph_base`.
//!
//! # The files
//!
//! | File | What it has |
//! |---|---|
//! | `evaluation` | `evaluate`: an operation is made ready, claimed, fetched and finished |
//! | `stale` | `redo`: a stale operation is taken back and evaluated again |
//! | `answers` | `Evaluation`, `Answers`, and `Left`, why an event was left |
//! | `patience` | `Patience`, which bounds how long a worker waits for the sources of an operation |
//! | `runner`, `runners` | `Runner`; `Runners`, with a hand of the board each |
//! | `burst` | `Burst`, numbers of a counter that a runner takes before it tries the first of their places |
//! | `explored` | `Explored`, what exploring hands to settling, and `RunEnd` |
#![tactic(auto)]

mod answers;
mod burst;
mod evaluation;
mod explored;
mod patience;
mod runner;
mod runners;
mod stale;

pub use answers::{Answers, Evaluation, Left};
pub use burst::{BURST, Burst};
pub use evaluation::evaluate;
pub use explored::{Explored, RunEnd};
pub use patience::Patience;
pub use runner::Runner;
pub use runners::Runners;
pub use stale::redo;
