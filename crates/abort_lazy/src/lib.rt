//! Speculation with lazy abort: settles the events of a batch on the board that workers share, after the batch was
//! explored in whatever way, and completes the rest.
//!
//! [`settle_txn`] settles one transaction, by any runner: it takes back what rested on an aborted version and evaluates
//! that again, on settled sources; then it decides the event and settles the event's operations. [`settle_all`] tries
//! each event of a batch once, by several workers, and keeps why an event was left. The workers are started once, and
//! go over all levels of events. Each level is cut into parts, and each worker begins with a part of its own. Workers
//! take the events of a part in bursts, from the part's counter. A worker waits for the sources of an event, but not
//! without end: an event whose sources are not settled by then is left.
//! [`SettledRun::close`] ends the board. Its contract says that each event was tried once, and why some were left
//! ([`laws`] bounds how much that is). [`finish`] completes what was left, on plain data. The result is the fold's,
//! however far workers got.
//!
//! ```text
//! let room = Room::new(alloc, &plan)?;                  // all memory is taken before
//! let run = settle_all(&rt, explored, &plan);
//! let (closed, left) = run.close(alloc, &plan, 0);
//! let settled = finish(&closed, &plan, room);
//! ```
//!
//! It uses `op_eval`, `op_words` and `interleaving_core`, for the board; `worker_gate`; and `morph_base`.
//!
//! # The files
//!
//! | File | What it has |
//! |---|---|
//! | `transaction` | `settle_txn`, `TxnAnswer`, and how a word that stops the call becomes its answer |
//! | `transaction/prepare`, `transaction/decide`, `transaction/settle` | the stages of `settle_txn` |
//! | `transaction/standing` | how an operation is before the decision, and what those of an event say of it together |
//! | `run` | `settle_all` and `SettledRun` |
//! | `run/levels`, `run/level` | all levels of events in one start of the workers; one part of a level, by bursts of numbers |
//! | `plain_finish`, `sources`, `room` | `finish`; the settled values of sources; the memory that it needs |
//! | `laws` | how many evaluations and rollbacks there are at most |
#![tactic(auto)]

pub mod laws;
mod plain_finish;
mod room;
mod run;
mod sources;
mod transaction;

pub use plain_finish::finish;
pub use room::Room;
pub use run::{SettledRun, settle_all};
pub use transaction::{TxnAnswer, settle_txn};
