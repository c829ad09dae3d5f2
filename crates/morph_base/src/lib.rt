//! The vocabulary of `morph`: values, keys, operations, events, batches and plans, and what they mean.
//!
//! A [`Key`] names a place where a value from 0 to [`MAX`] is kept. An [`Op`] changes one key, by a [`Func`] of the
//! values before its [`Event`]. The operations of an event are done together or not at all. A [`Batch`] has the events
//! between two punctuations, in order of arrival. Its meaning is its fold: its events one at a time by rising
//! timestamp.
//!
//! The definitions stand in `specs/`, and docs/DEFINITIONS.md has them in plain words; [`laws`] shows what follows from
//! them. [`eval`] is the function table, and [`plain::fold`] the fold of a batch on [`Values`]. The crates above plan a
//! batch as a [`Plan`], run it by a [`Strategy`], and return the result as a [`Settled`], which is that of the fold.
//!
//! A caller builds events from operations, and folds them:
//!
//! ```text
//! let account = Key { table: 0, id: 7 };
//! let mut batch = Batch::new(alloc);
//! batch.push(1, &[Op::new(Func::Add, account, &[], 100)])?;
//! let mut values = Values::new(alloc, Layout { tables: 1, size: 10 })?;
//! let outcomes = plain::fold(alloc, &mut values, &batch)?;
//! ```
//!
//! [`Op`], [`Event`] and [`Batch`] say when they are valid. Calls ask for valid ones, with their keys in the layout of
//! the values. This crate uses std alone.
//!
//! # The files
//!
//! | File | What it has |
//! |---|---|
//! | `key`, `limits` | `Key` and `Layout`; the greatest numbers, such as `MAX` |
//! | `operation`, `evaluation` | `Func` and `Op`; `eval` and `evaluate` |
//! | `op_rows`, `op_span` | `OpRows`: operations in rows that take as much memory as they need; `OpSpan`, those of one event |
//! | `event`, `event_ops` | `Event`, which borrows its operations; `EventOps`, which an application fills |
//! | `batch`, `validity` | `Batch` and `BatchRoom`; whether a batch that was put together by hand is valid |
//! | `values` | `Values`: a value for each key |
//! | `plain`, `outcome` | `fold`, the events one at a time; the `Outcome` of an event |
//! | `plan`, `plan_ops` | `Plan`, `PlanEvent`, `PlanOp`, `Origin`, `Edges` and `Settled`; the operations of a plan |
//! | `rows` | `Rows`: lists of numbers in one list |
//! | `word` | `OpState`, `OpWord`, and a word as one number |
//! | `strategy` | `Strategy`: `Unit`, `Explore` and `Abort` |
//! | `list`, `memory` | `List`, whose contracts see its spare room; `OutOfMemory` |
//! | `laws` | what follows from the definitions, in a file for each subject |
#![tactic(auto)]

mod batch;
mod evaluation;
mod event;
mod event_ops;
mod key;
pub mod laws;
mod limits;
mod list;
mod memory;
mod op_rows;
mod op_span;
mod operation;
mod outcome;
pub mod plain;
mod plan;
mod plan_ops;
mod rows;
mod strategy;
mod validity;
mod values;
mod word;

pub use batch::{Batch, BatchRoom};
pub use evaluation::{eval, evaluate};
pub use event::Event;
pub use event_ops::EventOps;
pub use key::{Key, Layout};
pub use limits::{EVENT_OPS, EVENTS, FIRST_MAX, LATEST, MAX, PARAMS, READS, WORKERS};
pub use list::List;
pub use memory::OutOfMemory;
pub use op_rows::OpRows;
pub use op_span::OpSpan;
pub use operation::{Func, Op};
pub use outcome::Outcome;
pub use plan::{Edges, Origin, Plan, PlanEvent, PlanOp, Settled};
pub use plan_ops::PlanOps;
pub use rows::Rows;
pub use strategy::{Abort, Explore, Strategy, Unit};
pub use values::Values;
pub use word::{ATTEMPTS, OpState, OpWord};
