//! Explores a batch on the shared board by deques of items, with no fixed order of the operations.
//!
//! Each worker has a deque, first in first out, and an item is an operation. [`Deques::new`] makes the deques, deals
//! the operations of level 1 to them in turn, and lends each deque to the other workers. [`explore`] has every worker
//! take turns: the worker pops an item from its own deque, or steals one from the others, in rising order from its own,
//! round. It walks the item's unit from the item on, until an answer is not `Evaluated`. After an evaluation it asks
//! each dependent, and whoever made one ready pushes it on its own deque. The caller passes the lists of the plan's
//! dependents. A worker ends after 64 turns in a row that found all deques empty, or after the most turns that it may
//! take.
//!
//! Under eager abort a worker runs the cascade of an operation to its end after each evaluation that failed, or that
//! was a second or later attempt, before it asks the dependents: it spreads the failure, rolls back what read a value
//! that is no longer right, and asks each operation that it rolled back. Whoever makes one ready pushes it, to be
//! evaluated again. If a push is refused, the operation's unit is walked at once. There, and when a deque is emptied in
//! the end, cascades are run to their end too, but nothing is asked or pushed, so that nothing nests. What was rolled
//! back is left to settling.
//!
//! Once all have returned, each worker gets back all parts of its deque, which others held to steal by, and the deque
//! is popped until it is empty. A worker that took all its turns leaves what it had with nobody. A worker that found
//! nothing more would walk it, though in a run there is nothing. So each item that was pushed was taken or is unserved,
//! as [`Handed`] shows.
//!
//! It uses `crossbeam_deque`; `abort_eager` for the cascades; `op_eval` and `op_words`, the board and its runners;
//! `chain_units`; `worker_gate`; and `morph_base`.
//!
//! # The files
//!
//! | File | What it has |
//! |---|---|
//! | `deques`, `deque_rule` | `Deques`; what workers know of a deque: its rule, and what each call on it does |
//! | `deal`, `drain` | deques are made and the operations of level 1 dealt; deques are emptied in the end |
//! | `lend`, `gather` | tickets, by which others steal from a deque: lent, and given back |
//! | `find` | an item is popped or stolen |
//! | `serve`, `walk` | an item's unit is walked, and dependents are asked and pushed; the same without a push |
//! | `cascade` | the cascade of `abort_eager` behind an evaluation, and what it rolls back is asked and pushed |
//! | `member`, `seats` | what a worker has; runners are put beside their deques, and taken back |
//! | `job`, `worker` | all workers side by side, and `pieces`; the turns of one, and `EMPTY_TURNS` |
//! | `exploration` | `explore` and `Handed` |
#![tactic(auto)]

mod cascade;
mod deal;
mod deque_rule;
mod deques;
mod drain;
mod exploration;
mod find;
mod gather;
mod job;
mod lend;
mod member;
mod seats;
mod serve;
mod walk;
mod worker;

pub use deques::Deques;
pub use exploration::{Handed, explore};
pub use job::pieces;
pub use worker::EMPTY_TURNS;
