//! Workers side by side: a job that is done by each of several workers, in as many threads as it is worth, and gates
//! that hold workers.
//!
//! It uses std alone. A caller states as a [`Job`] what a worker has to be and what becomes of it, by its number, and
//! calls [`run_all`]. Then each worker is what the job makes of it, as if one thread had done the job for all. By
//! [`run_few_or_all`] a job of few items is left to the first worker. A thread is started only for as much work as
//! [is worth it](threads_for). A [`Gate`] may hold a worker for a while at each turn of its work. A run takes a gate,
//! and must have the same result whatever gate it is.
//!
//! A job may have several stages, each with items of its own, which workers share by counters. [`is_shared`] says
//! whether a stage is worth sharing, and [`burst_for`] how many numbers a worker takes at a time. [`Shares`] cuts the
//! items of a stage into parts, each with a counter of its own, so that workers of different threads begin at different
//! places. What each worker was between two stages is known although none waits for another there
//! (`proofs/Stages.antt`).
#![tactic(auto)]

mod gate;
mod hold_gate;
mod job;
pub mod laws;
mod meet_gate;
mod parts;
#[cfg(test)]
mod tests;
mod turns;

pub use gate::{FreeGate, Gate};
pub use hold_gate::HoldGate;
pub use job::{
    Job, burst_for, is_shared, pieces_for, run_all, run_few_or_all, shareable, takes_part,
    threads_for,
};
pub use meet_gate::MeetGate;
pub use parts::{Shares, part_of, parts_for};
pub use turns::{Told, Turns, Untold};
