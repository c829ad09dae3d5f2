//! The machine of operation words, over all schedules: what workers may do to the words, records and decisions of a
//! plan, one step at a time. Every order of such steps settles the fold's values.
//!
//! [`CoreState`] runs the machine on plain data, and [`laws`] says what holds after every list of steps. A layer that
//! shares the words between threads shows that each of its atomic steps is a step of this machine. The crate uses
//! `morph_base` alone.
//!
//! # The files
//!
//! | File | What it has |
//! |---|---|
//! | `event` | `CoreEvent`, a step of the machine; `Step`, whether it was made |
//! | `entry`, `claim` | `Record`, `Held`, `Entry` and `Settling`; what a worker holds, as `CoreState` keeps it |
//! | `state` | `CoreState`: `new`, `step`, `word`, `decision` |
//! | `state/guards`, `state/reads` | whether a step may be made; what guards need to know of a state and its plan |
//! | `state/steps`, `state/effects` | how a step of each kind is made; the single changes that it consists of |
//! | `state/answers` | whether an operation answers or fails on settled sources, and an event's operations all do |
//! | `state/published` | `Published`: the versions that were shown, linked by operation |
//! | `laws` | what holds after each step, and after every list of steps |
#![tactic(auto)]

mod claim;
mod entry;
mod event;
pub mod laws;
mod state;

pub use entry::{Entry, Held, Record, Settling};
pub use event::{CoreEvent, Step};
pub use state::CoreState;
