//! The application GrepSum: cells that are set, and sums of cells that are kept within a limit.
//!
//! [`Grep`] is an [`EventApp`](event_reader::EventApp) of one table. A line `W ts k v` sets cell k to v. A line `G ts k
//! limit k1 [k2 ..]` puts the sum of the cells k1, k2 and so on into cell k if it is at most the limit. It names at
//! most three cells, and in version 2 at most seven; they have to differ. The crate uses `event_reader`, which reads
//! the words and their numbers, and `morph_base`, whose operations an event has.
//!
//! # The files
//!
//! | File | What it has |
//! |---|---|
//! | `grep` | `Grep`: lines are read, and become operations |
//! | `draws` | lines are generated |
#![tactic(auto)]

mod draws;
mod grep;

pub use grep::{CELLS, Grep};
