//! Makes the plan of a split batch: where each operation reads from, levels, level lists and counts.
//!
//! It uses the vocabulary of `morph_base` and the numbered transactions of `txn_splitter`. A caller gives the
//! [`Txns`](txn_splitter::Txns) of a batch to [`build`] and gets a valid plan whose bases are 0, for a state to fill
//! in. A caller that needs to know what reads from each operation asks [`dependents`] for the lists.
//!
//! # The files
//!
//! | File | What it has |
//! |---|---|
//! | `builder` | `build`, which makes the parts of a plan in turn |
//! | `planned`, `transactions` | operations and events with their sources and levels; an event of the split batch |
//! | `writers`, `sources` | the last operation that changes each key; what an operation reads from |
//! | `edges` | how many dependencies there are |
//! | `readers`, `links` | `dependents`: which operations read from each one; items put in groups |
//! | `level_lists` | the operations and the events of each level |
#![tactic(auto)]

mod builder;
mod edges;
mod level_lists;
mod links;
mod planned;
mod readers;
mod sources;
mod transactions;
mod writers;

pub use builder::build;
pub use readers::dependents;
