//! Cuts a batch into its transactions: events by rising timestamp, and operations by event and then by operation order.
//!
//! It uses the vocabulary of `morph_base`. A caller gives a valid batch away to [`split`] and gets [`Txns`], in which
//! events and operations have numbers. `precedence_graph` makes a plan of them.
#![tactic(auto)]

mod order;
mod splitter;
mod txn_events;
mod txns;

pub use splitter::split;
pub use txn_events::{TxnEvent, TxnEvents};
pub use txns::Txns;
