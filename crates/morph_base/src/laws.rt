//! The laws of the vocabulary: what follows from its definitions, as the contracts of functions that do nothing.
//!
//! A crate above cites the lemmas in `proofs/` that prove them. The contracts show what the lemmas say.
pub mod limits;
pub mod order;
pub mod plans;
pub mod settling;
pub mod states;
pub mod values;
