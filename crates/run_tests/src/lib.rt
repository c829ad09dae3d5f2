//! Tests of whole runs: of `morph_cli`, from the words and the input to the text, the notes and the status, and of
//! `batch_pipe`, which reads and plans beside them; over their public calls only.
//!
//! They are in a crate of their own, so that neither of the two is proved again with its tests.
#![tactic(auto)]

#[cfg(test)]
mod pipes;
#[cfg(test)]
mod runs;
