//! Tests of the vocabulary, and of the crates that a stream passes through as text: sources and sinks, the reader, the
//! applications and the lines of a journal, over their public calls only.
//!
//! They are in one crate, so that none of the others is proved again with its tests, and so that all of them share what
//! reads the batches of a source, and what says how an application takes a line.
//!
//! # The files
//!
//! | File | What it has |
//! |---|---|
//! | `functions`, `valid_batches`, `folds` | `morph_base`: what functions answer; valid batches; folds of batches |
//! | `lists`, `packed_words` | `morph_base`: lists; words as numbers |
//! | `counter`, `readings` | an application for these tests; all batches that a source gives |
//! | `app_lines` | how an application takes a line, and which lines it writes |
//! | `copies`, `adapters` | `morph_io`: sources, sinks and buffers in memory; those over std |
//! | `lines`, `batches` | `event_reader`: numbers, words, lines, faults and draws; batches and limits |
//! | `ledger`, `grep`, `toll` | the applications; `ledger` also reads whole texts to their end |
//! | `journals` | `run_checker`: lines of journals, and the first wrong one |
#![tactic(auto)]

#[cfg(test)]
mod adapters;
#[cfg(test)]
mod app_lines;
#[cfg(test)]
mod batches;
#[cfg(test)]
mod copies;
#[cfg(test)]
mod counter;
#[cfg(test)]
mod folds;
#[cfg(test)]
mod functions;
#[cfg(test)]
mod grep;
#[cfg(test)]
mod journals;
#[cfg(test)]
mod ledger;
#[cfg(test)]
mod lines;
#[cfg(test)]
mod lists;
#[cfg(test)]
mod packed_words;
#[cfg(test)]
mod readings;
#[cfg(test)]
mod toll;
#[cfg(test)]
mod valid_batches;
