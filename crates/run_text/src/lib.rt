//! What the words of the program ask for, and what a run writes: the lines of events, of values and of counts, the
//! notes, and the tally in them.
//!
//! It uses `event_reader` for numbers and names of tables, `morph_engine` for the batches that were run, `op_eval` for
//! what they left, `version_table` for their values, `run_checker` for the lines of journals and `morph_io` for what is
//! written. [`settings()`] reads the words, and [`own_settings`] those of a program of one application. The writing
//! functions take a sink that bytes go to, and their contracts say which bytes these are.
//!
//! # The files
//!
//! Read `choices` first: what a run can be asked for.
//!
//! | File | What it has |
//! |---|---|
//! | `choices`, `report` | `Settings`, `App`, `Planning`, `Check`, `Generated`; `Report` |
//! | `words`, `names` | words and their names, of which each is given once |
//! | `values` | what a value under a name means, by tables, or the default |
//! | `read_settings` | `settings` and `own_settings` |
//! | `output` | `write_events`, `write_closing`, `write_refused` |
//! | `lines` | the lines of the events of a batch, which two threads put together if there are many |
//! | `text`, `tables` | `event_line`, the line of an event; the lines of the values of tables, or of their sums |
//! | `tally` | `Tally` |
//! | `notes`, `checks` | `note_batch`, `note_audit`, `note_tally`; `note_check` and `is_cut`, for journals |
//! | `laws` | that settings are what the words say |
#![tactic(auto)]

mod checks;
mod choices;
pub mod laws;
mod lines;
mod names;
mod notes;
mod output;
mod read_settings;
mod report;
mod tables;
mod tally;
mod text;
mod values;
mod words;

pub use checks::{is_cut, note_check};
pub use choices::{App, Check, GREATEST_SIZE, Generated, Planning, Settings};
pub use notes::{note_audit, note_batch, note_tally};
pub use output::{write_closing, write_events, write_refused};
pub use read_settings::{own_settings, settings};
pub use report::Report;
pub use tally::Tally;
pub use text::event_line;
