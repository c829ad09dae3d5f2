//! A checker of one run's journal: the list of the steps by which a run got its values, replayed on the machine.
//!
//! [`check`] makes the steps of a journal one after another on a [`CoreState`](interleaving_core::CoreState), which
//! takes a step exactly if it may be made, and compares what they settle with the values of the run. It trusts neither
//! the maker of the journal nor the run. `specs/Answers` says which answer is right, and [`laws`] say what follows: at
//! most one answer is right, and if the machine takes a journal, what it settles is the fold's.
//!
//! A journal is kept as text: [`write_event`] puts an event's line into a buffer, and [`read_journal`] reads a text of
//! such lines, or names the first that is none. What lines say stands in `specs/LineEvents`, what is written in
//! `specs/Lines`, and [`laws`] say that each is the reverse of the other.
//!
//! ```text
//! let journal = read_journal(alloc, b"R 0\nC 0 1\nF 0 0 1 0\nN 0 1\nD 0 c\nT 0 1\n")?;
//! match check(alloc, &plan, 1, journal.as_slice(), &settled)? {
//!     Checked::Yes => ..,                      // the run's values are the fold's
//!     Checked::Broken { at } => ..,            // this step could not be made
//!     Checked::Unsettled { op } => ..,         // the journal ends too early
//!     Checked::Differs { op, journal, run } => ..,
//! }
//! ```
//!
//! It uses `interleaving_core`, which has the machine, `morph_base` with its plans, `event_reader`, which cuts lines
//! into words, `morph_io`, whose buffer a line is put into, and the kit's `memchr` and `thiserror`.
//!
//! # The files
//!
//! | File | What it has |
//! |---|---|
//! | `checker`, `checked` | `check`; `Checked`, its answer |
//! | `replay` | the journal's steps on the machine, and the first operation that is unsettled or differs |
//! | `read`, `fault` | `read_journal`; `JournalFault` |
//! | `words` | what the words of a line say |
//! | `write` | `write_event` |
//! | `laws` | that one answer is right and what follows from it; that journals are what their texts say |
#![tactic(auto)]

mod checked;
mod checker;
mod fault;
pub mod laws;
mod read;
mod replay;
mod words;
mod write;

pub use checked::Checked;
pub use checker::check;
pub use fault::JournalFault;
pub use read::read_journal;
pub use write::write_event;
