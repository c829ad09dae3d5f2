//! The run of the program `morph` from its words to its status: events as lines from a source, each applied as one
//! transaction, and the text of the results to a sink.
//!
//! [`morph()`] does all that the program does, over a source, a sink and notes of any kind, and [`program()`] gives it
//! the words of the program's arguments. [`run_application`] does the same for an application of the caller's own. They
//! use `run_text`, which reads the words and writes the lines, the applications, such as `ledger_app`, `event_reader`,
//! which cuts the input into batches, `decision_model`, which chooses the strategy of a batch if that is asked for,
//! `morph_engine`, which runs them, `batch_pipe`, which reads and plans ahead, `snapshot_reader` and `run_checker`, by
//! which a run is watched and checked, and `morph_io`, which reads and writes.
//!
//! # The files
//!
//! Read `top_call` first, which has the contract of the whole call, and then `run`. From the top down:
//!
//! | Call | What it knows or chooses, and which call it makes next |
//! |---|---|
//! | `morph` | the settings, from the words: `run_app`, and then `end_run` |
//! | `run_app` | the application: `run_over` |
//! | `run_over` | the input, which is the source's or made by the program: `run`, or `run_made` and that `run` |
//! | `run` | whether batches are read ahead: `run_ahead`, whose pipe runs them, or else `run_batches` |
//! | `run_batches` | what the reader gives: `take_batch` for each batch |
//! | `take_batch` | a batch: `run_watched`, and then `tell_and_publish` |
//! | `run_watched` | whether a viewer looks beside it: `run_batch` |
//! | `run_batch` | the strategy, and whether a journal is kept: the engine, or `run_checked` and that the engine |
//!
//! `run_application` begins with `run`, and `program` calls `morph`.
//!
//! | File | What it has |
//! |---|---|
//! | `top_call`, `application` | `morph`; `run_application` |
//! | `arguments` | `program` and `words_of` |
//! | `ended` | `Ended`, the statuses and the last lines of the notes; how a call ends |
//! | `job`, `fault` | what a run is to do, and with what; what cuts it off |
//! | `run`, `progress` | a run, batch by batch; how far it has got |
//! | `take_batch`, `run_batch` | a batch run, written and published; its plan made and run |
//! | `strategies`, `tell` | the strategy of a batch, and how it is counted; what is written of it, and at the end |
//! | `watch`, `checked` | balances that are watched; journals that are checked |
//! | `ahead`, `batch_teller` | runs that read and plan batches ahead; how each result is written meanwhile |
//! | `laws` | which lines the notes have if nothing is watched or checked |
#![tactic(auto)]

mod ahead;
mod application;
mod arguments;
mod batch_teller;
mod checked;
mod ended;
mod fault;
mod job;
mod laws;
mod progress;
mod run;
mod run_batch;
mod strategies;
mod take_batch;
mod tell;
mod top_call;
mod watch;

pub use application::run_application;
pub use arguments::{program, words_of};
pub use ended::Ended;
pub use run_text::{
    App, Check, Generated, Planning, Settings, Tally, event_line, own_settings, settings,
};
pub use top_call::morph;
