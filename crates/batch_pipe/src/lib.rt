//! Planning ahead: the next batches are read and planned while one is run.
//!
//! It uses `event_reader`, which reads batches, `morph_engine`, which plans and runs them, `decision_model`, which
//! chooses their strategies, and a ring of the crate `rtrb`, over which the plans go. A caller makes a [`Pipe`] of a
//! reader and an engine. While it is [`Pipe::going`] a [`Pipe::round`] reads, plans and runs, and hands the result of
//! each batch that was run to a [`Teller`] of the caller's, in the order of the input, while the next batch is read and
//! planned. At the end, [`Pipe::tail`] says why no further batch comes.
//!
//! The batches, their order, their plans but for the bases, and their results do not depend on how far the planner got
//! while another batch was run. [`laws`] says what whole runs do, round after round.
//!
//! # The files
//!
//! | File | What it has |
//! |---|---|
//! | `pipe`, `tail` | `Pipe`; `Tail` |
//! | `items` | `Sent`, `Ran`, and `Picker`, which picks strategies |
//! | `teller` | `Teller`, which takes the results |
//! | `planner`, `runner` | the side that reads and plans; the side that runs |
//! | `halves`, `meeting` | both sides of a round, side by side or one after the other; how they wait for each other |
//! | `laws` | what the rounds of a whole run do together |
#![tactic(auto)]

mod halves;
mod items;
pub mod laws;
mod meeting;
mod pipe;
mod planner;
mod runner;
mod tail;
mod teller;

pub use items::{Picker, Ran, Sent};
pub use pipe::Pipe;
pub use tail::Tail;
pub use teller::Teller;
