//! Lines, events and batches: from the bytes of a source to the batches of an application.
//!
//! An [`EventApp`] is an application: its tables, and what the words of its event lines say. A [`BatchReader`] cuts the
//! bytes of a source into [`Lines`] and a line into [`Words`], and asks the application what these say. It returns the
//! events between two punctuations as a batch, or the first line that is refused, with its [`Cause`]. The result does
//! not depend on the pieces in which the source gives its bytes. The first line shows the [`Version`] of an input,
//! which is 2 if the line is `morph 2`. A caller asks until the answer is no batch:
//!
//! ```text
//! let mut reader = BatchReader::new(alloc, Ledger, 10_000, INPUT_BYTES)?;
//! let end = loop {
//!     match reader.next_batch(alloc, &mut source)? {
//!         Next::Batch(batch) => run(batch)?,
//!         end => break end,
//!     }
//! };
//! ```
//!
//! An application has a [`Form`] for each kind of line, and reads its numbers by [`Words::read`], each within a
//! [`Range`]. One that is [`MakesInput`] also writes lines of its own for runs of any size: a [`GenSource`] is a source
//! of its generated text, and [`laws`] say that no line of it is refused. [`Draws`] are the random numbers of that
//! text, and [`write_line`] puts a line of a letter and numbers into a buffer.
//!
//! The definitions stand in `specs/`: `Accepted` has the batches of an input, `Steps` what a line does. The crate uses
//! `morph_io`, whose sources give the bytes, `morph_base`, whose events and batches are made, and the kit's `memchr`
//! and `thiserror`.
//!
//! # The files
//!
//! Read `app` and `batches` first: what an application gives, and what a reader makes of it.
//!
//! | File | What it has |
//! |---|---|
//! | `app`, `version` | `EventApp`; `Version`, with its greatest value and its most events |
//! | `batches` | `BatchReader` |
//! | `answers`, `cause`, `fault` | `LineNext` and `Next`; `Cause` and `LineFault`; `ReaderFault` |
//! | `pending`, `times`, `past` | the unfinished batch; its timestamps; what was read before it |
//! | `lines`, `decision` | `Lines`; what the bytes that it keeps decide of the next line |
//! | `words`, `number` | `Words`, a line cut at its spaces; `Number` and `read_number` |
//! | `form`, `ranges` | `Form`, a letter and the places of its numbers; `Range`, which numbers a place may have |
//! | `numbers` | `NumberPlaces` for a line's numbers; `Words::read`, which reads a line of a form, and its `Numbers` |
//! | `keys` | `key_of`, `keys_of`, `has_key`, `are_distinct`: the keys of ids |
//! | `makes_input`, `gen_source` | `MakesInput`; `GenSource`, a source of the text that is made |
//! | `draws`, `plain` | `Draws`, the random numbers; `write_line` |
//! | `limits`, `laws` | the constants, such as `LONGEST_LINE`; what follows from the definitions |
#![tactic(auto)]

mod answers;
mod app;
mod batches;
mod cause;
mod decision;
mod draws;
mod fault;
mod form;
mod gen_source;
mod keys;
pub mod laws;
mod limits;
mod lines;
mod makes_input;
mod number;
mod numbers;
mod past;
mod pending;
mod plain;
mod ranges;
mod times;
mod version;
mod words;

pub use answers::{LineNext, Next};
pub use app::EventApp;
pub use batches::BatchReader;
pub use cause::{Cause, LineFault};
pub use draws::Draws;
pub use fault::ReaderFault;
pub use form::Form;
pub use gen_source::GenSource;
pub use keys::{are_distinct, has_key, key_of, keys_of};
pub use limits::{
    BUFFER_BYTES, DECIDING_BYTES, GENERATED_BATCH, GENERATED_BYTES, GENERATED_EVENTS,
    GENERATED_IDS, GREATEST_NUMBER, INPUT_BYTES, LINE_WORDS, LONGEST_LINE, NAME_BYTES,
};
pub use lines::Lines;
pub use makes_input::MakesInput;
pub use number::{Number, read_number};
pub use numbers::{NumberPlaces, Numbers};
pub use plain::write_line;
pub use ranges::{NOTHING, Range, TIMES};
pub use version::Version;
pub use words::Words;
