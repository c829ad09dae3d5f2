//! Bytes in and bytes out.
//!
//! [`Source`] and [`Sink`] are what the layers above read from and write to. Their contracts speak of the bytes that
//! are left or written, if the object reveals them, and of a count of faults: an error is returned only if that count
//! rose.
//!
//! [`MemSource`], [`RepeatSource`] and [`MemSink`] hold their bytes in memory and reveal all of them; [`StdSource`] and
//! [`StdSink`] use the readers and writers of std, and reveal nothing. A caller builds a line in a [`LineBuf`], puts it
//! into an [`Out`], and flushes that at the end:
//!
//! ```text
//! let mut sink = StdSink::new(rt.stdout());
//! let mut out = Out::new(rt.alloc())?;
//! let mut line = LineBuf::new();
//! line.word(b"committed ");
//! line.number(committed);
//! line.word(b"\n");
//! out.put(&mut sink, &line)?;
//! out.flush(&mut sink)?;
//! ```
//!
//! It uses only `List` and `OutOfMemory` of `morph_base`.
//!
//! # The files
//!
//! | File | What it has |
//! |---|---|
//! | `source`, `sink` | `Source` and `ReadFailed`; `Sink` and `WriteFailed` |
//! | `line_buf`, `output` | `LineBuf`, a line that is being written; `Out` and `write_all` |
//! | `mem_source`, `mem_sink` | `MemSource` and `MemSink`, which hold their bytes and fail at chosen calls |
//! | `repeat_source` | `RepeatSource`, one line again and again |
//! | `std_source`, `std_sink` | `StdSource` and `StdSink`, with their retries and their counts of faults |
//! | `retries` | `MAX_RETRIES`, and whether an interrupted call is tried again, which is counted |
//! | `copy`, `calls` | copies into buffers; counts of calls, and whether a call is a chosen one |
//! | `laws` | that the constants are those of the definitions |
#![tactic(auto)]

mod calls;
mod copy;
pub mod laws;
mod line_buf;
mod mem_sink;
mod mem_source;
mod output;
mod repeat_source;
mod retries;
mod sink;
mod source;
mod std_sink;
mod std_source;

pub use line_buf::{LINE_BYTES, LineBuf};
pub use mem_sink::MemSink;
pub use mem_source::MemSource;
pub use output::{OUT_BYTES, Out, write_all};
pub use repeat_source::RepeatSource;
pub use retries::MAX_RETRIES;
pub use sink::{Sink, WriteFailed};
pub use source::{ReadFailed, Source};
pub use std_sink::StdSink;
pub use std_source::StdSource;
