use crate::cause::Cause;
use morph_base::Batch;

/// What [`Lines::next_line`](crate::Lines::next_line) found.
#[derive(Clone, Copy, Debug, PartialEq, Eq, Hash)]
pub enum LineNext {
    /// A line of at most [`LONGEST_LINE`](crate::LONGEST_LINE) bytes.
    Line,
    /// A longer line.
    Long,
    /// The end of the input.
    End,
}

/// What [`BatchReader::next_batch`](crate::BatchReader::next_batch) found.
#[derive(Debug, Drop)]
pub enum Next {
    /// A valid batch, which has an event at least.
    Batch(Batch),
    /// The end of the input, with no event pending.
    End,
    /// The first refused line, by its number from 1, and the first cause that applies to it.
    Refused { line: u64, cause: Cause },
}
