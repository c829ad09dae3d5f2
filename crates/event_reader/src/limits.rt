//! The limits of an input, each a constant that code and definitions share.

/// The most bytes of a line, its LF and one CR at its end not counted.
pub const LONGEST_LINE: usize = 1_000;

/// How many bytes without an LF show that their line is too long, with or without a CR at its end: two more than
/// [`LONGEST_LINE`].
pub const DECIDING_BYTES: usize = 1_002;

/// The most words of an event line.
pub const LINE_WORDS: usize = 19;

/// The most events of a batch in version 1.
pub const FIRST_EVENTS: usize = 10_240;

/// The most bytes of the printed name of a table.
pub const NAME_BYTES: usize = 16;

/// The greatest number that a word of a line can say: 10^13.
pub const GREATEST_NUMBER: u64 = 10_000_000_000_000;

/// The most bytes of an input: 2^30.
pub const INPUT_BYTES: u64 = 1_073_741_824;

/// The most bytes that a reader keeps between the source and its lines.
pub const BUFFER_BYTES: usize = 4_096;

/// The most events of a generated text: 10^6.
pub const GENERATED_EVENTS: u64 = 1_000_000;

/// The events of a generated text between one punctuation and the next.
pub const GENERATED_BATCH: u64 = 1_000;

/// The most ids of a table for which a text is generated: 10^6.
pub const GENERATED_IDS: u32 = 1_000_000;

/// The most bytes of a generated line, its LF not counted.
pub const GENERATED_BYTES: usize = 300;
