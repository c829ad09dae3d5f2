//! The limits of values, events, batches and words. Each is checked against the definitions, which have numbers of
//! their own: to raise one, raise both.

/// The greatest value that a key can hold, and the greatest constant of an operation: 10^13, that of version 2.
pub const MAX: u64 = 10_000_000_000_000;

/// The greatest value of version 1: 10^12.
pub const FIRST_MAX: u64 = 1_000_000_000_000;

/// The most places that an operation reads: its target and its parameters.
pub const READS: usize = 8;

/// The most parameters of an operation, one less than [`READS`].
pub const PARAMS: usize = 7;

/// The greatest timestamp of an event: 10^12. The least is 1.
pub const LATEST: u64 = 1_000_000_000_000;

/// The most operations of an event.
pub const EVENT_OPS: usize = 16;

/// The most events of a batch.
pub const EVENTS: usize = 65_536;

/// The most workers, which are numbered from 1.
pub const WORKERS: u8 = 16;

/// The number of values that a packed word has room for: 2^44, which is above [`MAX`].
pub(crate) const VALUES: u64 = 17_592_186_044_416;
