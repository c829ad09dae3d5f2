use crate::version::Version;

/// What a reader of batches has read before the next one.
#[derive(Clone, Copy, Debug, PartialEq, Eq)]
pub(crate) struct Past {
    /// The version of the input by its first line, once that was read; 1 before.
    pub(crate) version: Version,
    /// The greatest timestamp of the closed batches.
    pub(crate) closed: u64,
}
