use crate::list::List;

/// What became of an event: whether it committed, and the values of its targets after it, in operation order.
///
/// An event that aborted left its targets as they were.
#[derive(Debug, Drop)]
pub struct Outcome {
    /// Its timestamp.
    pub ts: u64,
    /// Whether it was done. If not, it changed nothing.
    pub committed: bool,
    /// One for each of its operations.
    pub values: List<u64>,
}
