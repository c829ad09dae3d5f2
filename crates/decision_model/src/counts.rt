/// How the batch before went: the number of its events, and how many of them aborted. Both are 0 if there was none.
#[derive(Clone, Copy, Debug, Default, PartialEq, Eq)]
pub struct Last {
    /// All its events.
    pub events: u64,
    /// Those that aborted.
    pub aborted: u64,
}

/// What a strategy is chosen from.
#[derive(Clone, Copy, Debug, PartialEq, Eq)]
pub struct Profile {
    /// The number of operations.
    pub ops: u64,
    /// The number of levels of operations.
    pub levels: u64,
    /// The number of operations whose target was written by an earlier event.
    pub temporal: u64,
    /// The number of parameters that were written by an earlier event.
    pub parametric: u64,
    /// How the batch before went.
    pub last: Last,
}
