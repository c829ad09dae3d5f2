/// A step of the machine. Operations and events are those of the plan, by number. `by` is a worker from 1 to 16.
#[derive(Clone, Copy, Debug, PartialEq, Eq)]
pub enum CoreEvent {
    /// A blocked operation becomes ready.
    Ready { op: u32 },
    /// A worker that holds nothing claims a ready operation.
    Claim { op: u32, by: u8 },
    /// The worker that holds the operation records a version of the source at its next place `j`.
    Fetch { op: u32, j: u8, by: u8, value: u64 },
    /// The worker shows the operation's answer on all that it fetched, and lets the operation go.
    Finish { op: u32, by: u8 },
    /// The worker lets the operation go, and it is blocked again.
    GiveBack { op: u32, by: u8 },
    /// An executed operation takes its target's value, because another operation of its event failed.
    Spread { op: u32, sibling: u32 },
    /// An evaluated operation is blocked again, at its next attempt.
    RollBack { op: u32, j: u8 },
    /// An event is decided: whether it commits.
    Decide { event: u32, committed: bool },
    /// A worker settles an operation of a decided event.
    Settle { op: u32, by: u8 },
}

/// Whether a step was made.
#[derive(Clone, Copy, Debug, PartialEq, Eq)]
pub enum Step {
    /// It was made.
    Taken,
    /// It may not be made, and nothing changed.
    Refused,
}
