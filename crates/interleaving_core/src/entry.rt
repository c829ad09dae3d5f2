use std::collections::LinkedList;

/// What was read at a place of an operation, and at which attempt of the operation.
#[derive(Clone, Copy, Debug, PartialEq, Eq)]
pub struct Record {
    /// The version of the source that was read.
    pub value: u64,
    /// The attempt of the operation that read it.
    pub attempt: u8,
}

/// A claim as contracts see it: the operation that a worker holds, the attempt, and the values that it has fetched so
/// far, place by place.
///
/// No value of this type is made: it is here so that what contracts see of a worker can hold it.
#[derive(Drop)]
pub struct Held {
    /// The operation, by its number in the plan.
    pub op: u32,
    /// The attempt at which it was claimed.
    pub attempt: u8,
    /// The values from place 0 on.
    pub values: LinkedList<u64>,
}

/// A value that an operation showed at an attempt, where others could read it.
#[derive(Clone, Copy, Debug, PartialEq, Eq)]
pub struct Entry {
    /// The operation, by its number in the plan.
    pub op: u32,
    /// The attempt. Each attempt shows at most one value.
    pub attempt: u8,
    /// The value of its function, or if that failed, the value that was read for its target.
    pub value: u64,
    /// Whether its function failed on what was read.
    pub failed: bool,
}

/// A note that a worker settled an operation.
#[derive(Clone, Copy, Debug, PartialEq, Eq)]
pub struct Settling {
    /// The operation, by its number in the plan.
    pub op: u32,
    /// The worker, from 1 to [`WORKERS`](morph_base::WORKERS).
    pub by: u8,
}
