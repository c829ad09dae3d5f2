/// What is scheduled as a whole: one operation, or the chain of a key's operations by rising timestamp.
#[derive(Clone, Copy, Debug, PartialEq, Eq)]
pub enum Unit {
    /// Each operation by itself.
    Op,
    /// All operations on a key, by rising timestamp.
    Chain,
}

/// How the graph is explored: level by level, or by deques from which workers steal.
#[derive(Clone, Copy, Debug, PartialEq, Eq)]
pub enum Explore {
    /// Level by level.
    Strata,
    /// By deques of operations that are ready.
    Steal,
}

/// When the failure of an operation is dealt with: after the exploration, or at once.
#[derive(Clone, Copy, Debug, PartialEq, Eq)]
pub enum Abort {
    /// Events are looked at when they are settled.
    Lazy,
    /// The other operations of its event are told, and what read from them is rolled back, while others still explore.
    Eager,
}

/// How a batch is scheduled. It changes the way to the answer and never the answer.
#[derive(Clone, Copy, Debug, PartialEq, Eq)]
pub struct Strategy {
    /// What a worker takes as a whole.
    pub unit: Unit,
    /// How workers find operations.
    pub explore: Explore,
    /// How workers deal with failures.
    pub abort: Abort,
}
