ghost use Rattle.std.specs.Prelude.{◌≡◌, ◌<◌, ◌≤◌, length, slice_index};
ghost use Rattle.morph_base.specs.Clean.{from};
ghost use Rattle.morph_base.specs.Known.{IsKnown};
ghost use Rattle.morph_base.specs.Operations.{IsShaped, reads};
ghost use Rattle.morph_base.specs.Words.{value_of_word};

use crate::limits::READS;
use crate::list::List;
use crate::operation::Op;
use crate::plan_ops::PlanOps;
use crate::word::OpWord;

/// Where a place of an operation gets its value from.
#[derive(Clone, Copy, Debug, PartialEq, Eq)]
pub enum Origin {
    /// The value of the key before the batch.
    Base(u64),
    /// The value that the operation of this number leaves.
    Op(u32),
}

impl Origin {
    /// The value of the source, if `values` has those of operations. A base has its own value.
    pub fn value_in(self, values: &List<u64>) -> u64
        requires { IsKnown (λ t. t < length values.now.items) self }
        ensures { result ≡ from (slice_index values.now.items) self }
    {
        match self {
            Origin::Base(value) => value,
            Origin::Op(source) => *values.get(source as usize),
        }
    }

    /// The value of the source, if `words` has the words of operations.
    pub fn word_value_in(self, words: &List<OpWord>) -> u64
        requires { IsKnown (λ t. t < length words.now.items) self }
        ensures { result ≡ from (value_of_word words.now.items) self }
    {
        match self {
            Origin::Base(value) => value,
            Origin::Op(source) => words.get(source as usize).value,
        }
    }
}

/// An operation of a plan. Place 0 reads its target, the places from 1 on its parameters.
#[derive(Clone, Copy, Debug, PartialEq, Eq)]
pub struct PlanOp {
    /// What it does.
    pub op: Op,
    /// The number of its event in the plan.
    pub event: u32,
    /// The source of each place that it reads; the others hold `Base(0)`.
    pub origins: [Origin; READS],
    /// One more than the greatest level of the operations that it reads from; 1 if there are none.
    pub level: u32,
}

impl PlanOp {
    /// How many places it reads: its target's, and those of its parameters.
    pub fn places(&self) -> usize
        requires { IsShaped self.now.op }
        ensures places { result ≡ length (reads self.now.op) }
        ensures some { 0 < result }
        ensures few { result ≤ READS }
    {
        usize::from(self.op.n_params) + 1
    }
}

/// An event of a plan: its operations are those numbered from `first` on, `count` of them.
#[derive(Clone, Copy, Debug, PartialEq, Eq)]
pub struct PlanEvent {
    /// From 1 to [`LATEST`](crate::LATEST), rising from event to event.
    pub ts: u64,
    /// The number of its first operation.
    pub first: u32,
    /// How many operations it has: 1 to [`EVENT_OPS`](crate::EVENT_OPS).
    pub count: u32,
    /// One more than the greatest level of the events that its operations read from; 1 if there are none.
    pub level: u32,
}

/// How many dependencies a plan has, by kind.
#[derive(Clone, Copy, Debug, PartialEq, Eq)]
pub struct Edges {
    /// Operations whose target was written by an earlier event.
    pub temporal: u64,
    /// Parameters that were written by an earlier event.
    pub parametric: u64,
    /// Pairs of operations of one event.
    pub logical: u64,
}

/// The task precedence graph of a batch: its events by rising timestamp, their operations, and what each one reads.
#[derive(Debug)]
pub struct Plan {
    /// By rising timestamp.
    pub events: List<PlanEvent>,
    /// By event, and then in operation order; the place of each is its number.
    pub ops: PlanOps,
    /// The operations of level 1, of level 2 and so on, each rising.
    pub op_levels: List<List<u32>>,
    /// The events of level 1, of level 2 and so on, each rising.
    pub event_levels: List<List<u32>>,
    /// How many dependencies there are.
    pub edges: Edges,
}

// Not derived: see "What costs" in docs/CONTRIBUTING.md.
impl Drop for Plan {
    fn drop(self) {
        let Plan {
            events: _,
            ops: _,
            op_levels: _,
            event_levels: _,
            edges: _,
        } = self;
    }
}

/// The result of a plan: the value of each operation, the verdict on each event, and the worker that settled each
/// operation, or 0 for none.
#[derive(Debug)]
pub struct Settled {
    /// By operation, the value after it. If the event aborted, that is its target's value before the event.
    pub values: List<u64>,
    /// By event: whether it committed.
    pub committed: List<bool>,
    /// By operation: a worker from 1 to [`WORKERS`](crate::WORKERS), or 0.
    pub by: List<u8>,
}

// Not derived: see "What costs" in docs/CONTRIBUTING.md.
impl Drop for Settled {
    fn drop(self) {
        let Settled {
            values: _,
            committed: _,
            by: _,
        } = self;
    }
}
