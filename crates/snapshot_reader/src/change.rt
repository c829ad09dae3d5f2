ghost use Rattle.std.specs.Prelude.{◌≡◌, IfOk};
ghost use Rattle.morph_base.specs.Plans.{IsSettledOf, op_count};

use crate::writes::writes;
use morph_base::{Layout, List, OutOfMemory, Plan, Settled};
use std::alloc::Global;
use std::snapshot::Snapshot;

/// A value to be written at a place.
#[derive(Clone, Copy, Debug)]
pub struct Write {
    pub place: usize,
    pub value: u64,
}

/// What one batch writes, in order: one operation of the writer, so that no part of a batch is ever shown.
#[derive(Drop)]
pub struct Change {
    pub writes: List<Write>,
    /// The batch. It has no bytes.
    pub plan: Snapshot<Plan>,
}

/// What the two copies of the balances have in common. It exists in proofs only: no value of it is made.
pub struct Shown {
    pub layout: Layout,
    pub number: u64,
    pub values: [u64; 0],
    pub last: Option<Change>,
}

impl Change {
    ghost use Rattle.snapshot_reader.specs.Writing.{writes_of};

    /// What a settled batch writes.
    pub fn of(
        alloc: Global,
        layout: Layout,
        plan: &Plan,
        settled: &Settled,
    ) -> Result<Change, OutOfMemory>
        requires settled { IsSettledOf plan.now settled.now }
        ensures plan { IfOk result (λ change. change.plan.value ≡ plan.now) }
        ensures writes { IfOk result (λ change. change.writes.items
            ≡ writes_of layout plan.now settled.now.values.items (op_count plan.now)) }
    {
        Ok(Change {
            writes: writes(alloc, layout, plan, settled)?,
            plan: Snapshot::of(plan),
        })
    }
}
