//! A batch of many events: deposits on accounts and assets, and transfers, some of which are aborted.
ghost use Rattle.std.specs.Prelude.{IfOk};
ghost use Rattle.morph_base.specs.Graphs.{IsValidPlan};

use crate::four_events::{ACCOUNTS, ASSETS, plan_for, transfer};
use morph_base::{Batch, Func, Key, List, Op, OutOfMemory, Plan};
use std::alloc::Global;
use std::process::Abort;

/// How many events there are.
pub(crate) const EVENTS: u64 = 10_240;

/// The operations of an event: one in two is a transfer of 60, from one of 500 accounts to one of the next seven.
fn ops_of(alloc: Global, event: u64) -> Result<List<Op>, OutOfMemory> {
    let from = (event.wrapping_mul(7) % 500) as u32;
    if event % 2 == 0 {
        List::from_slice(
            alloc,
            &[
                Op::new(Func::Add, Key::of(ACCOUNTS, from), &[], 100),
                Op::new(Func::Add, Key::of(ASSETS, from), &[], 5),
            ],
        )
    } else {
        transfer(alloc, from, from + 1 + (event % 7) as u32, 60, 5)
    }
}

/// The plan of these events.
pub(crate) fn plan(rt: &impl Abort, alloc: Global) -> Result<Plan, OutOfMemory>
    ensures { IfOk result IsValidPlan }
{
    let mut batch = Batch::new(alloc);
    for event in 0..EVENTS {
        batch.push(event + 1, ops_of(alloc, event)?.as_slice())?;
    }
    plan_for(rt, alloc, batch)
}
