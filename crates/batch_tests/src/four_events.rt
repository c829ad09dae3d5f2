//! The four events of these tests, and their plan.
ghost use Rattle.std.specs.Prelude.{IfOk};
ghost use Rattle.morph_base.specs.Graphs.{IsValidPlan};
ghost use Rattle.morph_base.specs.Plans.{HasBases, PlanKeysIn};
ghost use Rattle.morph_base.specs.States.{opening_state};

use morph_base::{Batch, Func, Key, Layout, List, Op, OutOfMemory, Plan};
use morph_engine::Engine;
use std::alloc::Global;
use std::process::Abort;

/// The table of accounts.
pub(crate) const ACCOUNTS: u8 = 0;

/// The table of assets.
pub(crate) const ASSETS: u8 = 1;

/// Accounts and assets.
pub(crate) const LAYOUT: Layout = Layout {
    tables: 2,
    size: 10_000,
};

/// A transfer of money and assets.
pub(crate) fn transfer(
    alloc: Global,
    from: u32,
    to: u32,
    money: u64,
    assets: u64,
) -> Result<List<Op>, OutOfMemory> {
    let (account, asset) = (Key::of(ACCOUNTS, from), Key::of(ASSETS, from));
    List::from_slice(
        alloc,
        &[
            Op::new(Func::Sub, account, &[], money),
            Op::new(Func::Sub, asset, &[], assets),
            Op::new(Func::MoveIn, Key::of(ACCOUNTS, to), &[account], money),
            Op::new(Func::MoveIn, Key::of(ASSETS, to), &[asset], assets),
        ],
    )
}

/// The operations of the event at a time.
fn ops_at(alloc: Global, ts: u64) -> Result<List<Op>, OutOfMemory> {
    match ts {
        1 => List::from_slice(
            alloc,
            &[
                Op::new(Func::Add, Key::of(ACCOUNTS, 0), &[], 100),
                Op::new(Func::Add, Key::of(ASSETS, 0), &[], 5),
            ],
        ),
        2 => transfer(alloc, 0, 1, 60, 6),
        3 => transfer(alloc, 0, 1, 60, 5),
        _ => transfer(alloc, 1, 2, 60, 5),
    }
}

/// The events at these times, in this order of arrival.
pub(crate) fn batch_of(alloc: Global, times: &[u64]) -> Result<Batch, OutOfMemory> {
    let mut batch = Batch::new(alloc);
    for ts in times {
        batch.push(*ts, ops_at(alloc, *ts)?.as_slice())?;
    }
    Ok(batch)
}

/// The plan of a batch.
pub(crate) fn plan_for(rt: &impl Abort, alloc: Global, batch: Batch) -> Result<Plan, OutOfMemory>
    ensures plan { IfOk result IsValidPlan }
    ensures keys { IfOk result (λ plan. PlanKeysIn plan LAYOUT) }
    ensures bases { IfOk result (λ plan. HasBases plan opening_state) }
{
    assert!(rt; batch.is_valid() && batch.has_keys_in(LAYOUT));
    Engine::new(alloc, LAYOUT)?.plan(alloc, batch)
}

/// The plan of the events at these times.
pub(crate) fn plan_at(rt: &impl Abort, alloc: Global, times: &[u64]) -> Result<Plan, OutOfMemory>
    ensures plan { IfOk result IsValidPlan }
    ensures keys { IfOk result (λ plan. PlanKeysIn plan LAYOUT) }
    ensures bases { IfOk result (λ plan. HasBases plan opening_state) }
{
    plan_for(rt, alloc, batch_of(alloc, times)?)
}

/// The plan of the four events.
pub(crate) fn plan(rt: &impl Abort, alloc: Global) -> Result<Plan, OutOfMemory>
    ensures plan { IfOk result IsValidPlan }
    ensures keys { IfOk result (λ plan. PlanKeysIn plan LAYOUT) }
    ensures bases { IfOk result (λ plan. HasBases plan opening_state) }
{
    plan_at(rt, alloc, &[1, 2, 3, 4])
}
