//! A batch in which a failure comes late, so that under eager abort levels are passed again.
ghost use Rattle.std.specs.Prelude.{◌<◌};
ghost use Rattle.morph_base.specs.Graphs.{IsValidPlan};
ghost use Rattle.morph_base.specs.Limits.{most_attempts};

use crate::four_events::{ACCOUNTS, ASSETS, plan_for, transfer};
use chain_units::units;
use morph_base::{Abort, Batch, Func, Key, List, Op, OutOfMemory, Plan, Unit};
use op_eval::{RunEnd, Runners};
use op_words::{Board, Counts};
use precedence_graph::dependents;
use std::alloc::Global;
use std::test::Fail;
use std::thread::Threads;
use strata_explorer::{counters, explore};
use worker_gate::FreeGate;

/// A deposit on an account and an asset.
fn deposit(
    alloc: Global,
    account: u32,
    money: u64,
    asset: u32,
    assets: u64,
) -> Result<List<Op>, OutOfMemory> {
    List::from_slice(
        alloc,
        &[
            Op::new(Func::Add, Key::of(ACCOUNTS, account), &[], money),
            Op::new(Func::Add, Key::of(ASSETS, asset), &[], assets),
        ],
    )
}

/// The operations of the event at a time. The transfer at 6 takes from account 0 at level 2, and finds at level 5 that
/// there are 4 of asset 0 and not 6. By then the transfer at 7 has taken from the same account at level 3. The transfer
/// at 16 takes from account 20 at level 3, and finds at level 7 that there are 6 of asset 20 and not 60. By then the
/// transfer at 17 has taken from the same account at level 4.
fn ops_at(alloc: Global, ts: u32) -> Result<List<Op>, OutOfMemory> {
    match ts {
        5 => deposit(alloc, 0, 100, 5, 1),
        6 => transfer(alloc, 0, 1, 60, 6),
        7 => transfer(alloc, 0, 2, 30, 1),
        14 | 15 => deposit(alloc, 20, 100, ts.saturating_add(50), 1),
        16 => transfer(alloc, 20, 21, 60, 60),
        17 => transfer(alloc, 20, 22, 30, 1),
        8..=13 => deposit(alloc, ts.saturating_add(30), 1, 20, 1),
        _ => deposit(alloc, ts.saturating_add(10), 1, 0, 1),
    }
}

/// The events up to a time.
fn batch(alloc: Global, last: u32) -> Result<Batch, OutOfMemory> {
    let mut batch = Batch::new(alloc);
    for ts in 1..=last {
        batch.push(u64::from(ts), ops_at(alloc, ts)?.as_slice())?;
    }
    Ok(batch)
}

/// Why exploring a plan by one runner ended, after how many passes, and what the runner counted.
fn explored<R: Threads + Sync>(
    rt: &R,
    alloc: Global,
    plan: &Plan,
    abort: Abort,
    cap: u8,
) -> Result<(RunEnd, u32, Counts), OutOfMemory>
    requires valid { IsValidPlan plan.now }
    requires cap { cap < most_attempts }
{
    let units = units(alloc, plan, Unit::Op)?;
    let (board, root) = Board::new(alloc, plan, cap, counters(plan))?;
    let runners = Runners::new(alloc, &board, root, 1, plan.events.len() as u32)?;
    let readers = dependents(alloc, plan)?;
    let explored = explore(rt, board, runners, plan, &units, abort, &readers, &FreeGate);
    let (_, mut runners, end, passes) = explored.parts();
    Ok((end, passes, runners.runner(1).hand.counts()))
}

/// Two withdrawals of the last event read what the failed event had left, and are rolled back to level 3.
#[test]
fn levels_are_passed_again(rt: HostRuntime) -> Result<(), Fail> {
    let plan = plan_for(&rt, rt.alloc(), batch(rt.alloc(), 7)?)?;
    let counts = |evaluated, spread, rolled| Counts {
        evaluated,
        spread,
        rolled,
    };
    let lazy = explored(&rt, rt.alloc(), &plan, Abort::Lazy, 1)?;
    assert_eq!(rt; lazy, (RunEnd::Whole, 6, counts(18, 0, 0)));
    let eager = explored(&rt, rt.alloc(), &plan, Abort::Eager, 7)?;
    assert_eq!(rt; eager, (RunEnd::Whole, 9, counts(20, 2, 2)));
    Ok(())
}

/// After the pass over level 5 exploring goes back to level 3, and after that over level 7 to level 4. It does not go
/// back to level 3 once more, since the level word of the first failure is gone by then. So there are 5 passes, then 5
/// from level 3 to level 7, and 5 from level 4 to level 8.
#[test]
fn a_later_failure_goes_back_to_its_own_level(rt: HostRuntime) -> Result<(), Fail> {
    let plan = plan_for(&rt, rt.alloc(), batch(rt.alloc(), 17)?)?;
    let (end, passes, counts) = explored(&rt, rt.alloc(), &plan, Abort::Eager, 7)?;
    assert_eq!(rt; (end, passes), (RunEnd::Whole, 15));
    assert_eq!(rt;
        (counts.evaluated, counts.spread, counts.rolled),
        (46, 4, 4)
    );
    Ok(())
}
