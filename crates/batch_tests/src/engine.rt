//! The four events run on a new engine, in any order of arrival and by any number of workers.
ghost use Rattle.std.specs.Prelude.{◌≤◌};
ghost use Rattle.morph_base.specs.Limits.{most_workers};
ghost use Rattle.morph_base.specs.Transactions.{IsBatch, BatchKeysIn};

use crate::four_events::{ACCOUNTS, ASSETS, LAYOUT, batch_of};
use morph_base::{Abort, Batch, Explore, Key, OutOfMemory, Strategy, Unit, Values, plain};
use morph_engine::{BatchEnd, Engine};
use std::alloc::Global;
use std::test::Fail;
use std::thread::Threads;
use version_table::State;
use worker_gate::HoldGate;

/// The outcome of a batch: the verdicts, who settled each operation, how much was evaluated, spread and rolled back,
/// how many causes were kept, whether the state is that of the fold, and the values of accounts 0 to 2 and assets 0 to
/// 2.
#[derive(Drop)]
struct Ran {
    committed: Vec<bool>,
    by: Vec<u8>,
    counts: (u64, u64, u64),
    left: usize,
    is_fold: bool,
    values: Vec<Option<u64>>,
}

/// Whether a state has the values of a fold in all ids of a table.
fn has_values(state: &State, values: &Values, table: u8) -> bool {
    (0..LAYOUT.size).all(|id| {
        let key = Key::of(table, id);
        state.layout().contains(key)
            && values.layout().contains(key)
            && state.get(key) == values.get(key)
    })
}

/// The values of the first ids of both tables.
fn first_values(alloc: Global, state: &State) -> Result<Vec<Option<u64>>, OutOfMemory> {
    let mut values = Vec::new(alloc);
    for table in [ACCOUNTS, ASSETS] {
        for id in 0..3 {
            let key = Key::of(table, id);
            values.push(if state.layout().contains(key) {
                Some(state.get(key))
            } else {
                None
            })?;
        }
    }
    Ok(values)
}

/// A new engine after a batch, and the outcome of the batch, which ran in these units and was explored in this way. All
/// workers take part.
fn ended<R: Threads + Sync>(
    rt: &R,
    alloc: Global,
    batch: Batch,
    how: (Unit, Explore),
    workers: u32,
) -> Result<(Engine, BatchEnd), OutOfMemory>
    requires batch { IsBatch batch }
    requires keys { BatchKeysIn LAYOUT batch }
    requires some { 1 ≤ workers }
    requires few { workers ≤ most_workers }
{
    let mut engine = Engine::new(alloc, LAYOUT)?;
    let plan = engine.plan(alloc, batch)?;
    let (unit, explore) = how;
    let strategy = Strategy {
        unit,
        explore,
        abort: Abort::Lazy,
    };
    let side_by_side = HoldGate::new(0, 0, 0);
    let end = engine.run_batch(rt, alloc, plan, &strategy, workers, &side_by_side)?;
    Ok((engine, end))
}

/// The values after the fold of a batch.
fn folded(alloc: Global, batch: &Batch) -> Result<Values, OutOfMemory>
    requires batch { IsBatch batch.now }
    requires keys { BatchKeysIn LAYOUT batch.now }
{
    let mut values = Values::new(alloc, LAYOUT)?;
    let _outcomes = plain::fold(alloc, &mut values, batch)?;
    Ok(values)
}

/// Runs a batch on a new engine in these units, explored in this way, and folds it.
fn run<R: Threads + Sync>(
    rt: &R,
    alloc: Global,
    batch: Batch,
    how: (Unit, Explore),
    workers: u32,
) -> Result<Ran, OutOfMemory>
    requires batch { IsBatch batch }
    requires keys { BatchKeysIn LAYOUT batch }
    requires some { 1 ≤ workers }
    requires few { workers ≤ most_workers }
{
    let values = folded(alloc, &batch)?;
    let (engine, end) = ended(rt, alloc, batch, how, workers)?;
    told(alloc, engine.state(), &end, &values)
}

/// The outcome of a batch, as the tests compare it.
fn told(alloc: Global, state: &State, end: &BatchEnd, folded: &Values) -> Result<Ran, OutOfMemory> {
    Ok(Ran {
        committed: Vec::from_slice(alloc, end.settled.committed.as_slice())?,
        by: Vec::from_slice(alloc, end.settled.by.as_slice())?,
        counts: (end.counts.evaluated, end.counts.spread, end.counts.rolled),
        left: end
            .left
            .as_slice()
            .iter()
            .filter(|list| !list.is_empty())
            .count(),
        is_fold: (0..LAYOUT.tables).all(|table| has_values(state, folded, table)),
        values: first_values(alloc, state)?,
    })
}

/// Worker 1 alone goes over a level of fewer than 8 operations or events, and so it settles these few events however
/// they were explored.
#[test]
fn four_events_by_any_workers(rt: HostRuntime) -> Result<(), Fail> {
    let values = [Some(40), Some(0), Some(60), Some(0), Some(0), Some(5)];
    for (times, how, workers) in [
        ([1, 2, 3, 4], (Unit::Op, Explore::Strata), 1),
        ([4, 3, 2, 1], (Unit::Chain, Explore::Strata), 2),
        ([2, 4, 1, 3], (Unit::Op, Explore::Strata), 16),
        ([1, 2, 3, 4], (Unit::Op, Explore::Steal), 1),
        ([3, 1, 4, 2], (Unit::Chain, Explore::Steal), 2),
        ([2, 4, 1, 3], (Unit::Op, Explore::Steal), 16),
    ] {
        let batch = batch_of(rt.alloc(), &times)?;
        assert!(rt; batch.is_valid() && batch.has_keys_in(LAYOUT));
        let ran = run(&rt, rt.alloc(), batch, how, workers)?;
        let got = (
            ran.committed.as_slice(),
            ran.by.as_slice(),
            (ran.counts, ran.left),
            ran.is_fold,
            ran.values.as_slice(),
        );
        let want = (
            [true, false, true, true].as_slice(),
            [1; 14].as_slice(),
            ((16, 0, 2), 0),
            true,
            values.as_slice(),
        );
        assert_eq!(rt; got, want, "{times:?} {how:?} by {workers}");
    }
    Ok(())
}
