//! The engine as a library: batches of events that are made in code are planned and run without any text.
ghost use Rattle.std.specs.Prelude.{◌≤◌};
ghost use Rattle.morph_base.specs.Limits.{most_workers};
ghost use Rattle.morph_base.specs.Transactions.{IsBatch, BatchKeysIn};

use decision_model::{Last, choose, profile};
use morph_base::{Abort, Batch, Explore, Func, Key, Layout, Op, OutOfMemory, Strategy, Unit};
use morph_engine::{BatchEnd, Engine};
use std::alloc::Global;
use std::test::Fail;
use std::thread::Threads;
use version_table::State;
use worker_gate::FreeGate;

/// A shop: a table of stocks, and one of bills.
const SHOP: Layout = Layout {
    tables: 2,
    size: 100,
};

/// The stock of item 0, and the bill of customer 7.
const STOCK: Key = Key { table: 0, id: 0 };

const BILL: Key = Key { table: 1, id: 7 };

/// A strategy of the caller's own.
const OWN: Strategy = Strategy {
    unit: Unit::Op,
    explore: Explore::Strata,
    abort: Abort::Eager,
};

/// An item is stocked, and ordered three times. The last order is for more than is left.
fn batch(alloc: Global) -> Result<Batch, OutOfMemory> {
    let mut batch = Batch::new(alloc);
    batch.push(1, &[Op::new(Func::Add, STOCK, &[], 10)])?;
    for (ts, pieces) in [(2, 3), (3, 4), (4, 5)] {
        let ops = [
            Op::new(Func::Sub, STOCK, &[], pieces),
            Op::new(Func::Add, BILL, &[], 20 * pieces),
        ];
        batch.push(ts, &ops)?;
    }
    Ok(batch)
}

/// The value of a key, if it is one of the state's.
fn value(state: &State, key: Key) -> Option<u64> {
    if state.layout().contains(key) {
        Some(state.get(key))
    } else {
        None
    }
}

/// The outcome of a batch: whether each event committed, by rising time; the values of the stock and the bill; and the
/// strategy.
#[derive(Drop)]
struct Came {
    committed: Vec<bool>,
    values: [Option<u64>; 2],
    strategy: Strategy,
}

/// A new engine after a batch, and the outcome of the batch, which this many workers ran with this strategy, or with
/// one chosen by the counts of the plan.
fn ended<R: Threads + Sync>(
    rt: &R,
    alloc: Global,
    batch: Batch,
    own: Option<Strategy>,
    workers: u32,
) -> Result<(Engine, BatchEnd), OutOfMemory>
    requires batch { IsBatch batch }
    requires keys { BatchKeysIn SHOP batch }
    requires some { 1 ≤ workers }
    requires few { workers ≤ most_workers }
{
    let mut engine = Engine::new(alloc, SHOP)?;
    let plan = engine.plan(alloc, batch)?;
    let strategy = match own {
        Some(strategy) => strategy,
        None => choose(&profile(&plan, Last::default())),
    };
    let end = engine.run_batch(rt, alloc, plan, &strategy, workers, &FreeGate)?;
    Ok((engine, end))
}

/// Plans a batch and runs it on a new engine by this many workers, with this strategy, or with one chosen by the counts
/// of the plan.
fn run<R: Threads + Sync>(
    rt: &R,
    alloc: Global,
    batch: Batch,
    own: Option<Strategy>,
    workers: u32,
) -> Result<Came, OutOfMemory>
    requires batch { IsBatch batch }
    requires keys { BatchKeysIn SHOP batch }
    requires some { 1 ≤ workers }
    requires few { workers ≤ most_workers }
{
    let (engine, end) = ended(rt, alloc, batch, own, workers)?;
    Ok(Came {
        committed: Vec::from_slice(alloc, end.settled.committed.as_slice())?,
        values: [value(engine.state(), STOCK), value(engine.state(), BILL)],
        strategy: end.strategy,
    })
}

#[test]
fn a_batch_is_made_planned_and_run_without_text(rt: HostRuntime) -> Result<(), Fail> {
    // 5 of the 7 operations follow another one on their key, no parameter is written, and the levels are narrow.
    let chosen = Strategy {
        unit: Unit::Chain,
        explore: Explore::Steal,
        abort: Abort::Lazy,
    };
    for (own, workers, strategy) in [(None, 1, chosen), (None, 4, chosen), (Some(OWN), 2, OWN)] {
        let batch = batch(rt.alloc())?;
        assert!(rt; batch.is_valid() && batch.has_keys_in(SHOP));
        let came = run(&rt, rt.alloc(), batch, own, workers)?;
        let got = (came.committed.as_slice(), came.values, came.strategy);
        let want = (
            [true, true, true, false].as_slice(),
            [Some(3), Some(140)],
            strategy,
        );
        assert_eq!(rt; got, want, "{own:?} by {workers}");
    }
    Ok(())
}
