ghost use Rattle.std.specs.Prelude.{IfOk};
ghost use Rattle.morph_base.specs.Graphs.{IsValidPlan};

use crate::four_events::batch_of;
use morph_base::{Edges, List, Origin, OutOfMemory, Plan, PlanOps, Rows};
use precedence_graph::{build, dependents};
use std::alloc::Global;
use std::process::Abort;
use std::test::Fail;
use txn_splitter::split;

/// For each operation, the event, the target, the constant, the sources of places 0 and 1, and the level.
const OPS: [(u32, u8, u32, u64, u32, u32, u32); 14] = [
    (0, 0, 0, 100, 99, 99, 1),
    (0, 1, 0, 5, 99, 99, 1),
    (1, 0, 0, 60, 0, 99, 2),
    (1, 1, 0, 6, 1, 99, 2),
    (1, 0, 1, 60, 99, 0, 2),
    (1, 1, 1, 6, 99, 1, 2),
    (2, 0, 0, 60, 2, 99, 3),
    (2, 1, 0, 5, 3, 99, 3),
    (2, 0, 1, 60, 4, 2, 3),
    (2, 1, 1, 5, 5, 3, 3),
    (3, 0, 1, 60, 8, 99, 4),
    (3, 1, 1, 5, 9, 99, 4),
    (3, 0, 2, 60, 99, 8, 4),
    (3, 1, 2, 5, 99, 9, 4),
];

/// For each event, the time, its first operation, how many it has, and the level.
const EVENTS: [(u64, u32, u32, u32); 4] = [(1, 0, 2, 1), (2, 2, 4, 2), (3, 6, 4, 3), (4, 10, 4, 4)];

const EDGES: Edges = Edges {
    temporal: 8,
    parametric: 6,
    logical: 19,
};

const DEPENDENTS: [u32; 28] = [
    2, 4, 99, 3, 5, 99, 6, 8, 99, 7, 9, 99, 8, 99, 9, 99, 99, 99, 10, 12, 99, 11, 13, 99, 99, 99,
    99, 99,
];

const OP_LEVELS: [u32; 18] = [0, 1, 99, 2, 3, 4, 5, 99, 6, 7, 8, 9, 99, 10, 11, 12, 13, 99];

const EVENT_LEVELS: [u32; 8] = [0, 99, 1, 99, 2, 99, 3, 99];

/// The number of the operation that a place reads from, or 99 for `Base(0)`.
fn source(origin: Origin) -> u32 {
    match origin {
        Origin::Base(v) => 99 + (v.min(1) as u32),
        Origin::Op(s) => s,
    }
}

fn ops_of(
    alloc: Global,
    ops: &PlanOps,
) -> Result<Vec<(u32, u8, u32, u64, u32, u32, u32)>, OutOfMemory> {
    let mut rows = Vec::new(alloc);
    for o in 0..ops.len() {
        let op = ops.get(o);
        let (key, c) = (op.op.key, op.op.c);
        let (first, second) = (source(op.origins[0]), source(op.origins[1]));
        rows.push((op.event, key.table, key.id, c, first, second, op.level))?;
    }
    Ok(rows)
}

fn events_of(alloc: Global, plan: &Plan) -> Result<Vec<(u64, u32, u32, u32)>, OutOfMemory> {
    let mut rows = Vec::new(alloc);
    for event in plan.events.as_slice() {
        rows.push((event.ts, event.first, event.count, event.level))?;
    }
    Ok(rows)
}

/// Appends a list, and 99 after it.
fn append(all: &mut Vec<u32>, list: &[u32]) -> Result<(), OutOfMemory> {
    for n in list {
        all.push(*n)?;
    }
    all.push(99)?;
    Ok(())
}

/// The lists joined into one, each ended by 99.
fn joined(alloc: Global, lists: &List<List<u32>>) -> Result<Vec<u32>, OutOfMemory> {
    let mut all = Vec::new(alloc);
    for list in lists.as_slice() {
        append(&mut all, list.as_slice())?;
    }
    Ok(all)
}

/// The rows joined into one list, each ended by 99.
fn joined_rows(alloc: Global, rows: &Rows) -> Result<Vec<u32>, OutOfMemory> {
    let mut all = Vec::new(alloc);
    for i in 0..rows.len() {
        append(&mut all, rows.row(i))?;
    }
    Ok(all)
}

/// The plan of the events in this order of arrival.
fn built(rt: &impl Abort, alloc: Global, times: &[u64]) -> Result<Plan, OutOfMemory>
    ensures { IfOk result IsValidPlan }
{
    let batch = batch_of(alloc, times)?;
    assert!(rt; batch.is_valid());
    let txns = split(alloc, batch)?;
    build(alloc, txns)
}

/// Whether all places from the third on hold the base 0.
fn has_blank_ends(ops: &PlanOps) -> bool {
    for o in 0..ops.len() {
        if ops.origins(o)[2..]
            .iter()
            .any(|origin| *origin != Origin::Base(0))
        {
            return false;
        }
    }
    true
}

/// Compares the operations and events of a plan with those above.
fn check(rt: &impl Abort, alloc: Global, plan: &Plan) -> Result<(), OutOfMemory> {
    assert!(rt; has_blank_ends(&plan.ops));
    let ops = ops_of(alloc, &plan.ops)?;
    assert_eq!(rt; ops.as_slice(), OPS.as_slice());
    let events = events_of(alloc, plan)?;
    assert_eq!(rt; events.as_slice(), EVENTS.as_slice());
    Ok(())
}

#[test]
fn operations_and_events(rt: HostRuntime) -> Result<(), Fail> {
    for times in [[1, 2, 3, 4], [4, 3, 2, 1]] {
        let plan = built(&rt, rt.alloc(), &times)?;
        check(&rt, rt.alloc(), &plan)?;
    }
    Ok(())
}

#[test]
fn dependencies_and_levels(rt: HostRuntime) -> Result<(), Fail> {
    let plan = built(&rt, rt.alloc(), &[4, 3, 2, 1])?;
    assert_eq!(rt; plan.edges, EDGES);
    let readers = joined_rows(rt.alloc(), &dependents(rt.alloc(), &plan)?)?;
    assert_eq!(rt; readers.as_slice(), DEPENDENTS.as_slice());
    let op_levels = joined(rt.alloc(), &plan.op_levels)?;
    assert_eq!(rt; op_levels.as_slice(), OP_LEVELS.as_slice());
    let event_levels = joined(rt.alloc(), &plan.event_levels)?;
    assert_eq!(rt; event_levels.as_slice(), EVENT_LEVELS.as_slice());
    Ok(())
}
