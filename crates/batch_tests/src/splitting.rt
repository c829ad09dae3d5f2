use crate::four_events::batch_of;
use morph_base::{OpRows, OutOfMemory};
use std::alloc::Global;
use std::process::Abort;
use std::test::Fail;
use txn_splitter::{TxnEvent, Txns, split};

/// For each event, the time, its first operation and how many it has.
const EVENTS: [(u64, u32, u32); 4] = [(1, 0, 2), (2, 2, 4), (3, 6, 4), (4, 10, 4)];

/// For each operation, the event, the target and the constant.
const OPS: [(usize, u8, u32, u64); 14] = [
    (0, 0, 0, 100),
    (0, 1, 0, 5),
    (1, 0, 0, 60),
    (1, 1, 0, 6),
    (1, 0, 1, 60),
    (1, 1, 1, 6),
    (2, 0, 0, 60),
    (2, 1, 0, 5),
    (2, 0, 1, 60),
    (2, 1, 1, 5),
    (3, 0, 1, 60),
    (3, 1, 1, 5),
    (3, 0, 2, 60),
    (3, 1, 2, 5),
];

fn events_of(alloc: Global, txns: &Txns) -> Result<Vec<(u64, u32, u32)>, OutOfMemory> {
    let mut rows = Vec::new(alloc);
    for i in 0..txns.events().len() {
        let event = txns.events().get(i);
        rows.push((event.ts, event.first, event.count))?;
    }
    Ok(rows)
}

/// Appends the operations of event `i`, as far as there are any.
fn append_ops(
    rows: &mut Vec<(usize, u8, u32, u64)>,
    i: usize,
    event: TxnEvent,
    ops: &OpRows,
) -> Result<(), OutOfMemory> {
    let first = event.first as usize;
    let end = first + event.count as usize;
    for o in first..end.min(ops.len()) {
        let op = ops.get(o);
        rows.push((i, op.key.table, op.key.id, op.c))?;
    }
    Ok(())
}

fn ops_of(alloc: Global, txns: &Txns) -> Result<Vec<(usize, u8, u32, u64)>, OutOfMemory> {
    let mut rows = Vec::new(alloc);
    for i in 0..txns.events().len() {
        append_ops(&mut rows, i, txns.events().get(i), txns.ops())?;
    }
    Ok(rows)
}

/// Compares the transactions of the events in this order of arrival with those above.
fn check(rt: &impl Abort, alloc: Global, times: &[u64]) -> Result<(), OutOfMemory> {
    let batch = batch_of(alloc, times)?;
    assert!(rt; batch.is_valid());
    let txns = split(alloc, batch)?;
    let events = events_of(alloc, &txns)?;
    assert_eq!(rt; events.as_slice(), EVENTS.as_slice());
    assert_eq!(rt; txns.ops().len(), OPS.len());
    let ops = ops_of(alloc, &txns)?;
    assert_eq!(rt; ops.as_slice(), OPS.as_slice());
    Ok(())
}

#[test]
fn order_of_arrival_does_not_matter(rt: HostRuntime) -> Result<(), Fail> {
    for times in [[1, 2, 3, 4], [4, 3, 2, 1]] {
        check(&rt, rt.alloc(), &times)?;
    }
    Ok(())
}
