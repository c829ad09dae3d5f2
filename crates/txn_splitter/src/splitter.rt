ghost use Rattle.std.specs.Prelude.{◌≡◌, ◌++◌, All, IfOk, OnOk};
ghost use Rattle.std.specs.List.{flat_map};
ghost use Rattle.morph_base.specs.Transactions.{IsBatch, by_time, high_of_all, transactions_of};
ghost use Rattle.txn_splitter.specs.Txns.{IsSplitOf, IsTxns, IsTxnsOf, txn_ops};
ghost use Rattle.txn_splitter.specs.TxnViews.{in_order, numbered};

use crate::order::Order;
use crate::txn_events::TxnEvent;
use crate::txns::Txns;
use morph_base::{Batch, Event, List, OpRows, OpSpan, OutOfMemory};
use std::alloc::Global;

/// Cuts a batch into its transactions, by rising timestamp. If its events came in this order, its operations stay where
/// they are.
pub fn split(alloc: Global, batch: Batch) -> Result<Txns, OutOfMemory>
    requires { IsBatch batch }

    // They are the batch's transactions, numbered, with nothing added and nothing dropped.
    ensures of { IfOk result (IsTxnsOf batch) }
    ensures valid { IfOk result IsTxns }
    ensures high { IfOk result (λ txns.
        All (λ op. op.high ≡ high_of_all (transactions_of batch)) (txn_ops txns)) }
{
    if batch.is_rising() {
        let events = number_events(alloc, &batch, &Order::AsTheyCame(&batch))?;
        return Ok(Txns::of(events, batch.into_ops()));
    }
    let sorted = batch.by_time(alloc)?;
    let ops = gathered(alloc, &batch, sorted.as_slice())?;
    let events = number_events(alloc, &batch, &Order::Sorted(sorted))?;
    Ok(Txns::of(events, ops))
}

/// The events of a batch in this order, which is by rising timestamp. Each has the operations that follow those of the
/// event before it.
fn number_events(
    alloc: Global,
    batch: &Batch,
    order: &Order<'_>,
) -> Result<List<TxnEvent>, OutOfMemory>
    requires batch { IsBatch batch.now }
    requires order { in_order order.now ≡ by_time (transactions_of batch.now) }
    ensures { IfOk result (λ events. IsSplitOf (by_time (transactions_of batch.now))
        (numbered events.items (flat_map (λ e. e.ops) (by_time (transactions_of batch.now))))) }
{
    let mut events = List::with_room(alloc, batch.len())?;
    let mut first: u32 = 0;
    for i in 0..batch.len() {
        let (ts, length) = order.event(i);
        let count = length as u32;
        events.add(TxnEvent { ts, first, count });
        first += count;
    }
    Ok(events)
}

/// The operations of some events of a batch, one event after another.
fn gathered(alloc: Global, batch: &Batch, events: &[Event<'_>]) -> Result<OpRows, OutOfMemory>
    ensures { IfOk result (λ rows. rows ≡ flat_map (λ e. e.ops) events.now) }
{
    let mut rows = batch.room_for_ops(alloc)?;
    for event in events {
        add_all(&mut rows, &event.ops)?;
    }
    Ok(rows)
}

/// Appends the operations of an event. If memory is refused, there are perhaps some of them.
fn add_all(rows: &mut OpRows, ops: &OpSpan<'_>) -> Result<(), OutOfMemory>
    ensures { OnOk result (rows.new ≡ rows.old ++ ops.now) }
{
    for i in 0..ops.len() {
        rows.push(&ops.get(i))?;
    }
    Ok(())
}
