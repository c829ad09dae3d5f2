ghost use Rattle.std.specs.Prelude.{◌≡◌, ◌+◌, ◌^◌, ◌<◌, ◌++◌, [], ◌∷◌, length, map, take, drop, IfOk};
ghost use Rattle.std.specs.Prelude.{slice_index_or};
ghost use Rattle.morph_base.specs.Graphs.{greatest, level_of};
ghost use Rattle.morph_base.specs.OpLists.{op_list};
ghost use Rattle.morph_base.specs.Operations.{no_op, reads, IsShaped};
ghost use Rattle.txn_splitter.specs.Txns.{IsTxns, txn_ops, txn_count, txn_op_count, txn_at};
ghost use Rattle.precedence_graph.specs.Planned.{HasWriters, HasLevels, HasEventLevels, IsWrittenOf};
ghost use Rattle.precedence_graph.specs.Planned.{ArePlanned, AreEventsPlanned, IsSumOf, event_sources_of};
ghost use Rattle.precedence_graph.specs.Planned.{members_of, padded};
ghost use Rattle.precedence_graph.specs.Writers.{entered_level, entered_event_level, source_in};

use crate::edges::Written;
use crate::sources::{Reads, set_sources};
use crate::transactions::event_at;
use crate::writers::Writers;
use morph_base::{List, OutOfMemory, PlanEvent, PlanOps};
use std::alloc::Global;
use txn_splitter::{TxnEvent, TxnEvents, Txns};

/// Operations and events as a plan has them, and how many reads of operations they have.
#[derive(Debug, Drop)]
pub struct Planned {
    pub ops: PlanOps,
    pub events: List<PlanEvent>,
    pub written: Written,
}

/// Plans all transactions: the operations in order, each with its event, its sources and its level; the events, each
/// with its level; and how many reads of operations there are.
pub fn plan_transactions(alloc: Global, txns: Txns) -> Result<Planned, OutOfMemory>
    requires { IsTxns txns }
    ensures ops { IfOk result
        (λ planned. ArePlanned txns (txn_op_count txns) planned.ops.items) }
    ensures events { IfOk result (λ planned.
        AreEventsPlanned txns planned.ops.items (txn_count txns) planned.events.items) }
    ensures written { IfOk result (λ planned. IsWrittenOf planned.ops.items planned.written) }
{
    let count = txns.ops().len();
    let (events, rows) = txns.into_parts();
    let ops = PlanOps::of(alloc, rows)?;
    plan_events(alloc, &events, ops, count)
}

/// Plans all events. Their operations are these, so many, and all of them are still to be planned.
fn plan_events(
    alloc: Global,
    txns: &TxnEvents,
    ops: PlanOps,
    count: usize,
) -> Result<Planned, OutOfMemory>
    requires txns { IsTxns txns.now }
    requires coming { ops ≡ op_list [] (txn_ops txns.now) }
    requires count { count ≡ txn_op_count txns.now }
    ensures ops { IfOk result
        (λ planned. ArePlanned txns.now (txn_op_count txns.now) planned.ops.items) }
    ensures events { IfOk result (λ planned.
        AreEventsPlanned txns.now planned.ops.items (txn_count txns.now) planned.events.items) }
    ensures written { IfOk result (λ planned. IsWrittenOf planned.ops.items planned.written) }
{
    let mut writers = Writers::new(alloc, count)?;
    let mut ops = ops;
    let mut events = List::with_room(alloc, txns.len())?;
    let mut written = Written {
        targets: 0,
        parameters: 0,
    };
    for i in 0..txns.len() {
        let most = plan_event_ops(txns, i, &writers, &mut ops, &mut written);
        let TxnEvent { ts, first, count } = event_at(txns, i);
        let level = 1 + most;
        events.add(PlanEvent {
            ts,
            first,
            count,
            level,
        });
        enter_event(txns, i, &ops, events.as_slice(), &mut writers);
    }
    Ok(Planned {
        ops,
        events,
        written,
    })
}

/// Plans the operations of event `i`, which read what the events before it wrote, and counts their reads of operations.
/// Returns the greatest level of the events that they read from, as these were entered, or 0 if there is none.
#[inline(never)]
fn plan_event_ops(
    txns: &TxnEvents,
    i: usize,
    writers: &Writers,
    ops: &mut PlanOps,
    written: &mut Written,
) -> u32
    requires txns { IsTxns txns.now }
    requires event { i < txn_count txns.now }
    requires writers { HasWriters txns.now (txn_at txns.now i).first writers.now }
    requires levels { HasLevels ops.old.items (txn_at txns.now i).first writers.now }
    requires coming { ops.old.coming ≡ drop (length ops.old.items) (txn_ops txns.now) }
    requires planned { ArePlanned txns.now (txn_at txns.now i).first ops.old.items }
    requires written { IsWrittenOf ops.old.items written.old }
    ensures coming { ops.new.coming ≡ drop (length ops.new.items) (txn_ops txns.now) }
    ensures planned { ArePlanned txns.now
        ((txn_at txns.now i).first + (txn_at txns.now i).count) ops.new.items }
    ensures kept { take (txn_at txns.now i).first ops.new.items ≡ ops.old.items }
    ensures level { result ≡ greatest (map (level_of (entered_event_level writers.now))
        (event_sources_of (members_of txns.now ops.new.items i))) }
    ensures written { IsWrittenOf ops.new.items written.new }
{
    let mut most: u32 = 0;
    for _ in 0..event_at(txns, i).count {
        let reads = add_planned(ops, i as u32, writers);
        most = most.max(reads.event_level);
        written.targets += u64::from(reads.target);
        written.parameters += u64::from(reads.parameters);
    }
    most
}

/// Appends the next operation, of this event, with its sources and its level. Returns what is known of the sources.
fn add_planned(ops: &mut PlanOps, event: u32, writers: &Writers) -> Reads
    requires coming { 0 < length ops.old.coming }
    requires shaped { IsShaped (slice_index_or ops.old.coming 0 no_op) }
    requires low { 1 + greatest (map (level_of (entered_level writers.now))
        (map (source_in writers.now) (reads (slice_index_or ops.old.coming 0 no_op)))) < 2 ^ 32 }
    ensures coming { ops.new.coming ≡ drop 1 ops.old.coming }
    ensures items { ops.new.items ≡ ops.old.items ++ record {
      op = slice_index_or ops.old.coming 0 no_op;
      event = event;
      origins = padded (map (source_in writers.now) (reads (slice_index_or ops.old.coming 0 no_op)));
      level = 1 + result.level;
    } ∷ [] }
    ensures sums { IsSumOf writers.now (slice_index_or ops.old.coming 0 no_op) result }
{
    let o = ops.len();
    ops.add_next(event);
    let reads = set_sources(ops, o, writers);
    ops.set_level(o, 1 + reads.level);
    reads
}

/// Enters the operations of event `i` as writers, each with its level and that of the event.
fn enter_event(
    txns: &TxnEvents,
    i: usize,
    ops: &PlanOps,
    events: &[PlanEvent],
    writers: &mut Writers,
)
    requires txns { IsTxns txns.now }
    requires event { i < txn_count txns.now }
    requires planned { ArePlanned txns.now
        ((txn_at txns.now i).first + (txn_at txns.now i).count) ops.now.items }
    requires there { i < length events.now }
    requires writers { HasWriters txns.now (txn_at txns.now i).first writers.old }
    requires levels { HasLevels ops.now.items (txn_at txns.now i).first writers.old }
    requires event_levels { HasEventLevels ops.now.items events.now (txn_at txns.now i).first writers.old }
    ensures writers { HasWriters txns.now
        ((txn_at txns.now i).first + (txn_at txns.now i).count) writers.new }
    ensures levels { HasLevels ops.now.items
        ((txn_at txns.now i).first + (txn_at txns.now i).count) writers.new }
    ensures event_levels { HasEventLevels ops.now.items events.now
        ((txn_at txns.now i).first + (txn_at txns.now i).count) writers.new }
{
    let event = event_at(txns, i);
    let level = events[i].level;
    for o in event.first..event.first + event.count {
        writers.enter(ops.key(o as usize), ops.level(o as usize), level);
    }
}
