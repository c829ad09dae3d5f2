ghost use Rattle.std.specs.Prelude.{◌≡◌, ◌≢◌, ℕ, ◌+◌, ◌<◌, ◌≤◌, [], ◌∷◌, length, false, None, Some, Ok, IfOk};
ghost use Rattle.std.specs.Prelude.{IfErr, IfNone, IfSome, IsErrOf, IsTrue};
ghost use Rattle.morph_io.specs.Told.{HasRisen};
ghost use Rattle.event_reader.specs.Limits.{input_bytes};
ghost use Rattle.event_reader.specs.Versions.{greatest_of};
ghost use Rattle.event_reader.specs.declared.fault.ReaderFault.TheVariants.{ReadFault};
ghost use Rattle.rtrb.specs.Ring.{SameProducer};
ghost use Rattle.batch_pipe.specs.GivenBatches.{stand};
ghost use Rattle.event_reader.specs.Reader.{SameReader};
ghost use Rattle.batch_pipe.specs.PlannedBatches.{IsReadyPlan, Plans, StopsWithTail, PlansAhead, HasPlanned};
ghost use Rattle.batch_pipe.specs.PlannedBatches.{HasFilled, CanPlan, IsIdlePlanner, layout_by};
ghost use Rattle.batch_pipe.specs.PlanRuns.{one_or_none};

use crate::items::{ReadyPlans, Sent};
use crate::meeting::{Meeting, await_place};
use crate::tail::Tail;
use event_reader::{BatchReader, EventApp, Next, ReaderFault};
use morph_base::{Layout, OutOfMemory, Plan};
use morph_engine::plan_batch;
use morph_io::Source;
use rtrb::Producer;
use std::alloc::Global;

/// The side of a pipe that reads and plans.
#[derive(Drop)]
pub(crate) struct Planner<A> {
    pub(crate) reader: BatchReader<A>,
    /// The layout of the keys of the reader's events.
    pub(crate) layout: Layout,
    pub(crate) ring: Producer<Sent, Global, ReadyPlans>,
    /// How many plans were sent, which is the number of the last one.
    pub(crate) sent: u64,
}

/// Reads the next batch and plans it, or says why there is none.
fn read_plan<A: EventApp, S: Source>(
    alloc: Global,
    reader: &mut BatchReader<A>,
    source: &mut S,
) -> Result<Plan, Tail>
    requires live { IsTrue reader.old.live }
    ensures plan { IfOk result (λ plan. Plans A.event_of
        (stand reader.old (S.left source.old)) (plan ∷ []) None (stand reader.new (S.left source.new))) }
    ensures ready { IfOk result (IsReadyPlan (layout_by A.table_count reader.old)
        (greatest_of reader.new.past.version)) }
    ensures live { IfOk result (λ plan. IsTrue reader.new.live) }
    ensures counted { IfOk result (λ plan. reader.old.lines.number < reader.new.lines.number) }
    ensures tail { IfErr result (λ tail. StopsWithTail A.event_of tail
        (stand reader.old (S.left source.old)) (stand reader.new (S.left source.new))) }
    ensures planner { IfErr result (λ tail. tail ≢ Tail.RunMemory) }
    ensures same { SameReader reader.old reader.new }
    ensures bound { reader.new.lines.number ≤ input_bytes + 1 }
    ensures never_falls { S.faults source.old ≤ S.faults source.new }
    ensures cause { IsErrOf result (Tail.Fault ReadFault)
        → HasRisen (S.faults source.old) (S.faults source.new) }
{
    let live = reader.live();
    prove!(live);
    match reader.next_batch(alloc, source) {
        Ok(Next::Batch(batch)) => match plan_batch(alloc, batch) {
            Ok(plan) => Ok(plan),
            Err(OutOfMemory) => Err(Tail::Fault(ReaderFault::OutOfMemory)),
        },
        Ok(Next::End) => Err(Tail::End),
        Ok(Next::Refused { line, cause }) => Err(Tail::Refused { line, cause }),
        Err(fault) => Err(Tail::Fault(fault)),
    }
}

/// Reads and plans the first batch of a round, if it is asked for. Its plan goes to the runner without the ring.
pub(crate) fn read_first<A: EventApp, S: Source>(
    alloc: Global,
    asked: bool,
    planner: &mut Planner<A>,
    source: &mut S,
) -> Result<Option<Sent>, Tail>
    requires able { IsTrue asked → CanPlan A.table_count planner.old }
    ensures plans { IfOk result (λ first. PlansAhead A.event_of
        (layout_by A.table_count planner.old.reader)
        (greatest_of planner.new.reader.past.version)
        (record {
          at = stand planner.old.reader (S.left source.old);
          sent = [];
          number = planner.old.sent;
        }) None
        (record {
          at = stand planner.new.reader (S.left source.new);
          sent = one_or_none first;
          number = planner.new.sent;
        })) }
    ensures stops { IfErr result (λ tail. StopsWithTail A.event_of tail
        (stand planner.old.reader (S.left source.old))
        (stand planner.new.reader (S.left source.new))) }
    ensures asked { IsTrue asked → IfOk result (λ first. length (one_or_none first) ≡ 1) }
    ensures idle { asked ≡ false → (result ≡ Ok None)
        × (planner.new.reader ≡ planner.old.reader) × (S.left source.new ≡ S.left source.old) }
    ensures able { IsTrue asked → IfOk result (λ first. CanPlan A.table_count planner.new) }
    ensures ring { planner.new.ring ≡ planner.old.ring }
    ensures layout { planner.new.layout ≡ planner.old.layout }
    ensures unsent { IfErr result (λ tail. planner.new.sent ≡ planner.old.sent) }
    ensures planner { IfErr result (λ tail. tail ≢ Tail.RunMemory) }
    ensures same { SameReader planner.old.reader planner.new.reader }
    ensures never_falls { S.faults source.old ≤ S.faults source.new }
    ensures cause { IsErrOf result (Tail.Fault ReadFault)
        → HasRisen (S.faults source.old) (S.faults source.new) }
{
    if !asked {
        return Ok(None);
    }
    let plan = match read_plan(alloc, &mut planner.reader, source) {
        Ok(plan) => plan,
        Err(tail) => return Err(tail),
    };
    planner.sent += 1;
    Ok(Some(Sent {
        number: planner.sent,
        layout: planner.layout,
        greatest: planner.reader.version().greatest(),
        plan,
    }))
}

/// Reads, plans and sends as long as it sees a free place, and returns the tail that it met.
///
/// It fills the places that it knew to be free, unless it meets a tail. If none is free it waits for one, though not for
/// long, as long as the runner is at work.
fn plan_ahead<A: EventApp, S: Source>(
    alloc: Global,
    meeting: &Meeting,
    planner: &mut Planner<A>,
    source: &mut S,
) -> Option<Tail>
    requires able { CanPlan A.table_count planner.old }
    ensures plans { HasPlanned A.event_of A.table_count
        planner.old (S.left source.old) result planner.new (S.left source.new) }
    ensures ring { SameProducer planner.old.ring planner.new.ring }
    ensures filled { IfNone result (HasFilled planner.old planner.new) }
    ensures able { IfNone result (CanPlan A.table_count planner.new) }
    ensures planner { IfSome result (λ tail. tail ≢ Tail.RunMemory) }
    ensures same { SameReader planner.old.reader planner.new.reader }
    ensures never_falls { S.faults source.old ≤ S.faults source.new }
    ensures cause { IfSome result (λ tail. tail ≡ Tail.Fault ReadFault
        → HasRisen (S.faults source.old) (S.faults source.new)) }
{
    'planning: loop {
        if !await_place(&mut planner.ring, meeting) {
            return None;
        }
        match read_plan(alloc, &mut planner.reader, source) {
            Ok(plan) => {
                planner.sent += 1;
                let number = planner.sent;
                planner.ring.push_reserved(Sent {
                    number,
                    layout: planner.layout,
                    greatest: planner.reader.version().greatest(),
                    plan,
                });
            }
            Err(tail) => return Some(tail),
        }
    }
}

/// The planner's half of a round: it plans ahead, or does nothing if a tail was met before.
pub(crate) fn plan_half<A: EventApp, S: Source>(
    alloc: Global,
    planning: bool,
    meeting: &Meeting,
    planner: &mut Planner<A>,
    source: &mut S,
) -> Option<Tail>
    requires able { IsTrue planning → CanPlan A.table_count planner.old }
    ensures plans { HasPlanned A.event_of A.table_count
        planner.old (S.left source.old) result planner.new (S.left source.new) }
    ensures ring { SameProducer planner.old.ring planner.new.ring }
    ensures filled { IsTrue planning → IfNone result (HasFilled planner.old planner.new) }
    ensures able { IsTrue planning → IfNone result (CanPlan A.table_count planner.new) }
    ensures idle { planning ≡ false
        → IsIdlePlanner planner.old (S.left source.old) result planner.new (S.left source.new) }
    ensures planner { IfSome result (λ tail. tail ≢ Tail.RunMemory) }
    ensures same { SameReader planner.old.reader planner.new.reader }
    ensures never_falls { S.faults source.old ≤ S.faults source.new }
    ensures cause { IfSome result (λ tail. tail ≡ Tail.Fault ReadFault
        → HasRisen (S.faults source.old) (S.faults source.new)) }
{
    if planning {
        let stop = plan_ahead(alloc, meeting, planner, source);
        meeting.planner_leaves();
        stop
    } else {
        None
    }
}
