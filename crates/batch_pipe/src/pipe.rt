ghost use Rattle.std.specs.Prelude.{◌≡◌, ◌+◌, ◌≤◌, ◌↔◌, ◌++◌, length, Some, None, IfOk, IsTrue};
ghost use Rattle.morph_base.specs.Limits.{most_workers};
ghost use Rattle.morph_base.specs.Flat.{contents};
ghost use Rattle.morph_base.specs.States.{IsUpTo};
ghost use Rattle.morph_io.specs.Told.{HasRisen};
ghost use Rattle.event_reader.specs.Limits.{input_bytes};
ghost use Rattle.event_reader.specs.Versions.{greatest_of};
ghost use Rattle.event_reader.specs.declared.fault.ReaderFault.TheVariants.{ReadFault};
ghost use Rattle.rtrb.specs.Ring.{sent, received, known_items, known_free, producer_capacity, IsPair};
ghost use Rattle.rtrb.specs.Ring.{SameProducer, SameConsumer};
ghost use Rattle.batch_pipe.specs.PlannedBatches.{layout_by};
ghost use Rattle.batch_pipe.specs.PlanRuns.{manner};
ghost use Rattle.batch_pipe.specs.PipeRounds.{IsGoing, IsRound, IsUncut, new_pipe, number_before};

use crate::halves::run_halves;
use crate::items::{Picker, ReadyPlans, Sent};
use crate::planner::{Planner, read_first};
use crate::runner::{Host, Runner};
use crate::tail::{Tail, tail_after};
use crate::teller::Teller;
use decision_model::Last;
use event_reader::{BatchReader, EventApp};
use morph_base::OutOfMemory;
use morph_engine::Engine;
use morph_io::Source;
use rtrb::{Consumer, Producer, RingBuffer};
use std::alloc::Global;
use std::marker::Model;
use std::thread::Threads;
use worker_gate::Gate;

/// Batches that are read and planned ahead of the one that is run.
///
/// Contracts see its reader, its engine, the plans that wait in its ring, how many plans were sent, the outcome of the
/// batch that was run last, the tail, and how many plans can wait.
#[derive(Drop)]
pub struct Pipe<A: EventApp> {
    planner: Planner<A>,
    runner: Runner,
    tail: Option<Tail>,
}

impl<A: EventApp> Model for Pipe<A> {
    ghost use Rattle.batch_pipe.specs.PipeRounds.{PipeView};

    ghost Value = { PipeView A };

    ghost use Rattle.batch_pipe.specs.Inside.{IsPipe, view_of};

    ghost view = { view_of };

    ghost invariant = { λ pipe. IsPipe A.table_count pipe };
}

/// Brings the two ends of the ring together: the one that pops then knows all that was pushed, and the one that pushes
/// each free place.
fn bring_together(
    producer: &mut Producer<Sent, Global, ReadyPlans>,
    consumer: &mut Consumer<Sent, Global, ReadyPlans>,
)
    requires { IsPair producer.old consumer.old }
    ensures pair { IsPair producer.new consumer.new }
    ensures sending { SameProducer producer.old producer.new
        × (sent producer.new ≡ sent producer.old) }
    ensures receiving { SameConsumer consumer.old consumer.new
        × (received consumer.new ≡ received consumer.old) }
    ensures fifo { received consumer.new ++ known_items consumer.new ≡ sent producer.new }
    ensures room { length (known_items consumer.new) ≤ producer_capacity producer.new }
    ensures free { producer_capacity producer.new
        ≤ known_free producer.new + length (known_items consumer.new) }
{
    producer.slots_beside(consumer);
    consumer.slots_beside(producer);
}

/// Whether a batch is read before the halves begin: if no plan waits and there is no tail.
fn asks_first(planning: bool, waiting: usize) -> bool
    ensures { IsTrue result ↔ (IsTrue planning × (waiting ≡ 0)) }
{
    planning && waiting == 0
}

impl<A: EventApp> Pipe<A> {
    /// A pipe of one plan or two that wait while another is run, over a reader and an engine for the same application.
    ///
    /// No value of the engine's state may be above the greatest value of the reader's version.
    pub fn new(
        alloc: Global,
        reader: BatchReader<A>,
        engine: Engine,
        ahead: u32,
    ) -> Result<Self, OutOfMemory>
    where
        A: Drop,
        requires some { 1 ≤ ahead }
        requires few { ahead ≤ 2 }
        requires live { IsTrue reader.live }
        requires layout { engine.layout ≡ layout_by A.table_count reader }
        requires small { IsUpTo (greatest_of reader.past.version) (contents engine) }
        ensures { IfOk result (λ pipe. pipe ≡ new_pipe reader engine ahead) }
    {
        let (producer, consumer) = RingBuffer::with_protocol(alloc, ahead as usize)?;
        Ok(Pipe {
            planner: Planner {
                reader,
                layout: engine.state().layout(),
                ring: producer,
                sent: 0,
            },
            runner: Runner {
                engine,
                ring: consumer,
                last: Last {
                    events: 0,
                    aborted: 0,
                },
            },
            tail: None,
        })
    }

    /// Why no further batch comes, once that was met.
    pub fn tail(&self) -> Option<Tail>
        ensures { result ≡ self.now.tail }
    {
        self.tail
    }

    /// The engine, in the state after the batches that were run.
    pub fn engine(&self) -> &Engine
        ensures { result.now ≡ self.now.engine }
    {
        &self.runner.engine
    }

    /// Whether there is more to do: a plan waits or there is no tail, no run was refused memory, and the teller refused
    /// no result.
    pub fn going(&self) -> bool
        ensures going { IsTrue result ↔ IsGoing self.now }
        ensures bound { self.now.reader.lines.number ≤ self.now.reader.lines.limit + 1 }
        ensures limit { self.now.reader.lines.limit ≤ input_bytes }
    {
        let reads = self.planner.reader.live() && self.tail.is_none();
        (reads || self.runner.ring.cached_slots() > 0)
            && self.tail != Some(Tail::RunMemory)
            && self.tail != Some(Tail::Untold)
    }

    /// One round: the next batches are read and planned while the plans that wait are run, from 1 to 16 workers each.
    ///
    /// If no plan waits and there is no tail, one batch is read and planned first, and its plan goes to the runner
    /// without the ring. Then two halves run side by side, or one after the other if the first plan is small or a tail
    /// was met. The planner reads, plans and sends until it meets a tail or sees no free place; it fills at least the
    /// places that were free when the halves began. The runner takes the plans that waited then, in order, and those
    /// that come while the planner is at work. It picks the strategy of each, and hands each result to the teller, in
    /// the caller's thread, before it takes the next plan. Side by side, each half waits for the other, but for no
    /// longer than some milliseconds. If one plan can wait, no result goes to the teller later because the next
    /// batch has not come. If two can, the planner fills both places before the round ends, so a plan may wait for one further batch.
    ///
    /// If memory to run a plan is refused, the tail is [`Tail::RunMemory`], whatever tail the planner met. That plan is
    /// dropped, and the engine stays as it was before it. If the teller refuses a result, the tail is [`Tail::Untold`].
    /// That plan was run, and those behind it stay. If memory for planning is refused, the tail is that of the reader,
    /// and the batch is not sent.
    pub fn round<R: Threads + Sync, S: Source + Send, G: Gate, T: Teller>(
        &mut self,
        rt: &R,
        alloc: Global,
        source: &mut S,
        pick: &Picker,
        workers: u32,
        gate: &G,
        teller: &mut T,
    )
    where
        A: Send,
        requires going { IsGoing self.old }
        requires next { T.can_take teller.old (number_before self.old + 1) }
        requires some { 1 ≤ workers }
        requires few { workers ≤ most_workers }
        ensures round { IsRound A.event_of T.takes (manner pick.now workers)
            self.old (S.left source.old) teller.old self.new (S.left source.new) teller.new }
        ensures next { IsUncut self.new.tail → T.can_take teller.new (number_before self.new + 1) }
        ensures never_falls { S.faults source.old ≤ S.faults source.new }
        ensures cause { self.old.tail ≡ None → self.new.tail ≡ Some (Tail.Fault ReadFault)
            → HasRisen (S.faults source.old) (S.faults source.new) }
    {
        let planning = self.tail.is_none();
        let asked = asks_first(planning, self.runner.ring.cached_slots());
        let first = match read_first(alloc, asked, &mut self.planner, source) {
            Ok(first) => first,
            Err(tail) => {
                self.tail = Some(tail);
                return;
            }
        };
        let reads = self.planner.reader.live();
        prove!(reads || !planning);
        let host = Host {
            rt,
            alloc,
            gate,
            pick: *pick,
            workers,
            sent: self.planner.sent,
            greatest: self.planner.reader.version().greatest(),
        };
        let (stop, end) = run_halves(
            &host,
            planning,
            &mut self.planner,
            source,
            &mut self.runner,
            teller,
            first,
        );
        bring_together(&mut self.planner.ring, &mut self.runner.ring);
        self.tail = tail_after(self.tail, stop, end);
    }
}
