ghost use Rattle.std.specs.Prelude.{◌≡◌, ◌-◌, ◌<◌, ◌≤◌, ◌↔◌, ◌++◌, [], ◌∷◌, length, map, slice_index_or};
ghost use Rattle.std.specs.Prelude.{IfOk, IfSome, IsTrue, OnOk, OnErr};
ghost use Rattle.std.specs.List.{flat_map};
ghost use Rattle.morph_base.specs.Transactions.{transaction, transaction_of, transactions_of, no_transaction};
ghost use Rattle.morph_base.specs.Transactions.{by_time, kept_ops, IsBatch};

use super::{Batch, BatchRoom, EventHead};
use crate::event::Event;
use crate::event_ops::EventOps;
use crate::list::List;
use crate::memory::OutOfMemory;
use crate::op_rows::OpRows;
use crate::op_span::OpSpan;
use crate::operation::Op;
use std::alloc::Global;

/// A number and a quarter of it.
fn a_quarter_more(n: usize) -> usize {
    n.saturating_add(n / 4)
}

/// Appends an event that has the operations from number `first` to the one before `end`.
fn push_head(
    heads: &mut List<EventHead>,
    ts: u64,
    first: usize,
    end: usize,
) -> Result<(), OutOfMemory>
    requires { first ≤ end }
    ensures items { OnOk result (heads.new.items
        ≡ heads.old.items ++ record { ts = ts; first = first; count = end - first } ∷ []) }
    ensures refused { OnErr result (heads.new.items ≡ heads.old.items) }
{
    let count = end - first;
    heads.push(EventHead { ts, first, count })
}

impl Batch {
    /// A batch without events, which takes no memory.
    pub fn new(alloc: Global) -> Self
        ensures { transactions_of result ≡ [] }
    {
        Batch {
            heads: List::new(alloc),
            ops: OpRows::new(alloc),
        }
    }

    /// A batch without events, with memory for as much as another one had.
    pub fn with_room(alloc: Global, room: BatchRoom) -> Result<Self, OutOfMemory>
        ensures { IfOk result (λ batch. transactions_of batch ≡ []) }
    {
        Ok(Batch {
            heads: List::with_room(alloc, room.events)?,
            ops: OpRows::with_room(alloc, room.ops, room.keys)?,
        })
    }

    /// Room for a batch like this one, and a quarter more.
    pub fn room(&self) -> BatchRoom {
        BatchRoom {
            events: a_quarter_more(self.heads.len()),
            ops: a_quarter_more(self.ops.len()),
            keys: a_quarter_more(self.ops.key_count()),
        }
    }

    /// How many events it has.
    pub fn len(&self) -> usize
        ensures { result ≡ length (transactions_of self.now) }
    {
        self.heads.len()
    }

    /// Whether it has no event.
    pub fn is_empty(&self) -> bool
        ensures { IsTrue result ↔ (transactions_of self.now ≡ []) }
    {
        self.heads.is_empty()
    }

    /// Appends an event, with a copy of its operations. If memory is refused, or all operations together would have more
    /// than 2^32 keys, which take 32 GiB, the batch has the events that it had.
    pub fn push(&mut self, ts: u64, ops: &[Op]) -> Result<(), OutOfMemory>
        ensures events { OnOk result (transactions_of self.new
            ≡ transactions_of self.old ++ transaction ts ops.now ∷ []) }
        ensures refused { OnErr result (transactions_of self.new ≡ transactions_of self.old) }
    {
        let first = self.ops.len();
        self.ops.extend_from_slice(ops)?;
        push_head(&mut self.heads, ts, first, self.ops.len())
    }

    /// The same for operations that an application has collected, with no look at each of them.
    pub fn push_event(&mut self, ts: u64, ops: &EventOps) -> Result<(), OutOfMemory>
        ensures events { OnOk result (transactions_of self.new
            ≡ transactions_of self.old ++ transaction ts ops.now ∷ []) }
        ensures refused { OnErr result (transactions_of self.new ≡ transactions_of self.old) }
    {
        let first = self.ops.len();
        self.ops.append(ops)?;
        push_head(&mut self.heads, ts, first, self.ops.len())
    }

    /// Event `i` in order of arrival, from 0.
    pub fn event(&self, i: usize) -> Event<'_>
        requires { i < length (transactions_of self.now) }
        ensures { transaction_of result ≡ slice_index_or (transactions_of self.now) i no_transaction }
    {
        let EventHead { ts, first, count } = *self.heads.get(i);
        Event {
            ts,
            ops: OpSpan {
                rows: &self.ops,
                first,
                count,
            },
        }
    }

    /// Whether the events came by rising timestamp, and nothing else stands among their operations. What a refused push
    /// left may stand there.
    pub fn is_rising(&self) -> bool
        requires { IsBatch self.now }
        ensures ops { IsTrue result
            → kept_ops self.now ≡ flat_map (λ e. e.ops) (transactions_of self.now) }
        ensures order { IsTrue result
            → by_time (transactions_of self.now) ≡ transactions_of self.now }
    {
        let mut end = 0;
        let mut latest = 0;
        for head in self.heads.as_slice() {
            if head.first != end || head.ts < latest {
                return false;
            }
            end += head.count;
            latest = head.ts;
        }
        end == self.ops.len()
    }

    /// The operations of all events, as they came, and what a refused push left among them.
    pub fn into_ops(self) -> OpRows
        ensures { result ≡ kept_ops self }
    {
        let Batch { heads: _, ops } = self;
        ops
    }

    /// No operations, with memory for as many as this batch has.
    pub fn room_for_ops(&self, alloc: Global) -> Result<OpRows, OutOfMemory>
        ensures { IfOk result (λ rows. rows ≡ []) }
    {
        OpRows::with_room(alloc, self.ops.len(), self.ops.key_count())
    }

    /// The events by rising timestamp.
    pub fn by_time(&self, alloc: Global) -> Result<Vec<Event<'_>>, OutOfMemory>
        requires { IsBatch self.now }
        ensures { IfOk result (λ events. map transaction_of events.items
            ≡ by_time (transactions_of self.now)) }
    {
        let mut events: Vec<Event<'_>> = Vec::with_capacity(alloc, self.len())?;
        'arrived: for i in 0..self.len() {
            events.push(self.event(i))?;
        }
        events.sort_by_key(|e| e.ts)?;
        Ok(events)
    }
}
