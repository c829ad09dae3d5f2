ghost use Rattle.std.specs.Prelude.{◌≡◌, ◌<◌, length, slice_index_or};
ghost use Rattle.txn_splitter.specs.Txns.{no_txn};
ghost use Rattle.txn_splitter.specs.TxnViews.{numbered};

use morph_base::{List, OpRows};
use std::marker::Model;
use std::snapshot::Snapshot;

/// An event of a split batch. Its operations are those numbered from `first` on, `count` of them.
#[derive(Clone, Copy, Debug, PartialEq, Eq)]
pub struct TxnEvent {
    /// The timestamp, from 1 to [`LATEST`](morph_base::LATEST), rising from event to event.
    pub ts: u64,
    /// The number of its first operation.
    pub first: u32,
    /// How many operations it has, from 1 to [`EVENT_OPS`](morph_base::EVENT_OPS).
    pub count: u32,
}

/// The events of a split batch, whose operations lie elsewhere. Contracts see the operations too, as they were when the
/// batch was split.
pub struct TxnEvents {
    events: List<TxnEvent>,
    ops: Snapshot<OpRows>,
}

// Not derived: see "What costs" in docs/CONTRIBUTING.md.
impl Drop for TxnEvents {
    fn drop(self) {
        let TxnEvents { events: _, ops: _ } = self;
    }
}

impl Model for TxnEvents {
    ghost use Rattle.txn_splitter.specs.Txns.{NumberedTxns};
    ghost use Rattle.txn_splitter.specs.TxnViews.{numbered};

    ghost Value = { NumberedTxns };

    ghost view = { λ txns. numbered txns.events.items txns.ops.value };
}

impl TxnEvents {
    /// These events, whose operations are these.
    pub(crate) fn of(events: List<TxnEvent>, ops: &OpRows) -> Self
        ensures { result ≡ numbered events.items ops.now }
    {
        TxnEvents {
            events,
            ops: Snapshot::of(ops),
        }
    }

    /// How many events there are.
    pub fn len(&self) -> usize
        ensures { result ≡ length self.now.events }
    {
        self.events.len()
    }

    /// Event `i`.
    pub fn get(&self, i: usize) -> TxnEvent
        requires { i < length self.now.events }
        ensures { result ≡ slice_index_or self.now.events i no_txn }
    {
        *self.events.get(i)
    }
}
