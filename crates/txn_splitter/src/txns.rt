ghost use Rattle.std.specs.Prelude.{◌≡◌};
ghost use Rattle.txn_splitter.specs.TxnViews.{numbered};

use crate::txn_events::{TxnEvent, TxnEvents};
use morph_base::{List, OpRows};
use std::marker::Model;

/// A batch cut into transactions: its events by rising timestamp, and their operations.
///
/// Events and operations are numbered from 0, operations by event and then by operation order. Contracts see the
/// events, the operations of all events in one list, and for each operation the number of its event.
pub struct Txns {
    events: TxnEvents,
    ops: OpRows,
}

// Not derived: see "What costs" in docs/CONTRIBUTING.md.
impl Drop for Txns {
    fn drop(self) {
        let Txns { events: _, ops: _ } = self;
    }
}

impl Model for Txns {
    ghost use Rattle.std.specs.Prelude.{◌≡◌};
    ghost use Rattle.txn_splitter.specs.Txns.{NumberedTxns};

    ghost Value = { NumberedTxns };

    ghost view = { λ txns. txns.events };

    ghost invariant = { λ txns. txns.events.ops ≡ txns.ops };
}

impl Txns {
    /// These events, whose operations are these.
    pub(crate) fn of(events: List<TxnEvent>, ops: OpRows) -> Self
        ensures { result ≡ numbered events.items ops }
    {
        Txns {
            events: TxnEvents::of(events, &ops),
            ops,
        }
    }

    /// The events.
    pub fn events(&self) -> &TxnEvents
        ensures { result.now ≡ self.now }
    {
        &self.events
    }

    /// The operations of all events, one event after another.
    pub fn ops(&self) -> &OpRows
        ensures { result.now ≡ self.now.ops }
    {
        &self.ops
    }

    /// The events and the operations apart, so that a plan can take the operations over as they lie in memory.
    pub fn into_parts(self) -> (TxnEvents, OpRows)
        ensures events { result.0 ≡ self }
        ensures ops { result.1 ≡ self.ops }
    {
        let Txns { events, ops } = self;
        (events, ops)
    }
}
