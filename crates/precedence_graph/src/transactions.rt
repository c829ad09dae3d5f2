ghost use Rattle.std.specs.Prelude.{◌≡◌, ◌+◌, ◌*◌, ◌<◌, ◌≤◌};
ghost use Rattle.morph_base.specs.declared.limits.TheConstants.{EVENT_OPS, EVENTS};
ghost use Rattle.txn_splitter.specs.Txns.{IsTxns, txn_count, txn_op_count, txn_at};

use txn_splitter::{TxnEvent, TxnEvents};

/// Event `i`, whose operations are in range.
pub fn event_at(txns: &TxnEvents, i: usize) -> TxnEvent
    requires txns { IsTxns txns.now }
    requires event { i < txn_count txns.now }
    ensures event { result ≡ txn_at txns.now i }
    ensures end { result.first + result.count ≤ txn_op_count txns.now }
    ensures few { txn_op_count txns.now ≤ EVENT_OPS * EVENTS }
{
    txns.get(i)
}
