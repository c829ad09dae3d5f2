ghost use Rattle.std.specs.Prelude.{◌≡◌, ◌<◌, length, slice_index_or};
ghost use Rattle.morph_base.specs.Transactions.{no_transaction};
ghost use Rattle.txn_splitter.specs.TxnViews.{in_order};

use morph_base::{Batch, Event};

/// The events of a batch by rising timestamp.
#[derive(Debug, Drop)]
pub(crate) enum Order<'a> {
    /// They came in this order.
    AsTheyCame(&'a Batch),
    /// They came in another one.
    Sorted(Vec<Event<'a>>),
}

/// The timestamp of an event, and how many operations it has.
fn head_of(event: &Event<'_>) -> (u64, usize)
    ensures ts { result.0 ≡ event.now.ts }
    ensures count { result.1 ≡ length event.now.ops }
{
    (event.ts, event.ops.len())
}

impl<'a> Order<'a> {
    /// The timestamp of event `i`, and how many operations it has.
    pub(crate) fn event(&self, i: usize) -> (u64, usize)
        requires { i < length (in_order self.now) }
        ensures ts { result.0 ≡ (slice_index_or (in_order self.now) i no_transaction).ts }
        ensures count { result.1 ≡ length (slice_index_or (in_order self.now) i no_transaction).ops }
    {
        match self {
            Order::AsTheyCame(batch) => head_of(&batch.event(i)),
            Order::Sorted(events) => head_of(&events[i]),
        }
    }
}
