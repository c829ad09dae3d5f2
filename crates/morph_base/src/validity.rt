//! Whether a batch that was put together by hand is valid, and has its keys in a layout.
ghost use Rattle.std.specs.Prelude.{◌≡◌, ◌<◌, ◌≤◌, ◌↔◌, length, take, drop, map, All, IsTrue, nat_eq};
ghost use Rattle.std.specs.List.{IsDistinct, list_any};
ghost use Rattle.morph_base.specs.Operations.{IsLimit, IsShaped, InLayout, reads, no_key, same_key};
ghost use Rattle.morph_base.specs.Transactions.{IsTransaction, IsBatch, HasHigh, high_of_all};
ghost use Rattle.morph_base.specs.Transactions.{BatchKeysIn, HasKeysIn, time, transaction_of, transactions_of};

use crate::batch::Batch;
use crate::event::Event;
use crate::key::{Key, Layout};
use crate::limits::{EVENT_OPS, EVENTS, FIRST_MAX, LATEST, MAX, READS};
use crate::op_span::OpSpan;
use crate::operation::Op;

impl Batch {
    /// Whether the batch is valid.
    ///
    /// It compares each time with all others, so it is meant for small batches that are put together by hand.
    pub fn is_valid(&self) -> bool
        ensures { IsTrue result ↔ IsBatch self.now }
    {
        self.len() <= EVENTS && are_transactions(self) && are_alike(self) && times_differ(self)
    }

    /// Whether all keys that its operations read or change are in the layout.
    pub fn has_keys_in(&self, layout: Layout) -> bool
        ensures { IsTrue result ↔ BatchKeysIn layout self.now }
    {
        'events: for i in 0..self.len() {
            if !has_keys_in(&self.event(i), layout) {
                return false;
            }
        }
        true
    }
}

/// Whether all events are valid.
fn are_transactions(batch: &Batch) -> bool
    ensures { IsTrue result ↔ All IsTransaction (transactions_of batch.now) }
{
    'events: for i in 0..batch.len() {
        if !is_transaction(&batch.event(i)) {
            return false;
        }
    }
    true
}

/// Whether the operations of all events have one greatest value.
fn are_alike(batch: &Batch) -> bool
    ensures { let es = transactions_of batch.now in
        IsTrue result ↔ All (HasHigh (high_of_all es)) es }
{
    let high = high_of(batch);
    'events: for i in 0..batch.len() {
        if !has_high(&batch.event(i), high) {
            return false;
        }
    }
    true
}

/// The greatest value of the first operation, or [`MAX`](crate::MAX) if there is none.
fn high_of(batch: &Batch) -> u64
    ensures { result ≡ high_of_all (transactions_of batch.now) }
{
    if batch.is_empty() {
        return MAX;
    }
    let ops = batch.event(0).ops;
    if ops.is_empty() { MAX } else { ops.get(0).high }
}

/// Whether all operations of an event have this greatest value.
fn has_high(event: &Event<'_>, high: u64) -> bool
    ensures { IsTrue result ↔ HasHigh high (transaction_of event.now) }
{
    'ops: for i in 0..event.ops.len() {
        if event.ops.get(i).high != high {
            return false;
        }
    }
    true
}

/// Whether an event is valid.
fn is_transaction(event: &Event<'_>) -> bool
    ensures { IsTrue result ↔ IsTransaction (transaction_of event.now) }
{
    let ops = &event.ops;
    0 < event.ts
        && event.ts <= LATEST
        && !ops.is_empty()
        && ops.len() <= EVENT_OPS
        && are_shaped(ops)
        && targets_differ(ops)
}

/// Whether all operations have a valid shape.
fn are_shaped(ops: &OpSpan<'_>) -> bool
    ensures { IsTrue result ↔ All IsShaped ops.now }
{
    'ops: for i in 0..ops.len() {
        if !is_shaped(&ops.get(i)) {
            return false;
        }
    }
    true
}

/// Whether an operation has a valid shape.
fn is_shaped(op: &Op) -> bool
    ensures { IsTrue result ↔ IsShaped op.now }
{
    if !is_within_limits(op) || op.n_params as usize >= READS {
        return false;
    }
    op.func.takes(op.n_params as usize) && is_blank_after_params(op)
}

/// Whether the greatest value of an operation is that of a version, and its constant and its floor are within it.
fn is_within_limits(op: &Op) -> bool
    ensures { IsTrue result ↔ ((op.now.c ≤ op.now.high) × (op.now.low ≤ op.now.high) × IsLimit op.now.high) }
{
    (op.high == FIRST_MAX || op.high == MAX) && op.c <= op.high && op.low <= op.high
}

/// Whether the places after the parameters of an operation hold no key.
fn is_blank_after_params(op: &Op) -> bool
    requires { op.now.n_params < READS }
    ensures held { op.now.n_params ≤ length op.now.params }
    ensures blank { IsTrue result ↔ All (λ key. key ≡ no_key) (drop op.now.n_params op.now.params) }
{
    op.params[op.n_params as usize..]
        .iter()
        .all(|key| is_no_key(key))
}

/// Whether the key is that of the places that are not used.
fn is_no_key(key: &Key) -> bool
    ensures { IsTrue result ↔ (key.now ≡ no_key) }
{
    *key == Key { table: 0, id: 0 }
}

/// Whether the targets of some operations differ.
fn targets_differ(ops: &OpSpan<'_>) -> bool
    ensures { IsTrue result ↔ IsDistinct same_key (map (λ op. op.key) ops.now) }
{
    'ops: for i in 0..ops.len() {
        if has_target(ops, i, ops.get(i).key) {
            return false;
        }
    }
    true
}

/// Whether one of the first `count` operations changes the key.
fn has_target(ops: &OpSpan<'_>, count: usize, key: Key) -> bool
    requires { count ≤ length ops.now }
    ensures { result ≡ list_any (same_key key) (map (λ op. op.key) (take count ops.now)) }
{
    'ops: for i in 0..count {
        if ops.get(i).key == key {
            return true;
        }
    }
    false
}

/// Whether the times of the events differ.
fn times_differ(batch: &Batch) -> bool
    ensures { IsTrue result ↔ IsDistinct nat_eq (map time (transactions_of batch.now)) }
{
    'events: for i in 0..batch.len() {
        if has_time(batch, i, batch.event(i).ts) {
            return false;
        }
    }
    true
}

/// Whether one of the first `count` events has the time.
fn has_time(batch: &Batch, count: usize, ts: u64) -> bool
    requires { count ≤ length (transactions_of batch.now) }
    ensures { result ≡ list_any (nat_eq ts) (map time (take count (transactions_of batch.now))) }
{
    'events: for i in 0..count {
        if batch.event(i).ts == ts {
            return true;
        }
    }
    false
}

/// Whether all keys of the event are in the layout.
fn has_keys_in(event: &Event<'_>, layout: Layout) -> bool
    ensures { IsTrue result ↔ HasKeysIn layout (transaction_of event.now) }
{
    'ops: for i in 0..event.ops.len() {
        if !reads_in(&event.ops.get(i), layout) {
            return false;
        }
    }
    true
}

/// Whether all keys that the operation reads are in the layout.
fn reads_in(op: &Op, layout: Layout) -> bool
    ensures { IsTrue result ↔ All (InLayout layout) (reads op.now) }
{
    let params = first(&op.params, usize::from(op.n_params));
    layout.contains(op.key) && are_in(params, layout)
}

/// The first `n` keys, or all of them if there are fewer.
fn first(keys: &[Key], n: usize) -> &[Key]
    ensures { result.now ≡ take n keys.now }
{
    &keys[..n.min(keys.len())]
}

/// Whether all these keys are in the layout.
fn are_in(keys: &[Key], layout: Layout) -> bool
    ensures { IsTrue result ↔ All (InLayout layout) keys.now }
{
    keys.iter().all(|key| layout.contains(*key))
}
