//! The fold of a batch, done as its definition says: the events one at a time by rising timestamp, on plain values.
//!
//! It has no graph and no second try. It is slow and short, and every other way of running a batch is compared with it.
ghost use Rattle.std.specs.Prelude.{◌≡◌, ℕ, ◌+◌, ◌<◌, ◌≤◌, Bool, true, false, List, [], ◌∷◌, length, map};
ghost use Rattle.std.specs.Prelude.{unwrap_or, All, IfOk, IfSome, OnOk, OnErr, MatchOption};
ghost use Rattle.morph_base.specs.Operations.{IsShaped, InLayout, reads};
ghost use Rattle.morph_base.specs.Transactions.{IsBatch, IsTransaction, BatchKeysIn, HasKeysIn};
ghost use Rattle.morph_base.specs.Transactions.{transaction_of, transactions_of, targets, by_time};
ghost use Rattle.morph_base.specs.States.{answer as answer_in, all_answer, commits, after, fold_batch, IsAfterSome};
ghost use Rattle.morph_base.specs.Outcomes.{fate, fate_of, fates};
ghost use Rattle.morph_base.specs.Flat.{contents, put_all};

use crate::batch::Batch;
use crate::evaluation::eval;
use crate::event::Event;
use crate::limits::{MAX, READS};
use crate::list::List;
use crate::memory::OutOfMemory;
use crate::operation::Op;
use crate::outcome::Outcome;
use crate::values::Values;
use std::alloc::Global;

/// Folds a batch into the values, and returns the outcome of each event, by rising timestamp.
///
/// The batch is valid, and its keys are in the layout of the values. If memory is refused, the values are those after
/// the first few events by rising timestamp.
pub fn fold(alloc: Global, values: &mut Values, batch: &Batch) -> Result<List<Outcome>, OutOfMemory>
    requires batch { IsBatch batch.now }
    requires keys { BatchKeysIn values.old.layout batch.now }
    ensures layout { values.new.layout ≡ values.old.layout }
    ensures state { OnOk result (contents values.new ≡ fold_batch batch.now (contents values.old)) }
    ensures refused { OnErr result
        (IsAfterSome (contents values.old) (by_time (transactions_of batch.now))
        (contents values.new)) }
    ensures fates { IfOk result (λ outcomes. map fate_of outcomes.items
        ≡ fates (contents values.old) (by_time (transactions_of batch.now))) }
{
    let events = batch.by_time(alloc)?;
    let mut outcomes = List::with_room(alloc, events.len())?;
    for event in &events {
        outcomes.add(apply(alloc, values, event)?);
    }
    Ok(outcomes)
}

/// Does one event. If it aborts or memory is refused, the values stay as they were.
fn apply(alloc: Global, values: &mut Values, event: &Event<'_>) -> Result<Outcome, OutOfMemory>
    requires event { IsTransaction (transaction_of event.now) }
    requires keys { HasKeysIn values.old.layout (transaction_of event.now) }
    ensures layout { values.new.layout ≡ values.old.layout }
    ensures state { OnOk result
        (contents values.new ≡ after (contents values.old) (transaction_of event.now)) }
    ensures fate { IfOk result
        (λ outcome. fate_of outcome ≡ fate (contents values.old) (transaction_of event.now)) }
    ensures refused { OnErr result (values.new ≡ values.old) }
{
    let ops = event.ops.to_list(alloc)?;
    let mut after = List::with_room(alloc, ops.len())?;
    let committed = transact(alloc, values, event, ops.as_slice())?;
    read_targets(values, ops.as_slice(), &mut after);
    Ok(Outcome {
        ts: event.ts,
        committed,
        values: after,
    })
}

/// Changes the values by an event, which has these operations, and says whether it committed.
fn transact(
    alloc: Global,
    values: &mut Values,
    event: &Event<'_>,
    ops: &[Op],
) -> Result<bool, OutOfMemory>
    requires ops { ops.now ≡ event.now.ops }
    requires event { IsTransaction (transaction_of event.now) }
    requires keys { HasKeysIn values.old.layout (transaction_of event.now) }
    ensures layout { values.new.layout ≡ values.old.layout }
    ensures committed { IfOk result (λ committed. committed
        ≡ commits (contents values.old) (transaction_of event.now)) }
    ensures state { OnOk result
        (contents values.new ≡ after (contents values.old) (transaction_of event.now)) }
    ensures refused { OnErr result (values.new ≡ values.old) }
{
    match answers(alloc, values, ops)? {
        Some(answers) => {
            write(values, ops, answers.as_slice());
            Ok(true)
        }
        None => Ok(false),
    }
}

/// The answers of the operations, all on the present values, or `None` if one fails.
fn answers(alloc: Global, values: &Values, ops: &[Op]) -> Result<Option<List<u64>>, OutOfMemory>
    requires shaped { All IsShaped ops.now }
    requires keys { All (λ op. All (InLayout values.now.layout) (reads op)) ops.now }
    ensures answers { IfOk result
        (λ r. MatchOption r (all_answer (contents values.now) ops.now ≡ false) (λ answers.
        (all_answer (contents values.now) ops.now ≡ true)
        × (answers.items ≡ map
        (λ op. unwrap_or (answer_in (contents values.now) op) (contents values.now op.key)) ops.now)
        × All (λ v. v ≤ MAX) answers.items)) }
{
    let mut answers = List::with_room(alloc, ops.len())?;
    for op in ops {
        match answer(values, op) {
            Some(value) => answers.add(value),
            None => return Ok(None),
        }
    }
    Ok(Some(answers))
}

/// What an operation answers on the present values.
fn answer(values: &Values, op: &Op) -> Option<u64>
    requires shaped { IsShaped op.now }
    requires keys { All (InLayout values.now.layout) (reads op.now) }
    ensures value { result ≡ answer_in (contents values.now) op.now }
    ensures small { IfSome result (λ v. v ≤ MAX) }
{
    let mut xs = [values.get(op.key); READS];
    let params = usize::from(op.n_params);
    for j in 0..params {
        xs[j + 1] = values.get(op.params[j]);
    }
    eval(op, &xs[..params + 1])
}

/// Puts each answer at its operation's target, the last one first.
fn write(values: &mut Values, ops: &[Op], answers: &[u64])
    requires len { length answers.now ≡ length ops.now }
    requires keys { All (λ op. All (InLayout values.old.layout) (reads op)) ops.now }
    requires small { All (λ v. v ≤ MAX) answers.now }
    ensures layout { values.new.layout ≡ values.old.layout }
    ensures state { contents values.new ≡ put_all (contents values.old)
        (map (λ op. op.key) ops.now) answers.now }
{
    if let [op, ..] = ops {
        write(values, &ops[1..], &answers[1..]);
        values.put(op.key, answers[0]);
    }
}

/// Adds the present values of the operations' targets.
fn read_targets(values: &Values, ops: &[Op], found: &mut List<u64>)
    requires keys { All (λ op. All (InLayout values.now.layout) (reads op)) ops.now }
    requires empty { found.old.items ≡ [] }
    requires room { length ops.now ≤ found.old.room }
    ensures { found.new.items ≡ map (λ op. contents values.now op.key) ops.now }
{
    for op in ops {
        found.add(values.get(op.key));
    }
}
