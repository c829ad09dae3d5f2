ghost use Rattle.std.specs.Prelude.{◌≡◌, false, IfOk, OnOk, OnErr};
ghost use Rattle.morph_base.specs.Flat.{contents};
ghost use Rattle.morph_base.specs.Transactions.{IsBatch, BatchKeysIn, high_of_all, transactions_of};
ghost use Rattle.morph_base.specs.States.{IsUpTo, fold_batch};
ghost use Rattle.run_text.specs.Checks.{is_checked};
ghost use Rattle.run_text.specs.Settings.{AreInRange};
ghost use Rattle.morph_cli.specs.Batches.{IsEndOf};

use crate::checked::run_checked;
use crate::job::Host;
use crate::strategies::strategy_for;
use decision_model::Last;
use morph_base::{Batch, OutOfMemory};
use morph_engine::{BatchEnd, Engine};
use run_text::Settings;
use std::mem;
use std::thread::Threads;
use worker_gate::Gate;

/// Takes a batch, which has no event afterwards, makes its plan and runs it on the engine, with the workers of the
/// settings and the strategy that they ask for. No value of the state may be above the greatest value of the batch. If
/// its journal is to be checked, it is kept and checked. If memory is refused, the engine stays as it was, except if it
/// is refused to check a journal.
pub fn run_batch<R: Threads + Sync, G: Gate>(
    host: &Host<'_, R, G>,
    engine: &mut Engine,
    batch: &mut Batch,
    settings: &Settings,
    last: Last,
) -> Result<BatchEnd, OutOfMemory>
    requires settings { AreInRange settings.now }
    requires batch { IsBatch batch.old }
    requires keys { BatchKeysIn engine.old.layout batch.old }
    requires small { IsUpTo (high_of_all (transactions_of batch.old)) (contents engine.old) }
    ensures layout { engine.new.layout ≡ engine.old.layout }
    ensures state { OnOk result (contents engine.new ≡ fold_batch batch.old (contents engine.old)) }
    ensures ran { IfOk result (IsEndOf settings.now last engine.old batch.old) }
    ensures refused { is_checked settings.now.check ≡ false
        → OnErr result (engine.new ≡ engine.old) }
{
    let whole = mem::replace(batch, Batch::new(host.alloc));
    let plan = engine.plan(host.alloc, whole)?;
    let strategy = strategy_for(settings.planning, &plan, last);
    if settings.check.is_on() {
        return run_checked(host, engine, plan, &strategy);
    }
    let workers = settings.workers;
    engine.run_batch(host.rt, host.alloc, plan, &strategy, workers, host.gate)
}
