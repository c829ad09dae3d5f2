ghost use Rattle.std.specs.Prelude.{◌≡◌, ◌+◌, ◌^◌, ◌<◌, ◌≤◌, ◌⊎◌, [], length, IfSome, IsErrOf, IsSome, IsTrue, OnOk};
ghost use Rattle.morph_base.specs.Flat.{contents};
ghost use Rattle.morph_base.specs.Plans.{IsPlan, HasBases, PlanKeysIn, IsSettledOf};
ghost use Rattle.morph_base.specs.States.{IsUpTo};
ghost use Rattle.morph_base.specs.Transactions.{IsBatch, BatchKeysIn, high_of_all, transactions_of};
ghost use Rattle.morph_engine.specs.Accounts.{Account, account_of};
ghost use Rattle.morph_engine.specs.Fates.{settled_fates};
ghost use Rattle.morph_io.specs.Told.{HasRisen};
ghost use Rattle.run_text.specs.Checks.{is_checked};
ghost use Rattle.run_text.specs.Counts.{CountsBatch, HasRoom};
ghost use Rattle.run_text.specs.Settings.{AreInRange};
ghost use Rattle.snapshot_reader.specs.Batches.{after_plans};
ghost use Rattle.morph_cli.specs.Batches.{IsShown, TakesBatch, TellsBatch, run_point};
ghost use Rattle.morph_cli.specs.Outputs.{has_notes, outputs_of};
ghost use Rattle.morph_cli.specs.Tallies.{IsSoundAccount};

use crate::fault::Fault;
use crate::job::Job;
use crate::progress::Progress;
use crate::tell::tell_counted;
use crate::watch::{Watched, publish, run_watched};
use event_reader::EventApp;
use morph_base::Batch;
use morph_io::Sink;
use run_text::Tally;
use std::sync::Wait;
use std::thread::Threads;
use worker_gate::Gate;

/// Runs a batch, writes and counts it, and publishes it if the balances are watched.
pub fn take_batch<R: Threads + Wait + Sync, A: EventApp, K: Sink, N: Sink, G: Gate>(
    job: &Job<'_, A, R, G>,
    progress: &mut Progress<A>,
    batch: &mut Batch,
    sink: &mut K,
    notes: &mut N,
    tally: &mut Tally,
) -> Result<(), Fault>
    requires settings { AreInRange job.now.settings }
    requires batch { IsBatch batch.old }
    requires keys { BatchKeysIn progress.old.engine.layout batch.old }
    requires small { IsUpTo (high_of_all (transactions_of batch.old)) (contents progress.old.engine) }
    requires empty { progress.old.out ≡ [] }
    requires room { (a : Account) → IsPlan a.plan → IsSoundAccount job.now.settings.workers a
        → HasRoom tally.old a }
    requires few { tally.old.batches + 1 < 2 ^ 64 }
    requires shown { IfSome progress.old.watching (IsShown progress.old.engine.layout
        tally.old.batches (contents progress.old.engine)) }
    requires watch { IsSome progress.old.watching → IsTrue job.now.settings.watch }
    ensures takes { TakesBatch result job.now.settings batch.old
        (run_point progress.old.last progress.old.engine progress.old.watching tally.old
        (outputs_of (K.written sink.old) (N.written notes.old)))
        (run_point progress.new.last progress.new.engine progress.new.watching tally.new
        (outputs_of (K.written sink.new) (N.written notes.new))) }
    ensures reader { progress.new.reader ≡ progress.old.reader }
    ensures layout { progress.new.engine.layout ≡ progress.old.engine.layout }
    ensures empty { OnOk result (progress.new.out ≡ []) }
    ensures sink_faults { K.faults sink.old ≤ K.faults sink.new }
    ensures notes_faults { N.faults notes.old ≤ N.faults notes.new }
    ensures steady { (IsErrOf result Fault.Write → ⊥) → (K.faults sink.new ≡ K.faults sink.old)
        × (N.faults notes.new ≡ N.faults notes.old) }
    ensures cause { IsErrOf result Fault.Write → HasRisen (K.faults sink.old) (K.faults sink.new)
        ⊎ (IsTrue (has_notes job.now.settings)
        × HasRisen (N.faults notes.old) (N.faults notes.new)) }
{
    let (host, settings, last) = (job.host, &job.settings, progress.last);
    let watching = &mut progress.watching;
    let engine = &mut progress.engine;
    let ran = run_watched(host, watching, engine, batch, settings, last)?;
    tell_and_publish(job, progress, &ran, sink, notes, tally)
}

/// Writes and counts a batch that was run, and publishes it if the balances are watched. The result is lent, so that it
/// is dropped in one place.
fn tell_and_publish<R: Threads + Wait, A: EventApp, K: Sink, N: Sink, G>(
    job: &Job<'_, A, R, G>,
    progress: &mut Progress<A>,
    ran: &Watched,
    sink: &mut K,
    notes: &mut N,
    tally: &mut Tally,
) -> Result<(), Fault>
    requires empty { progress.old.out ≡ [] }
    requires plan { IsPlan ran.now.end.plan }
    requires settled { IsSettledOf ran.now.end.plan ran.now.end.settled }
    requires room { HasRoom tally.old (account_of ran.now.end) }
    requires keys { IfSome progress.old.watching
        (λ posted. PlanKeysIn ran.now.end.plan posted.layout) }
    requires bases { IfSome progress.old.watching
        (λ posted. HasBases ran.now.end.plan (after_plans posted.plans)) }
    requires few { IfSome progress.old.watching (λ posted. length posted.plans + 1 < 2 ^ 64) }
    ensures adds { CountsBatch tally.old tally.new (account_of ran.now.end)
        (settled_fates ran.now.end.plan ran.now.end.settled) }
    ensures tells { TellsBatch result job.now.settings ran.now.end ran.now.audit
        (run_point progress.old.last progress.old.engine progress.old.watching tally.old
        (outputs_of (K.written sink.old) (N.written notes.old)))
        (run_point progress.new.last progress.new.engine progress.new.watching tally.new
        (outputs_of (K.written sink.new) (N.written notes.new))) }
    ensures engine { progress.new.engine ≡ progress.old.engine }
    ensures reader { progress.new.reader ≡ progress.old.reader }
    ensures empty { OnOk result (progress.new.out ≡ []) }
    ensures sink_faults { K.faults sink.old ≤ K.faults sink.new }
    ensures notes_faults { N.faults notes.old ≤ N.faults notes.new }
    ensures steady { (IsErrOf result Fault.Write → ⊥) → (K.faults sink.new ≡ K.faults sink.old)
        × (N.faults notes.new ≡ N.faults notes.old) }
    ensures cause { IsErrOf result Fault.Write → HasRisen (K.faults sink.old) (K.faults sink.new)
        ⊎ (((IsSome ran.now.audit) ⊎ ((IsTrue job.now.settings.notes)
        ⊎ IsTrue (is_checked job.now.settings.check)))
        × HasRisen (N.faults notes.old) (N.faults notes.new)) }
{
    let (host, settings) = (job.host, &job.settings);
    let (rt, alloc, out) = (host.rt, host.alloc, &mut progress.out);
    progress.last = tell_counted(rt, alloc, out, sink, notes, settings, tally, ran)?;
    publish(host.rt, host.alloc, &mut progress.watching, &ran.end)?;
    Ok(())
}
