ghost use Rattle.std.specs.Prelude.{◌≡◌, ◌≤◌, ◌⊎◌, [], ◌++◌, length, IfOk, IsSome, IsTrue, OnOk, OnErr};
ghost use Rattle.morph_base.specs.declared.limits.TheConstants.{WORKERS};
ghost use Rattle.morph_base.specs.Flat.{contents};
ghost use Rattle.morph_base.specs.Plans.{IsPlan, IsSettledOf};
ghost use Rattle.decision_model.specs.Choices.{last_of};
ghost use Rattle.morph_engine.specs.Accounts.{account_of};
ghost use Rattle.morph_engine.specs.Fates.{settled_fates};
ghost use Rattle.morph_io.specs.Told.{HasRisen};
ghost use Rattle.run_text.specs.declared.choices.TheConstants.{GREATEST_SIZE};
ghost use Rattle.run_text.specs.Calls.{WritesText};
ghost use Rattle.run_text.specs.Checks.{is_checked};
ghost use Rattle.run_text.specs.Counts.{CountsBatch, HasRoom};
ghost use Rattle.run_text.specs.Reports.{report_of};
ghost use Rattle.morph_cli.specs.Batches.{lines_of_batch, note_of_batch};
ghost use Rattle.morph_cli.specs.Outputs.{audit_of, closing_note, own_note, outputs_of, WritesBoth};
ghost use Rattle.run_text.specs.Text.{told_values, counts_line, refused_text};

use crate::job::Job;
use crate::strategies::count;
use crate::watch::Watched;
use decision_model::Last;
use event_reader::{Cause, EventApp};
use morph_engine::BatchEnd;
use morph_io::{Out, Sink, WriteFailed};
use run_text::{
    Settings, Tally, note_audit, note_batch, note_check, note_tally, write_closing, write_events,
    write_refused,
};
use snapshot_reader::Total;
use std::alloc::Global;
use std::thread::Threads;
use version_table::State;

/// A refused line: its number, counted from 1, and the cause.
#[derive(Clone, Copy, Debug, PartialEq, Eq)]
pub struct Refusal {
    pub line: u64,
    pub cause: Cause,
}

/// Writes a batch that was run, with its number: its lines to the sink, and then to the notes the audit line, if
/// balances were seen beside it, and the batch's own line, if the notes are on.
fn tell_batch<R: Threads, K: Sink, N: Sink>(
    rt: &R,
    alloc: Global,
    out: &mut Out,
    sink: &mut K,
    notes: &mut N,
    settings: &Settings,
    number: u64,
    ran: &Watched,
) -> Result<(), WriteFailed>
    requires empty { out.old ≡ [] }
    requires plan { IsPlan ran.now.end.plan }
    requires settled { IsSettledOf ran.now.end.plan ran.now.end.settled }
    ensures written { WritesBoth result (outputs_of (K.written sink.old) (N.written notes.old))
        (lines_of_batch settings.now ran.now.end)
        (note_of_batch settings.now number ran.now.audit ran.now.end)
        (outputs_of (K.written sink.new) (N.written notes.new)) }
    ensures empty { OnOk result (out.new ≡ []) }
    ensures sink_faults { K.faults sink.old ≤ K.faults sink.new }
    ensures notes_faults { N.faults notes.old ≤ N.faults notes.new }
    ensures steady { OnOk result ((K.faults sink.new ≡ K.faults sink.old)
        × (N.faults notes.new ≡ N.faults notes.old)) }
    ensures cause { OnErr result (HasRisen (K.faults sink.old) (K.faults sink.new)
        ⊎ (((IsSome ran.now.audit)
        ⊎ ((IsTrue settings.now.notes) ⊎ IsTrue (is_checked settings.now.check)))
        × HasRisen (N.faults notes.old) (N.faults notes.new))) }
{
    let threads = settings.workers.saturating_add(settings.ahead);
    write_events(rt, alloc, threads, out, sink, settings.report(), &ran.end)?;
    note_ran(out, notes, settings, number, ran)
}

/// Counts a batch that was run, writes it with its number, and returns its outcome.
pub fn tell_counted<R: Threads, K: Sink, N: Sink>(
    rt: &R,
    alloc: Global,
    out: &mut Out,
    sink: &mut K,
    notes: &mut N,
    settings: &Settings,
    tally: &mut Tally,
    ran: &Watched,
) -> Result<Last, WriteFailed>
    requires empty { out.old ≡ [] }
    requires plan { IsPlan ran.now.end.plan }
    requires settled { IsSettledOf ran.now.end.plan ran.now.end.settled }
    requires room { HasRoom tally.old (account_of ran.now.end) }
    ensures adds { CountsBatch tally.old tally.new (account_of ran.now.end)
        (settled_fates ran.now.end.plan ran.now.end.settled) }
    ensures last { IfOk result
        (λ last. last ≡ last_of (settled_fates ran.now.end.plan ran.now.end.settled)) }
    ensures written { WritesBoth result (outputs_of (K.written sink.old) (N.written notes.old))
        (lines_of_batch settings.now ran.now.end)
        (note_of_batch settings.now tally.new.batches ran.now.audit ran.now.end)
        (outputs_of (K.written sink.new) (N.written notes.new)) }
    ensures empty { OnOk result (out.new ≡ []) }
    ensures sink_faults { K.faults sink.old ≤ K.faults sink.new }
    ensures notes_faults { N.faults notes.old ≤ N.faults notes.new }
    ensures steady { OnOk result ((K.faults sink.new ≡ K.faults sink.old)
        × (N.faults notes.new ≡ N.faults notes.old)) }
    ensures cause { OnErr result (HasRisen (K.faults sink.old) (K.faults sink.new)
        ⊎ (((IsSome ran.now.audit)
        ⊎ ((IsTrue settings.now.notes) ⊎ IsTrue (is_checked settings.now.check)))
        × HasRisen (N.faults notes.old) (N.faults notes.new))) }
{
    let last = count(tally, &ran.end);
    let number = tally.batches;
    tell_batch(rt, alloc, out, sink, notes, settings, number, ran)?;
    Ok(last)
}

/// Writes to the notes what was seen beside a batch that was run, and what is noted of the batch itself.
fn note_ran<N: Sink>(
    out: &mut Out,
    notes: &mut N,
    settings: &Settings,
    number: u64,
    ran: &Watched,
) -> Result<(), WriteFailed>
    requires empty { out.old ≡ [] }
    requires plan { IsPlan ran.now.end.plan }
    ensures text { WritesText N.written N.faults
        (note_of_batch settings.now number ran.now.audit ran.now.end) result notes.old notes.new }
    ensures empty { OnOk result (out.new ≡ []) }
    ensures cause { OnErr result ((IsSome ran.now.audit)
        ⊎ ((IsTrue settings.now.notes) ⊎ IsTrue (is_checked settings.now.check))) }
{
    note_seen(notes, &ran.audit)?;
    note_own(out, notes, settings, number, &ran.end)
}

/// Writes to the notes the line of a batch, if they are on, and then the outcome of its journal, if journals are
/// checked.
fn note_own<N: Sink>(
    out: &mut Out,
    notes: &mut N,
    settings: &Settings,
    number: u64,
    end: &BatchEnd,
) -> Result<(), WriteFailed>
    requires empty { out.old ≡ [] }
    requires plan { IsPlan end.now.plan }
    ensures text { WritesText N.written N.faults
        (own_note settings.now number (account_of end.now)) result notes.old notes.new }
    ensures empty { OnOk result (out.new ≡ []) }
    ensures cause { OnErr result ((IsTrue settings.now.notes)
        ⊎ IsTrue (is_checked settings.now.check)) }
{
    note_batch(notes, settings.notes, number, &end.plan, end.strategy)?;
    let journal = end.closed.journal();
    note_check(out, notes, settings.check, number, &end.plan, journal)
}

/// Writes to the notes what was seen of the balances, if anything was.
fn note_seen<N: Sink>(notes: &mut N, audit: &Option<Total>) -> Result<(), WriteFailed>
    ensures text { WritesText N.written N.faults (audit_of audit.now) result notes.old notes.new }
    ensures cause { OnErr result (IsSome audit.now) }
{
    match audit {
        Some(seen) => note_audit(notes, seen.number, seen.total),
        None => Ok(()),
    }
}

/// Writes the end of the input: the closing text to the sink, and then the tally to the notes, if these are on.
pub fn tell_closing<A: EventApp, R, G, K: Sink, N: Sink>(
    out: &mut Out,
    sink: &mut K,
    notes: &mut N,
    job: &Job<'_, A, R, G>,
    values: &State,
    tally: &Tally,
) -> Result<(), WriteFailed>
    requires empty { out.old ≡ [] }
    requires tables { values.now.layout.tables ≡ A.table_count job.now.app }
    requires few_ids { values.now.layout.size ≤ GREATEST_SIZE }
    requires few { job.now.settings.workers ≤ WORKERS }
    requires all { length tally.now.settled_by ≡ 17 }
    ensures written { let settings = job.now.settings in
        WritesBoth result (outputs_of (K.written sink.old) (N.written notes.old))
        (told_values (report_of settings) values.now.layout (A.name_of job.now.app)
        (contents values.now) ++ counts_line tally.now.committed tally.now.aborted)
        (closing_note settings tally.now)
        (outputs_of (K.written sink.new) (N.written notes.new)) }
    ensures sink_faults { K.faults sink.old ≤ K.faults sink.new }
    ensures notes_faults { N.faults notes.old ≤ N.faults notes.new }
    ensures steady { OnOk result ((K.faults sink.new ≡ K.faults sink.old)
        × (N.faults notes.new ≡ N.faults notes.old)) }
    ensures cause { OnErr result (HasRisen (K.faults sink.old) (K.faults sink.new)
        ⊎ (IsTrue job.now.settings.notes × HasRisen (N.faults notes.old) (N.faults notes.new))) }
{
    let settings = &job.settings;
    write_closing(out, sink, &job.app, settings.report(), values, tally)?;
    note_tally(notes, settings.notes, settings.workers, tally)
}

/// Writes a refused line: the refused text to the sink, and then the tally to the notes, if these are on.
pub fn tell_refused<K: Sink, N: Sink>(
    out: &mut Out,
    sink: &mut K,
    notes: &mut N,
    settings: &Settings,
    refusal: &Refusal,
    tally: &Tally,
) -> Result<(), WriteFailed>
    requires empty { out.old ≡ [] }
    requires few { settings.now.workers ≤ WORKERS }
    requires all { length tally.now.settled_by ≡ 17 }
    ensures written { WritesBoth result (outputs_of (K.written sink.old) (N.written notes.old))
        (refused_text refusal.now.line refusal.now.cause)
        (closing_note settings.now tally.now)
        (outputs_of (K.written sink.new) (N.written notes.new)) }
    ensures sink_faults { K.faults sink.old ≤ K.faults sink.new }
    ensures notes_faults { N.faults notes.old ≤ N.faults notes.new }
    ensures steady { OnOk result ((K.faults sink.new ≡ K.faults sink.old)
        × (N.faults notes.new ≡ N.faults notes.old)) }
    ensures cause { OnErr result (HasRisen (K.faults sink.old) (K.faults sink.new)
        ⊎ (IsTrue settings.now.notes × HasRisen (N.faults notes.old) (N.faults notes.new))) }
{
    write_refused(out, sink, refusal.line, refusal.cause)?;
    note_tally(notes, settings.notes, settings.workers, tally)
}
