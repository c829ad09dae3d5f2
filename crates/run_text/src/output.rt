ghost use Rattle.std.specs.Prelude.{◌≡◌, ◌<◌, ◌≤◌, [], ◌++◌, length, OnOk, OnErr};
ghost use Rattle.morph_base.specs.Flat.{contents};
ghost use Rattle.morph_base.specs.Plans.{IsPlan, IsSettledOf};
ghost use Rattle.morph_engine.specs.Fates.{settled_fates};
ghost use Rattle.run_text.specs.declared.choices.TheConstants.{GREATEST_SIZE};
ghost use Rattle.run_text.specs.Calls.{buffered, PutsText, WritesText};
ghost use Rattle.morph_io.specs.Told.{behind, HasRisen};
ghost use Rattle.morph_io.specs.SinkWrites.{AppendsPart};
ghost use Rattle.run_text.specs.Text.{lines_of, told_lines, told_values, counts_line, cause_word, refused_text};

use crate::lines::write_lines;
use crate::report::Report;
use crate::tables::put_told_values;
use crate::tally::Tally;
use event_reader::{Cause, EventApp};
use morph_engine::BatchEnd;
use morph_io::{LineBuf, Out, Sink, WriteFailed};
use std::alloc::Global;
use std::thread::Threads;
use version_table::State;

/// Writes what is reported of the events of a batch that was run: their lines, or nothing in a summary.
///
/// If the run has several threads, two of them put the lines of 4,096 events or more together in memory, which `alloc` is
/// asked for. Lines for which it is refused are put together by one thread, a few at a time.
pub fn write_events<R: Threads, K: Sink>(
    rt: &R,
    alloc: Global,
    threads: u32,
    out: &mut Out,
    sink: &mut K,
    report: Report,
    end: &BatchEnd,
) -> Result<(), WriteFailed>
    requires empty { out.old ≡ [] }
    requires plan { IsPlan end.now.plan }
    requires settled { IsSettledOf end.now.plan end.now.settled }
    ensures written { OnOk result (K.written sink.new ≡ behind (K.written sink.old)
        (told_lines report (settled_fates end.now.plan end.now.settled))) }
    ensures prefix { OnErr result (AppendsPart (K.written sink.old)
        (told_lines report (settled_fates end.now.plan end.now.settled)) (K.written sink.new)) }
    ensures empty { OnOk result (out.new ≡ []) }
    ensures never_falls { K.faults sink.old ≤ K.faults sink.new }
    ensures steady { OnOk result (K.faults sink.new ≡ K.faults sink.old) }
    ensures cause { OnErr result (HasRisen (K.faults sink.old) (K.faults sink.new)) }
{
    match report {
        Report::Whole => {
            let (plan, settled) = (&end.plan, &end.settled);
            write_lines(rt, alloc, threads, out, sink, plan, settled)
        }
        Report::Summary => Ok(()),
    }
}

/// Writes the closing text: what is reported of the values, and the counts.
pub fn write_closing<A: EventApp, K: Sink>(
    out: &mut Out,
    sink: &mut K,
    app: &A,
    report: Report,
    values: &State,
    tally: &Tally,
) -> Result<(), WriteFailed>
    requires empty { out.old ≡ [] }
    requires tables { values.now.layout.tables ≡ A.table_count app.now }
    requires few_ids { values.now.layout.size ≤ GREATEST_SIZE }
    ensures written { OnOk result (K.written sink.new
        ≡ behind (K.written sink.old) (told_values report values.now.layout (A.name_of app.now)
        (contents values.now) ++ counts_line tally.now.committed tally.now.aborted)) }
    ensures prefix { OnErr result (AppendsPart (K.written sink.old)
        (told_values report values.now.layout (A.name_of app.now) (contents values.now)
        ++ counts_line tally.now.committed tally.now.aborted) (K.written sink.new)) }
    ensures never_falls { K.faults sink.old ≤ K.faults sink.new }
    ensures steady { OnOk result (K.faults sink.new ≡ K.faults sink.old) }
    ensures cause { OnErr result (HasRisen (K.faults sink.old) (K.faults sink.new)) }
{
    put_told_values(out, sink, app, report, values)?;
    put_counts(out, sink, tally)?;
    out.flush(sink)
}

/// Writes the refused text: the number of the line and the cause.
pub fn write_refused<K: Sink>(
    out: &mut Out,
    sink: &mut K,
    number: u64,
    cause: Cause,
) -> Result<(), WriteFailed>
    requires empty { out.old ≡ [] }
    ensures written { OnOk result (K.written sink.new ≡ behind (K.written sink.old)
        (refused_text number cause)) }
    ensures prefix { OnErr result (AppendsPart (K.written sink.old) (refused_text number cause)
        (K.written sink.new)) }
    ensures never_falls { K.faults sink.old ≤ K.faults sink.new }
    ensures steady { OnOk result (K.faults sink.new ≡ K.faults sink.old) }
    ensures cause { OnErr result (HasRisen (K.faults sink.old) (K.faults sink.new)) }
{
    put_refused(out, sink, number, cause)?;
    out.flush(sink)
}

/// The word of a cause.
fn cause_name(cause: Cause) -> &'static [u8]
    ensures word { result.now ≡ cause_word cause }
    ensures short { length result.now ≤ 5 }
{
    match cause {
        Cause::Long => b"long",
        Cause::Form => b"form",
        Cause::Range => b"range",
        Cause::Same => b"same",
        Cause::Late => b"late",
        Cause::Twice => b"twice",
        Cause::Full => b"full",
    }
}

/// Puts the line of the counts.
fn put_counts<K: Sink>(out: &mut Out, sink: &mut K, tally: &Tally) -> Result<(), WriteFailed>
    ensures { PutsText K.written K.faults (counts_line tally.now.committed tally.now.aborted)
        result (buffered sink.old out.old) (buffered sink.new out.new) }
{
    let mut line = LineBuf::new();
    line.word(b"committed ");
    line.number(tally.committed);
    line.word(b" aborted ");
    line.number(tally.aborted);
    line.word(b"\n");
    out.put(sink, &line)
}

/// Puts the refused text.
fn put_refused<K: Sink>(
    out: &mut Out,
    sink: &mut K,
    number: u64,
    cause: Cause,
) -> Result<(), WriteFailed>
    ensures { PutsText K.written K.faults (refused_text number cause)
        result (buffered sink.old out.old) (buffered sink.new out.new) }
{
    let mut line = LineBuf::new();
    line.word(b"refused line ");
    line.number(number);
    line.word(b": ");
    line.word(cause_name(cause));
    line.word(b"\n");
    out.put(sink, &line)
}
