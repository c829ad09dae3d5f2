//! The lines of the events of a batch. If there are many, two threads put them together.
ghost use Rattle.std.specs.Prelude.{◌≡◌, ◌<◌, ◌≤◌, [], OnOk, IfOk};
ghost use Rattle.morph_base.specs.Plans.{IsPlan, IsSettledOf, event_count};
ghost use Rattle.morph_engine.specs.Fates.{settled_fate, settled_fates};
ghost use Rattle.run_text.specs.Calls.{buffered, PutsText, WritesText};
ghost use Rattle.run_text.specs.Text.{event_line, lines_between, lines_of};

use crate::text::event_line;
use morph_base::{OutOfMemory, Plan, Settled};
use morph_io::{LineBuf, Out, Sink, WriteFailed, write_all};
use std::alloc::Global;
use std::thread::{Threads, join_mut};

/// The lines of so many events are put together by two threads. Those of fewer take less time than the start of a
/// thread: docs/PERFORMANCE.md.
const SHARED_EVENTS: u32 = 4_096;

/// For how many bytes of each line there is room before lines are put into memory. If they are longer, the room grows.
const LINE_ROOM: usize = 40;

/// Writes the lines of all events of a plan, by rising timestamp.
///
/// If the run has several threads, and there are many events, two of them put the lines together in memory, and this one
/// writes them. Lines for which memory is refused are put together as those of few events are, through the buffer.
pub(crate) fn write_lines<R: Threads, K: Sink>(
    rt: &R,
    alloc: Global,
    threads: u32,
    out: &mut Out,
    sink: &mut K,
    plan: &Plan,
    settled: &Settled,
) -> Result<(), WriteFailed>
    requires empty { out.old ≡ [] }
    requires plan { IsPlan plan.now }
    requires settled { IsSettledOf plan.now settled.now }
    ensures text { WritesText K.written K.faults (lines_of (settled_fates plan.now settled.now))
        result sink.old sink.new }
    ensures empty { OnOk result (out.new ≡ []) }
{
    let end = plan.events.len() as u32;
    if threads < 2 || end < SHARED_EVENTS {
        return write_between(out, sink, plan, settled, 0, end);
    }
    // The first part is the larger one, since the thread of the other has to be started.
    let middle = end / 2 + end / 32;
    let (back, front) = both_in_memory(rt, alloc, plan, settled, middle, end);
    write_text(out, sink, plan, settled, 0, middle, front)?;
    write_text(out, sink, plan, settled, middle, end, back)
}

/// Puts the lines of the events from `middle` on, up to `end`, together in memory, in another thread, and those of the
/// events before in this one.
fn both_in_memory<R: Threads>(
    rt: &R,
    alloc: Global,
    plan: &Plan,
    settled: &Settled,
    middle: u32,
    end: u32,
) -> (Result<Vec<u8>, OutOfMemory>, Result<Vec<u8>, OutOfMemory>)
    requires plan { IsPlan plan.now }
    requires settled { IsSettledOf plan.now settled.now }
    requires middle { middle ≤ event_count plan.now }
    requires end { end ≤ event_count plan.now }
    ensures back { IfOk result.0
        (λ text. text.items ≡ lines_between plan.now settled.now middle end) }
    ensures front { IfOk result.1
        (λ text. text.items ≡ lines_between plan.now settled.now 0 middle) }
{
    join_mut(
        rt,
        &mut || lines_in_memory(alloc, plan, settled, middle, end),
        &mut || lines_in_memory(alloc, plan, settled, 0, middle),
    )
}

/// Writes the lines of the events from `first` on, up to `end`: their text, or what is put together here if memory for
/// that was refused.
fn write_text<K: Sink>(
    out: &mut Out,
    sink: &mut K,
    plan: &Plan,
    settled: &Settled,
    first: u32,
    end: u32,
    text: Result<Vec<u8>, OutOfMemory>,
) -> Result<(), WriteFailed>
    requires empty { out.old ≡ [] }
    requires plan { IsPlan plan.now }
    requires settled { IsSettledOf plan.now settled.now }
    requires end { end ≤ event_count plan.now }
    requires text { IfOk text (λ text. text.items ≡ lines_between plan.now settled.now first end) }
    ensures text { WritesText K.written K.faults (lines_between plan.now settled.now first end)
        result sink.old sink.new }
    ensures empty { OnOk result (out.new ≡ []) }
{
    match text {
        Ok(text) => write_all(sink, text.as_slice()),
        Err(OutOfMemory) => write_between(out, sink, plan, settled, first, end),
    }
}

/// Writes the lines of the events from `first` on, up to `end`.
fn write_between<K: Sink>(
    out: &mut Out,
    sink: &mut K,
    plan: &Plan,
    settled: &Settled,
    first: u32,
    end: u32,
) -> Result<(), WriteFailed>
    requires empty { out.old ≡ [] }
    requires plan { IsPlan plan.now }
    requires settled { IsSettledOf plan.now settled.now }
    requires end { end ≤ event_count plan.now }
    ensures text { WritesText K.written K.faults (lines_between plan.now settled.now first end)
        result sink.old sink.new }
    ensures empty { OnOk result (out.new ≡ []) }
{
    put_events(out, sink, plan, settled, first, end)?;
    out.flush(sink)
}

/// Puts the line of event `i`, with its LF, in place of what is in a line.
fn whole_line(plan: &Plan, settled: &Settled, i: u32, line: &mut LineBuf)
    requires plan { IsPlan plan.now }
    requires settled { IsSettledOf plan.now settled.now }
    requires event { i < event_count plan.now }
    ensures { line.new ≡ event_line (settled_fate plan.now settled.now i) }
{
    line.clear();
    event_line(plan, settled, i, line);
    line.word(b"\n");
}

/// Puts the lines of the events from `first` on, up to `end`, by rising timestamp.
fn put_events<K: Sink>(
    out: &mut Out,
    sink: &mut K,
    plan: &Plan,
    settled: &Settled,
    first: u32,
    end: u32,
) -> Result<(), WriteFailed>
    requires plan { IsPlan plan.now }
    requires settled { IsSettledOf plan.now settled.now }
    requires end { end ≤ event_count plan.now }
    ensures { PutsText K.written K.faults (lines_between plan.now settled.now first end)
        result (buffered sink.old out.old) (buffered sink.new out.new) }
{
    let mut line = LineBuf::new();
    for i in first..end {
        whole_line(plan, settled, i, &mut line);
        out.put(sink, &line)?;
    }
    Ok(())
}

/// Puts the lines of the events from `first` on, up to `end`, together in memory.
fn lines_in_memory(
    alloc: Global,
    plan: &Plan,
    settled: &Settled,
    first: u32,
    end: u32,
) -> Result<Vec<u8>, OutOfMemory>
    requires plan { IsPlan plan.now }
    requires settled { IsSettledOf plan.now settled.now }
    requires end { end ≤ event_count plan.now }
    ensures { IfOk result (λ text. text.items ≡ lines_between plan.now settled.now first end) }
{
    let mut text = Vec::with_capacity(alloc, LINE_ROOM * end.saturating_sub(first) as usize)?;
    let mut line = LineBuf::new();
    for i in first..end {
        whole_line(plan, settled, i, &mut line);
        text.extend_from_slice(line.bytes())?;
    }
    Ok(text)
}
