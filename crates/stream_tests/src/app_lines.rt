//! What an application takes a line for, and which lines it writes.
ghost use Rattle.std.specs.Prelude.{◌≤◌};
ghost use Rattle.event_reader.specs.Limits.{generated_events, generated_ids};

use event_reader::{Cause, Draws, EventApp, LineFault, MakesInput, NumberPlaces, Version, Words};
use morph_base::{EventOps, Op};
use morph_io::LineBuf;
use std::alloc::Global;
use std::process::Abort;

/// What a line says to an application whose tables have `size` ids, in an input of this version.
fn said<A: EventApp>(
    alloc: Global,
    app: &A,
    line: &[u8],
    size: u32,
    version: Version,
) -> Result<(u64, EventOps), LineFault> {
    let mut places = NumberPlaces::new();
    let Some(words) = Words::split(line, &mut places) else {
        return Err(LineFault::Refused(Cause::Form));
    };
    let mut ops = EventOps::new();
    let ts = app.read_event(alloc, &words, size, version, &mut ops)?;
    Ok((ts, ops))
}

/// Whether an event's operations are these.
fn are_same(found: &EventOps, ops: &[Op]) -> bool {
    if found.len() != ops.len() {
        return false;
    }
    for i in 0..ops.len() {
        if found.get(i) != ops[i] {
            return false;
        }
    }
    true
}

/// The timestamp of a line's event, the number of its operations, and whether they are the given ones; nothing of a
/// line that is refused.
pub(crate) fn told<A: EventApp>(
    alloc: Global,
    app: &A,
    line: &[u8],
    size: u32,
    version: Version,
    ops: &[Op],
) -> Option<(u64, usize, bool)> {
    match said(alloc, app, line, size, version) {
        Ok((ts, found)) => Some((ts, found.len(), are_same(&found, ops))),
        Err(_) => None,
    }
}

/// Why a line is not taken; nothing of one that is.
fn fault_of<A: EventApp>(
    alloc: Global,
    app: &A,
    line: &[u8],
    size: u32,
    version: Version,
) -> Option<LineFault> {
    match said(alloc, app, line, size, version) {
        Ok(_) => None,
        Err(fault) => Some(fault),
    }
}

/// Compares the causes by which lines are refused, each in an input of its version, with those given.
pub(crate) fn check_refused<A: EventApp>(
    rt: &impl Abort,
    alloc: Global,
    app: &A,
    size: u32,
    rows: &[(&[u8], Version, Cause)],
) {
    for &(line, version, cause) in rows {
        let want = Some(LineFault::Refused(cause));
        assert_eq!(rt;
            fault_of(alloc, app, line, size, version),
            want,
            "at {line:?}"
        );
    }
}

/// The line of event `i` by these draws. The tables have `size` ids.
fn drawn<A: MakesInput>(app: &A, draws: &mut Draws, i: u64, size: u32) -> LineBuf
    requires event { 1 ≤ i }
    requires last { i ≤ generated_events }
    requires size { 1 ≤ size }
    requires ids { size ≤ generated_ids }
{
    let mut line = LineBuf::new();
    app.generate(draws, i, size, &mut line);
    line
}

/// Compares the lines of the first two events with those given, by a seed and a size of the tables.
pub(crate) fn check_drawn<A: MakesInput>(
    rt: &impl Abort,
    app: &A,
    rows: &[(u64, u32, &[u8], &[u8])],
) {
    for &(seed, size, first, second) in rows {
        assert!(rt; size >= 1 && size <= 1_000_000);
        let mut draws = Draws::new(seed);
        let one = drawn(app, &mut draws, 1, size);
        let two = drawn(app, &mut draws, 2, size);
        assert_eq!(rt; (one.bytes(), two.bytes()), (first, second), "seed {seed}");
    }
}
