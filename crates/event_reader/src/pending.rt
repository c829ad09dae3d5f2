ghost use Rattle.std.specs.Prelude.{◌≡◌, ◌≤◌, [], length, IfOk};
ghost use Rattle.morph_base.specs.Transactions.{transaction, transactions_of};
ghost use Rattle.event_reader.specs.Steps.{is_ignored, is_punctuation, rules_of};
ghost use Rattle.event_reader.specs.Limits.{longest_line};
ghost use Rattle.event_reader.specs.Versions.{most_events};

use crate::app::EventApp;
use crate::cause::{Cause, LineFault};
use crate::numbers::NumberPlaces;
use crate::past::Past;
use crate::times::Times;
use crate::words::Words;
use morph_base::{Batch, BatchRoom, EventOps, OutOfMemory};
use std::alloc::Global;

/// The unfinished batch of a reader.
#[derive(Drop)]
pub(crate) struct Pending {
    pub(crate) batch: Batch,
    /// The numbers of the line that is read.
    places: NumberPlaces,
    /// The operations of the line that is read.
    ops: EventOps,
    pub(crate) times: Times,
    /// The greatest timestamp of the closed batches and of this one.
    pub(crate) latest: u64,
}

/// What a line does to the unfinished batch.
#[derive(Clone, Copy)]
pub(crate) enum LineEffect {
    /// It goes on, with the line's event if there is one.
    GoesOn,
    /// It is closed, and has an event.
    Closes,
    /// The line is refused.
    Refuses(Cause),
}

/// Whether a line is empty or a comment.
fn is_ignored_line(line: &[u8]) -> bool
    ensures { result ≡ is_ignored line.now }
{
    line.is_empty() || line[0] == b'#'
}

/// Whether a line is a punctuation.
fn is_punctuation_line(line: &[u8]) -> bool
    ensures { result ≡ is_punctuation line.now }
{
    line == b"P".as_slice()
}

/// A batch without events: with this room if there is memory for it at once, and else without.
fn empty_batch(alloc: Global, room: BatchRoom) -> Batch
    ensures { transactions_of result ≡ [] }
{
    match Batch::with_room(alloc, room) {
        Ok(batch) => batch,
        Err(OutOfMemory) => Batch::new(alloc),
    }
}

impl Pending {
    ghost use Rattle.event_reader.specs.Pending.{batch_of, Notes, IsSoundBatch, Joins, TakesLine};

    /// No events, after batches whose greatest timestamp is `closed`.
    pub(crate) fn new(alloc: Global, closed: u64, room: BatchRoom) -> Self
        ensures events { batch_of result ≡ [] }
        ensures notes { Notes closed result }
    {
        Pending {
            batch: empty_batch(alloc, room),
            places: NumberPlaces::new(),
            ops: EventOps::new(),
            times: Times::new(alloc),
            latest: closed,
        }
    }

    /// Adds the event of the line that was read, or returns the first of the causes late, twice and full that applies.
    fn join(&mut self, past: Past, ts: u64) -> Result<Option<Cause>, OutOfMemory>
        requires { Notes past.closed self.old }
        ensures { IfOk result (Joins (most_events past.version) past.closed self.old
            (transaction ts self.old.ops) self.new) }
    {
        if ts <= past.closed {
            return Ok(Some(Cause::Late));
        }
        if !self.times.add(ts)? {
            return Ok(Some(Cause::Twice));
        }
        if self.batch.len() >= past.version.most_events() {
            return Ok(Some(Cause::Full));
        }
        self.latest = self.latest.max(ts);
        self.batch.push_event(ts, &self.ops)?;
        Ok(None)
    }

    /// Takes a line that is not too long and not the version line.
    pub(crate) fn take_line<A: EventApp>(
        &mut self,
        alloc: Global,
        app: &A,
        size: u32,
        past: Past,
        line: &[u8],
    ) -> Result<LineEffect, OutOfMemory>
        requires short { length line.now ≤ longest_line }
        requires notes { Notes past.closed self.old }
        requires sound { IsSoundBatch past.version
            (record { tables = A.table_count app.now; size = size }) (batch_of self.old) }
        ensures { IfOk result
            (TakesLine (rules_of (A.event_of app.now size) past.version)
            (record {
              version = past.version;
              layout = record { tables = A.table_count app.now; size = size };
            })
            past.closed self.old line.now self.new) }
    {
        if is_ignored_line(line) {
            return Ok(LineEffect::GoesOn);
        }
        if is_punctuation_line(line) {
            if self.batch.is_empty() {
                return Ok(LineEffect::GoesOn);
            }
            return Ok(LineEffect::Closes);
        }
        let Some(words) = Words::split(line, &mut self.places) else {
            return Ok(LineEffect::Refuses(Cause::Form));
        };
        self.ops.clear();
        let ts = match app.read_event(alloc, &words, size, past.version, &mut self.ops) {
            Ok(ts) => ts,
            Err(LineFault::Refused(cause)) => return Ok(LineEffect::Refuses(cause)),
            Err(LineFault::OutOfMemory) => return Err(OutOfMemory),
        };
        match self.join(past, ts)? {
            None => Ok(LineEffect::GoesOn),
            Some(cause) => Ok(LineEffect::Refuses(cause)),
        }
    }
}
