ghost use Rattle.std.specs.Prelude.{◌≡◌, ◌↔◌, ◌+◌, ◌<◌, ◌≤◌, true, [], IsTrue, IfOk, false};
ghost use Rattle.event_reader.specs.declared.version.Version.TheVariants.{One};
ghost use Rattle.event_reader.specs.Reader.{goes_on};
ghost use Rattle.event_reader.specs.BatchAnswers.{IsBatchAnswer, GivesBatch, HasReadOn, members};
ghost use Rattle.event_reader.specs.SourceReads.{read_state};
ghost use Rattle.event_reader.specs.Versions.{is_version_line};

use crate::answers::{LineNext, Next};
use crate::app::EventApp;
use crate::cause::Cause;
use crate::fault::ReaderFault;
use crate::lines::Lines;
use crate::past::Past;
use crate::pending::{LineEffect, Pending};
use crate::version::{Version, is_version};
use morph_base::{BatchRoom, OutOfMemory};
use morph_io::Source;
use std::alloc::Global;
use std::marker::Model;

/// Whether the line that was given last is the version line: the first, and `morph 2`.
fn says_version(lines: &Lines) -> bool
    ensures { IsTrue result ↔ ((lines.now.number ≡ 1)
        × (is_version_line lines.now.line ≡ true)) }
{
    lines.number() == 1 && is_version(lines.line())
}

/// Reads the next batch of an application whose tables have `size` ids each. The version line, and the timestamps of
/// the batch if one is returned, are added to what was read before. The batch begins with this room.
fn read_batch<A: EventApp, S: Source>(
    alloc: Global,
    app: &A,
    size: u32,
    room: BatchRoom,
    past: &mut Past,
    lines: &mut Lines,
    source: &mut S,
) -> Result<Next, ReaderFault>
    requires live { IsTrue lines.old.live }
    requires opens { lines.old.number ≡ 0 → past.old.version ≡ One }
    ensures answer { IsBatchAnswer (members S.left S.faults S.reads) (A.event_of app.now size)
        (read_state past.old lines.old source.old) result (A.event_of app.now size)
        (read_state past.new lines.new source.new) }
    ensures batch { GivesBatch (members S.left S.faults S.reads)
        (record { tables = A.table_count app.now; size = size })
        (read_state past.old lines.old source.old) result
        (read_state past.new lines.new source.new) }
    ensures read { HasReadOn (members S.left S.faults S.reads)
        (read_state past.old lines.old source.old) result
        (read_state past.new lines.new source.new) }
    ensures stays { 0 < lines.old.number → past.new.version ≡ past.old.version }
    ensures opens { lines.new.number ≡ 0 → past.new.version ≡ One }
    ensures limit { lines.new.limit ≡ lines.old.limit }
    ensures numbered { lines.old.number ≤ lines.new.number }
    ensures done { IsTrue (goes_on result) → lines.new.live ≡ false
        → (lines.new.kept ≡ []) × IsTrue lines.new.ended }
{
    let mut pending = Pending::new(alloc, past.closed, room);
    'lines: loop {
        match lines.next_line(source)? {
            LineNext::Long => {
                return Ok(Next::Refused {
                    line: lines.number(),
                    cause: Cause::Long,
                });
            }
            LineNext::End if pending.batch.is_empty() => return Ok(Next::End),
            LineNext::End => {
                past.closed = pending.latest;
                return Ok(Next::Batch(pending.batch));
            }
            LineNext::Line => {}
        }
        if says_version(lines) {
            past.version = Version::Two;
            continue 'lines;
        }
        match pending.take_line(alloc, app, size, *past, lines.line())? {
            LineEffect::GoesOn => {}
            LineEffect::Closes => {
                past.closed = pending.latest;
                return Ok(Next::Batch(pending.batch));
            }
            LineEffect::Refuses(cause) => {
                return Ok(Next::Refused {
                    line: lines.number(),
                    cause,
                });
            }
        }
    }
}

/// Room for the batch after this one.
fn room_after(next: &Next) -> BatchRoom {
    match next {
        Next::Batch(batch) => batch.room(),
        _ => BatchRoom::none(),
    }
}

/// A reader of the batches of an application.
#[derive(Drop)]
pub struct BatchReader<A> {
    app: A,
    size: u32,
    past: Past,
    lines: Lines,
    live: bool,
    /// Room for the next batch, which is likely to be as large as the one before it.
    room: BatchRoom,
}

impl<A> Model for BatchReader<A> {
    ghost use Rattle.event_reader.specs.Reader.{ReaderView};

    ghost Value = { ReaderView A };

    ghost use Rattle.event_reader.specs.ReaderInvariant.{IsReader};

    ghost view = { λ reader. record {
      app = reader.app;
      size = reader.size;
      past = reader.past;
      lines = reader.lines;
      live = reader.live;
    } };

    ghost invariant = { IsReader };
}

impl<A: EventApp> BatchReader<A> {
    ghost use Rattle.event_reader.specs.Limits.{input_bytes};
    ghost use Rattle.event_reader.specs.Reader.{ReaderView, SameReader, new_reader};

    /// A reader for an application whose tables have `size` ids each, of an input of at most `limit` bytes.
    pub fn new(alloc: Global, app: A, size: u32, limit: u64) -> Result<Self, OutOfMemory>
    where
        A: Drop,
        requires some { 1 ≤ limit }
        requires bound { limit ≤ input_bytes }
        ensures { IfOk result (λ reader. reader ≡ new_reader app size limit) }
    {
        Ok(BatchReader {
            lines: Lines::new(alloc, limit)?,
            app,
            size,
            past: Past {
                version: Version::One,
                closed: 0,
            },
            live: true,
            room: BatchRoom::none(),
        })
    }

    /// Whether it may be asked for a batch: every answer so far was a [`Next::Batch`].
    pub fn live(&self) -> bool
        ensures live { result ≡ self.now.live }
        ensures bound { self.now.lines.number ≤ self.now.lines.limit + 1 }
        ensures limit { self.now.lines.limit ≤ input_bytes }
    {
        self.live
    }

    /// The version of the input, by its first line; before that was read it is 1.
    pub fn version(&self) -> Version
        ensures { result ≡ self.now.past.version }
    {
        self.past.version
    }

    /// Reads the next batch.
    ///
    /// A [`Next::Batch`] has at least one event, is valid, and has the greatest value of the version. The answer is
    /// [`Next::End`] exactly at the end of the input with no event pending, and [`Next::Refused`] exactly at the first
    /// refused line. [`ReaderFault::ReadFault`] is returned only if the source's count of faults rose in this call, and
    /// the count rises with no other answer. [`ReaderFault::TooLong`] is returned exactly if as many bytes as the limit
    /// were taken, none of their lines is refused, and the source gave one more. After any answer but a batch the
    /// reader may not be asked again.
    pub fn next_batch<S: Source>(
        &mut self,
        alloc: Global,
        source: &mut S,
    ) -> Result<Next, ReaderFault>
        requires live { IsTrue self.old.live }
        ensures answer { IsBatchAnswer (members S.left S.faults S.reads)
            (A.event_of self.old.app self.old.size)
            (read_state self.old.past self.old.lines source.old) result
            (A.event_of self.new.app self.new.size)
            (read_state self.new.past self.new.lines source.new) }
        ensures batch { GivesBatch (members S.left S.faults S.reads)
            (record { tables = A.table_count self.old.app; size = self.old.size })
            (read_state self.old.past self.old.lines source.old) result
            (read_state self.new.past self.new.lines source.new) }
        ensures read { HasReadOn (members S.left S.faults S.reads)
            (read_state self.old.past self.old.lines source.old) result
            (read_state self.new.past self.new.lines source.new) }
        ensures same { SameReader self.old self.new }
        ensures goes_on { self.new.live ≡ goes_on result }
    {
        self.live = false;
        if !self.lines.live() {
            return Ok(Next::End);
        }
        let next = read_batch(
            alloc,
            &self.app,
            self.size,
            self.room,
            &mut self.past,
            &mut self.lines,
            source,
        )?;
        self.live = matches!(next, Next::Batch(_));
        self.room = room_after(&next);
        Ok(next)
    }
}
