ghost use Rattle.std.specs.Prelude.{◌≡◌, ℕ, ◌+◌, ◌-◌, ◌<◌, ◌≤◌, ◌==◌, min, if◌then◌else◌, length, take};
ghost use Rattle.std.specs.Prelude.{slice_range, IfOk, OnOk, OnErr};
ghost use Rattle.morph_io.specs.Told.{ahead, IsAtEnd, HasRisen};

use crate::answers::LineNext;
use crate::decision::{Decision, decide};
use crate::fault::ReaderFault;
use crate::limits::BUFFER_BYTES;
use morph_base::OutOfMemory;
use morph_io::{ReadFailed, Source};
use std::alloc::Global;
use std::marker::Model;

/// A reader of lines over one buffer of [`BUFFER_BYTES`].
///
/// It asks a source only if the bytes that it keeps decide no line, and never again after the end of the input.
#[derive(Debug, Drop)]
pub struct Lines {
    buffer: Vec<u8>,
    /// Where the bytes that no line was given of begin and end.
    start: usize,
    end: usize,
    /// Where the line given last begins and ends.
    line_start: usize,
    line_end: usize,
    number: u64,
    taken: u64,
    limit: u64,
    ended: bool,
    live: bool,
}

impl Model for Lines {
    ghost use Rattle.std.specs.Prelude.{slice_range};
    ghost use Rattle.event_reader.specs.Reader.{LinesView};

    ghost Value = { LinesView };

    ghost use Rattle.event_reader.specs.Buffers.{IsBuffer};

    ghost view = { λ lines. record {
      kept = slice_range lines.buffer.items lines.start lines.end;
      line = slice_range lines.buffer.items lines.line_start lines.line_end;
      number = lines.number;
      taken = lines.taken;
      limit = lines.limit;
      ended = lines.ended;
      live = lines.live;
    } };

    ghost invariant = { IsBuffer };
}

/// Moves the bytes from `start` to `end` to the front.
fn to_front(buffer: &mut [u8], start: usize, end: usize)
    requires order { start ≤ end }
    requires inside { end ≤ length buffer.old }
    ensures { slice_range buffer.new 0 (end - start) ≡ slice_range buffer.old start end }
{
    for i in 0..end - start {
        buffer[i] = buffer[start + i];
    }
}

/// Reads at most `most` bytes from the source into the buffer, behind its first `end` bytes.
fn read_behind<S: Source>(
    source: &mut S,
    buffer: &mut [u8],
    end: usize,
    most: usize,
) -> Result<usize, ReadFailed>
    requires some { 0 < most }
    requires inside { end + most ≤ length buffer.old }
    ensures bound { IfOk result (λ n. n ≤ most) }
    ensures kept { take end buffer.new ≡ take end buffer.old }
    ensures bytes { IfOk result (λ n. S.left source.old
        ≡ ahead (slice_range buffer.new end (end + n)) (S.left source.new)) }
    ensures at_end { IfOk result (λ n. n ≡ 0 → IsAtEnd (S.left source.new)) }
    ensures failed { OnErr result (S.left source.new ≡ S.left source.old) }
    ensures never_falls { S.faults source.old ≤ S.faults source.new }
    ensures steady { OnOk result (S.faults source.new ≡ S.faults source.old) }
    ensures cause { OnErr result (HasRisen (S.faults source.old) (S.faults source.new)) }
    ensures answer { S.reads source.old most result source.new }
{
    source.read(&mut buffer[end..end + most])
}

/// How many bytes to ask for: as many as are free in the buffer, at most as many as the limit leaves, and one byte if
/// it leaves none.
fn asked_bytes(free: usize, left: u64) -> usize
    requires { 0 < free }
    ensures some { 0 < result }
    ensures free { result ≤ free }
    ensures left { 0 < left → result ≤ left }
    ensures bytes { result ≡ (if left == 0 then 1 else min free left) }
{
    if left == 0 {
        1
    } else if left < free as u64 {
        left as usize
    } else {
        free
    }
}

impl Lines {
    ghost use Rattle.std.specs.Prelude.{◌≡◌, ℕ, ◌+◌, ◌<◌, ◌≤◌, List, [], ◌++◌, length, take, drop, IsTrue};
    ghost use Rattle.std.specs.Prelude.{IfOk, OnOk, IsErrOf, false, Ok, OnErr};
    ghost use Rattle.morph_io.specs.Told.{ahead, IsAtEnd, HasRisen};
    ghost use Rattle.event_reader.specs.Limits.{longest_line, deciding_bytes, input_bytes};
    ghost use Rattle.event_reader.specs.Reader.{LinesView, new_lines, reading_of, AnswersLine, ShowsLine};
    ghost use Rattle.event_reader.specs.Reader.{TakesBytes, is_line, lines_given};
    ghost use Rattle.event_reader.specs.Refills.{Fills, FillsBy};
    ghost use Rattle.event_reader.specs.SourceReads.{AsksForLine, line_state};

    /// A reader of an input of at most `limit` bytes, which has taken none yet.
    pub fn new(alloc: Global, limit: u64) -> Result<Self, OutOfMemory>
        requires some { 1 ≤ limit }
        requires bound { limit ≤ input_bytes }
        ensures { IfOk result (λ lines. lines ≡ new_lines limit) }
    {
        Ok(Lines {
            buffer: vec![in alloc; 0; BUFFER_BYTES]?,
            start: 0,
            end: 0,
            line_start: 0,
            line_end: 0,
            number: 0,
            taken: 0,
            limit,
            ended: false,
            live: true,
        })
    }

    /// The line given last, without its LF and one CR in front of that.
    pub fn line(&self) -> &[u8]
        ensures { result.now ≡ self.now.line }
    {
        &self.buffer[self.line_start..self.line_end]
    }

    /// The number of the line given last, from 1; 0 before the first.
    pub fn number(&self) -> u64
        ensures { result ≡ self.now.number }
    {
        self.number
    }

    /// Whether it may be asked for a line: every answer so far was a [`LineNext::Line`].
    pub fn live(&self) -> bool
        ensures live { result ≡ self.now.live }
        ensures bound { self.now.number ≤ self.now.limit + 1 }
        ensures limit { self.now.limit ≤ input_bytes }
    {
        self.live
    }

    /// The bytes from which no line was given yet.
    fn kept(&self) -> &[u8]
        ensures bytes { result.now ≡ self.now.kept }
        ensures bound { self.now.taken ≤ self.now.limit }
    {
        &self.buffer[self.start..self.end]
    }

    /// Takes more bytes from the source.
    fn fill<S: Source>(&mut self, source: &mut S) -> Result<(), ReaderFault>
        requires few { length self.old.kept < deciding_bytes }
        requires goes_on { self.old.ended ≡ false }
        requires live { IsTrue self.old.live }
        ensures fills { Fills self.old (S.left source.old) result self.new (S.left source.new) }
        ensures bound { self.new.number ≤ self.new.limit + 1 }
        ensures never_falls { S.faults source.old ≤ S.faults source.new }
        ensures steady { (IsErrOf result ReaderFault.ReadFault → ⊥)
            → S.faults source.new ≡ S.faults source.old }
        ensures cause { IsErrOf result ReaderFault.ReadFault
            → HasRisen (S.faults source.old) (S.faults source.new) }
        ensures asks { FillsBy S.left S.reads self.old source.old result self.new source.new }
    {
        to_front(&mut self.buffer, self.start, self.end);
        self.end -= self.start;
        self.start = 0;
        self.line_start = 0;
        self.line_end = 0;
        let left = self.limit - self.taken;
        let most = asked_bytes(BUFFER_BYTES - self.end, left);
        let Ok(got) = read_behind(source, &mut self.buffer, self.end, most) else {
            self.live = false;
            return Err(ReaderFault::ReadFault);
        };
        if got > 0 && left == 0 {
            self.live = false;
            return Err(ReaderFault::TooLong);
        }
        self.ended = got == 0;
        self.end += got;
        self.taken += got as u64;
        Ok(())
    }

    /// Gives the next line.
    ///
    /// The answer is [`LineNext::End`] exactly at the end of the input with no line pending, and [`LineNext::Long`]
    /// exactly if the next line is too long. [`ReaderFault::ReadFault`] is returned only if the source's count of
    /// faults rose in this call, and the count rises with no other answer. [`ReaderFault::TooLong`] is returned exactly
    /// if as many bytes as the limit were taken, none of their lines is too long, and the source gave one more. The
    /// call takes no memory.
    #[inline(always)]
    pub fn next_line<S: Source>(&mut self, source: &mut S) -> Result<LineNext, ReaderFault>
        requires live { IsTrue self.old.live }
        ensures answers { AnswersLine (reading_of self.old (S.left source.old)) result self.new.line
            (reading_of self.new (S.left source.new)) }
        ensures shows { TakesBytes (S.left source.old) (S.left source.new)
            (ShowsLine self.old result self.new) }
        ensures at_end { self.old.ended ≡ false → IsTrue self.new.ended
            → IsAtEnd (S.left source.new) }
        ensures idle { IsTrue self.old.ended → source.new ≡ source.old }
        ensures unended { self.new.ended ≡ false → self.old.ended ≡ false }
        ensures done { result ≡ Ok LineNext.End → (self.new.kept ≡ []) × IsTrue self.new.ended }
        ensures goes_on { self.new.live ≡ is_line result }
        ensures counts { self.new.number ≡ self.old.number + lines_given result }
        ensures bound { self.new.number ≤ self.new.limit + 1 }
        ensures limit { self.new.limit ≡ self.old.limit }
        ensures full { IsErrOf result ReaderFault.TooLong → self.new.taken ≡ self.new.limit }
        ensures asked { OnErr result (self.new.ended ≡ false) }
        ensures never_falls { S.faults source.old ≤ S.faults source.new }
        ensures steady { (IsErrOf result ReaderFault.ReadFault → ⊥)
            → S.faults source.new ≡ S.faults source.old }
        ensures cause { IsErrOf result ReaderFault.ReadFault
            → HasRisen (S.faults source.old) (S.faults source.new) }
        ensures asks { AsksForLine S.left S.reads (line_state self.old source.old) result (line_state self.new source.new) }
    {
        'reads: loop {
            match decide(self.kept(), self.ended) {
                Decision::Open => self.fill(source)?,
                Decision::Line { len, used } => {
                    self.give(len, used);
                    return Ok(LineNext::Line);
                }
                Decision::Long => {
                    self.refuse();
                    return Ok(LineNext::Long);
                }
                Decision::End => {
                    self.live = false;
                    return Ok(LineNext::End);
                }
            }
        }
    }

    /// Gives the first `len` of the bytes kept as a line, which takes up `used` of them with its end.
    fn give(&mut self, len: usize, used: usize)
        requires live { IsTrue self.old.live }
        requires inside { len ≤ used }
        requires some { 0 < used }
        requires held { used ≤ length self.old.kept }
        ensures gives { self.new
            ≡ record self.old {
              kept = drop used self.old.kept;
              line = take len self.old.kept;
              number = self.old.number + 1;
            } }
        ensures bound { self.new.number ≤ self.new.limit + 1 }
    {
        self.line_start = self.start;
        self.line_end = self.start + len;
        self.start += used;
        self.number += 1;
    }

    /// Counts a line that is too long, after which no line is given.
    fn refuse(&mut self)
        requires live { IsTrue self.old.live }
        ensures refuses { self.new
            ≡ record self.old { number = self.old.number + 1; live = false } }
        ensures bound { self.new.number ≤ self.new.limit + 1 }
    {
        self.number += 1;
        self.live = false;
    }
}
