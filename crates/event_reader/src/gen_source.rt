ghost use Rattle.std.specs.Prelude.{◌≡◌, ◌+◌, ◌<◌, ◌≤◌, [], ◌++◌, length, take, Some, IsOk, IfOk};
ghost use Rattle.morph_io.specs.InMemory.{GivesBytes};
ghost use Rattle.event_reader.specs.Limits.{generated_events, generated_ids};
ghost use Rattle.event_reader.specs.GeneratedText.{with_end, new_generator, generated_left};

use crate::draws::Draws;
use crate::limits::GENERATED_BATCH;
use crate::makes_input::MakesInput;
use morph_io::{LineBuf, ReadFailed, Source};
use std::marker::Model;

/// A source of the text that an application's generator writes, which never fails and takes no memory.
///
/// Its lines are those of the events from 1 on, each at the time of its number, and a punctuation after each
/// [`GENERATED_BATCH`](crate::GENERATED_BATCH) events. The same seed gives the same text.
#[derive(Drop)]
pub struct GenSource<A> {
    app: A,
    size: u32,
    draws: Draws,
    /// The line that is being given, with its end, and the place in it of the next byte.
    line: LineBuf,
    at: usize,
    /// How many events come after that line, and the number of the next.
    count: u64,
    next: u64,
}

impl<A> Model for GenSource<A> {
    ghost use Rattle.std.specs.Prelude.{drop};
    ghost use Rattle.event_reader.specs.GeneratedText.{GenView};

    ghost Value = { GenView A };

    ghost use Rattle.event_reader.specs.GeneratorInvariant.{IsGenerator};

    ghost view = { λ source. record {
      app = source.app;
      size = source.size;
      rest = drop source.at source.line;
      count = source.count;
      next = source.next;
      state = source.draws;
    } };

    ghost invariant = { IsGenerator };
}

/// Writes the line of event `i` with its LF, and then the line of a punctuation if the event ends a batch.
fn write_event<A: MakesInput>(app: &A, draws: &mut Draws, i: u64, size: u32, line: &mut LineBuf)
    requires event { 1 ≤ i }
    requires last { i ≤ generated_events }
    requires size { 1 ≤ size }
    requires ids { size ≤ generated_ids }
    ensures line { line.new ≡ with_end i (A.generated app.now size i draws.old).line }
    ensures state { draws.new ≡ (A.generated app.now size i draws.old).state }
{
    line.clear();
    app.generate(draws, i, size, line);
    line.word(b"\n");
    if i % GENERATED_BATCH == 0 {
        line.word(b"P\n");
    }
}

impl<A: MakesInput> GenSource<A> {
    /// A source of the lines of `events` events, at most [`GENERATED_EVENTS`](crate::GENERATED_EVENTS), for tables of
    /// `size` ids each, which are 1 to [`GENERATED_IDS`](crate::GENERATED_IDS). The draws begin at `seed`.
    pub fn new(app: A, seed: u64, events: u64, size: u32) -> Self
        requires events { events ≤ generated_events }
        requires size { 1 ≤ size }
        requires ids { size ≤ generated_ids }
        ensures { result ≡ new_generator app seed events size }
    {
        GenSource {
            app,
            size,
            draws: Draws::new(seed),
            line: LineBuf::new(),
            at: 0,
            count: events,
            next: 1,
        }
    }

    /// Writes the next line.
    fn write_next(&mut self)
        requires end { self.old.rest ≡ [] }
        requires more { 0 < self.old.count }
        ensures same { generated_left A.generated self.new ≡ generated_left A.generated self.old }
        ensures some { 0 < length self.new.rest }
    {
        write_event(
            &self.app,
            &mut self.draws,
            self.next,
            self.size,
            &mut self.line,
        );
        self.at = 0;
        self.count -= 1;
        self.next += 1;
    }

    /// Begins the next line if the one before it was given whole and there is one more.
    fn begin_line(&mut self)
        ensures same { generated_left A.generated self.new ≡ generated_left A.generated self.old }
        ensures last { self.new.rest ≡ [] → generated_left A.generated self.new ≡ [] }
    {
        if self.at == self.line.len() && self.count > 0 {
            self.write_next();
        }
    }
}

impl<A: MakesInput> Source for GenSource<A> {
    ghost left = { λ source. Some (generated_left A.generated source) };

    ghost faults = { λ _. 0 };

    ghost reads = { λ old asked answer new.
        GivesBytes (generated_left A.generated old) asked answer (generated_left A.generated new) };

    /// Gives as much of one line as the buffer has room for. It never fails.
    fn read(&mut self, buf: &mut [u8]) -> Result<usize, ReadFailed>
        requires { 0 < length buf.old }
        ensures ok { IsOk result }
        ensures bound { IfOk result (λ n. n ≤ length buf.new) }
        ensures bytes { IfOk result (λ n. generated_left A.generated self.old
            ≡ take n buf.new ++ generated_left A.generated self.new) }
        ensures end { IfOk result (λ n. n ≡ 0 → generated_left A.generated self.new ≡ []) }
    {
        self.begin_line();
        let left = &self.line.bytes()[self.at..];
        let count = left.len().min(buf.len());
        buf[..count].copy_from_slice(&left[..count]);
        self.at += count;
        Ok(count)
    }
}
