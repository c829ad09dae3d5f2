ghost use Rattle.std.specs.Prelude.{◌≡◌, [], ◌↔◌, IfSome, IsSome, IsTrue};
ghost use Rattle.event_reader.specs.declared.limits.TheConstants.{INPUT_BYTES};
ghost use Rattle.morph_base.specs.States.{opening_state};
ghost use Rattle.morph_base.specs.Flat.{contents};
ghost use Rattle.event_reader.specs.Reader.{new_reader};
ghost use Rattle.morph_cli.specs.Batches.{IsShown};
ghost use Rattle.morph_cli.specs.Calls.{IsReadBy};
ghost use Rattle.morph_cli.specs.Requests.{request_of};
ghost use Rattle.morph_cli.specs.RunContract.{RunDoes};
ghost use Rattle.morph_cli.specs.Runs.{layout_of};
ghost use Rattle.morph_cli.specs.Streams.{fault_counts, streams_of};
ghost use Rattle.run_text.specs.Settings.{AreInRange};
ghost use Rattle.decision_model.specs.Choices.{no_last};
ghost use Rattle.run_text.specs.Counts.{no_tally};

use crate::ahead::{Ahead, run_ahead};
use crate::fault::Fault;
use crate::job::Job;
use crate::progress::Progress;
use crate::take_batch::take_batch;
use crate::tell::{Refusal, tell_closing, tell_refused};
use event_reader::{EventApp, Next};
use morph_io::{Sink, Source};
use run_text::Tally;
use std::sync::Wait;
use std::thread::Threads;
use worker_gate::Gate;

/// How a run ended.
#[derive(Clone, Copy, Debug, PartialEq, Eq)]
pub enum Finish {
    /// The input was read to its end, and the closing text was written.
    Complete,
    /// A line was refused, and the refused text was written.
    Refused,
}

/// Runs an application over an input: batch by batch, each written whole before the next is run. If `ahead` is 0, the
/// next batch is read only then; otherwise it is read and planned while one is run. If the balances are watched, they
/// are published after each batch, and a viewer looks at them while the next one is run; publishing may wait for it.
///
/// The batches that were run are counted in the tally, also those of a run that is cut off. If the notes are on, they
/// get a line for each batch once it is written, and the tally at the end. If the balances are watched, they also get
/// what was seen.
pub fn run<
    R: Threads + Wait + Sync,
    A: EventApp + Copy + Send,
    S: Source + Send,
    K: Sink,
    N: Sink,
    G: Gate,
>(
    job: &Job<'_, A, R, G>,
    source: &mut S,
    sink: &mut K,
    notes: &mut N,
    tally: &mut Tally,
) -> Result<Finish, Fault>
    requires settings { AreInRange job.now.settings }
    requires tally { tally.old ≡ no_tally }
    ensures run { let app = job.now.app in let settings = job.now.settings in
        RunDoes (request_of (A.event_of app) (A.table_count app) (A.name_of app)
        settings (S.left source.old)) result tally.new
        (streams_of (S.left source.old) (K.written sink.old) (N.written notes.old)
        (fault_counts (S.faults source.old) (K.faults sink.old) (N.faults notes.old)))
        (streams_of (S.left source.new) (K.written sink.new) (N.written notes.new)
        (fault_counts (S.faults source.new) (K.faults sink.new) (N.faults notes.new))) }
    ensures asks { let settings = job.now.settings in settings.ahead ≡ 0
        → IsReadBy S.left S.reads (A.event_of job.now.app settings.size) source.old source.new }
{
    if job.settings.ahead > 0 {
        let mut ahead = Ahead::new(job)?;
        return run_ahead(job, &mut ahead, source, sink, notes, tally);
    }
    let mut progress = Progress::new(job)?;
    let end = run_batches(job, &mut progress, source, sink, notes, tally);
    progress.end(job.host.rt);
    end
}

/// Runs an application from the opening state over what the reader reads, batch by batch. Each batch is published once
/// it was written.
fn run_batches<R: Threads + Wait + Sync, A: EventApp + Copy, S: Source, K: Sink, N: Sink, G: Gate>(
    job: &Job<'_, A, R, G>,
    progress: &mut Progress<A>,
    source: &mut S,
    sink: &mut K,
    notes: &mut N,
    tally: &mut Tally,
) -> Result<Finish, Fault>
    requires settings { AreInRange job.now.settings }
    requires tally { tally.old ≡ no_tally }
    requires reader { progress.old.reader
        ≡ new_reader job.now.app job.now.settings.size INPUT_BYTES }
    requires layout { progress.old.engine.layout
        ≡ layout_of (A.table_count job.now.app) job.now.settings.size }
    requires opening { contents progress.old.engine ≡ opening_state }
    requires empty { progress.old.out ≡ [] }
    requires last { progress.old.last ≡ no_last }
    requires shown { IfSome (progress.old.watching)
        (IsShown progress.old.engine.layout 0 opening_state) }
    requires watch { IsSome (progress.old.watching) ↔ IsTrue job.now.settings.watch }
    ensures run { let app = job.now.app in let settings = job.now.settings in
        RunDoes (request_of (A.event_of app) (A.table_count app) (A.name_of app)
        settings (S.left source.old)) result tally.new
        (streams_of (S.left source.old) (K.written sink.old) (N.written notes.old)
        (fault_counts (S.faults source.old) (K.faults sink.old) (N.faults notes.old)))
        (streams_of (S.left source.new) (K.written sink.new) (N.written notes.new)
        (fault_counts (S.faults source.new) (K.faults sink.new) (N.faults notes.new))) }
    ensures asks { let settings = job.now.settings in
        IsReadBy S.left S.reads (A.event_of job.now.app settings.size) source.old source.new }
{
    'batches: loop {
        match progress.reader.next_batch(job.host.alloc, source)? {
            Next::Batch(mut batch) => take_batch(job, progress, &mut batch, sink, notes, tally)?,
            Next::End => {
                let values = progress.engine.state();
                tell_closing(&mut progress.out, sink, notes, job, values, tally)?;
                return Ok(Finish::Complete);
            }
            Next::Refused { line, cause } => {
                let refusal = Refusal { line, cause };
                tell_refused(
                    &mut progress.out,
                    sink,
                    notes,
                    &job.settings,
                    &refusal,
                    tally,
                )?;
                return Ok(Finish::Refused);
            }
        }
    }
}
