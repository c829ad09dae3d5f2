//! Runs that read and plan batches ahead.
ghost use Rattle.std.specs.Prelude.{◌≡◌, ◌≢◌, ◌+◌, ◌<◌, ◌≤◌, ◌⊎◌, ◌↔◌, [], ◌++◌, length};
ghost use Rattle.std.specs.Prelude.{Some, IfOk, IsErrOf, IsTrue};
ghost use Rattle.event_reader.specs.declared.fault.ReaderFault.TheVariants.{ReadFault};
ghost use Rattle.event_reader.specs.declared.limits.TheConstants.{INPUT_BYTES};
ghost use Rattle.event_reader.specs.Reader.{new_reader};
ghost use Rattle.morph_base.specs.declared.plan.Plan.{Plan};
ghost use Rattle.morph_base.specs.Flat.{contents};
ghost use Rattle.morph_base.specs.States.{opening_state};
ghost use Rattle.morph_io.specs.Told.{HasRisen};
ghost use Rattle.decision_model.specs.declared.counts.Last.{Last as Came};
ghost use Rattle.batch_pipe.specs.PlanRuns.{manner, picked};
ghost use Rattle.batch_pipe.specs.PipeRounds.{IsGoing, IsRound, IsUncut, new_pipe, number_before};
ghost use Rattle.run_text.specs.Settings.{AreInRange};
ghost use Rattle.run_text.specs.Counts.{no_tally};
ghost use Rattle.run_text.specs.Reports.{report_of};
ghost use Rattle.run_text.specs.Text.{told_values, counts_line};
ghost use Rattle.morph_cli.specs.Outputs.{closing_note, outputs_of};
ghost use Rattle.morph_cli.specs.Endings.{EndsBy};
ghost use Rattle.morph_cli.specs.Requests.{request_of};
ghost use Rattle.morph_cli.specs.RunContract.{RunDoes};
ghost use Rattle.morph_cli.specs.Runs.{layout_of};
ghost use Rattle.morph_cli.specs.Streams.{fault_counts, streams_of};
ghost use Rattle.morph_cli.specs.Strategies.{strategy_by};
ghost use Rattle.morph_cli.specs.Tellers.{teller_view, CanTell, TellsRan};

use crate::batch_teller::BatchTeller;
use crate::fault::Fault;
use crate::job::Job;
use crate::progress::Opening;
use crate::run::Finish;
use crate::tell::{Refusal, tell_closing, tell_refused};
use batch_pipe::{Picker, Pipe, Tail};
use event_reader::EventApp;
use morph_base::{Abort, Explore, OutOfMemory, Strategy, Unit};
use morph_io::{Out, Sink, Source};
use run_text::{Planning, Tally};
use std::thread::Threads;
use worker_gate::Gate;

/// How far a run that reads ahead has got: its pipe, and what is not yet written.
#[derive(Drop)]
pub struct Ahead<A: EventApp> {
    pub pipe: Pipe<A>,
    pub out: Out,
}

impl<A: EventApp + Copy> Ahead<A> {
    /// The state of a run which has not begun, and is to read as many batches ahead as its settings say.
    pub fn new<R, G>(job: &Job<'_, A, R, G>) -> Result<Self, OutOfMemory>
        requires settings { AreInRange job.now.settings }
        requires ahead { 0 < job.now.settings.ahead }
        ensures pipe { IfOk result (λ new. new.pipe
            ≡ new_pipe (new_reader job.now.app job.now.settings.size INPUT_BYTES)
            new.pipe.engine job.now.settings.ahead) }
        ensures layout { IfOk result (λ new. new.pipe.engine.layout
            ≡ layout_of (A.table_count job.now.app) job.now.settings.size) }
        ensures opening { IfOk result (λ new. contents new.pipe.engine ≡ opening_state) }
        ensures empty { IfOk result (λ new. new.out ≡ []) }
    {
        let Opening {
            engine,
            reader,
            out,
        } = Opening::new(job)?;
        Ok(Ahead {
            pipe: Pipe::new(job.host.alloc, reader, engine, job.settings.ahead)?,
            out,
        })
    }
}

/// How a pipe picks the strategy of each batch.
fn picker(planning: Planning) -> Picker
    ensures { (last : Came) (plan : Plan)
        → picked result last plan ≡ strategy_by planning plan last }
{
    match planning {
        Planning::Fixed(strategy) => Picker {
            auto: false,
            strategy,
        },
        Planning::Auto => Picker {
            auto: true,
            strategy: Strategy {
                unit: Unit::Op,
                explore: Explore::Strata,
                abort: Abort::Lazy,
            },
        },
    }
}

/// Whether a result was refused, since a write of it failed.
fn is_untold<A: EventApp>(pipe: &Pipe<A>) -> bool
    ensures { IsTrue result ↔ (pipe.now.tail ≡ Some Tail.Untold) }
{
    matches!(pipe.tail(), Some(Tail::Untold))
}

/// Makes one round, and counts and writes the result of each batch that it runs, at once. If a write fails, the tail of
/// the pipe is [`Tail::Untold`].
fn tell_round<
    R: Threads + Sync,
    A: EventApp + Copy + Send,
    S: Source + Send,
    K: Sink,
    N: Sink,
    G: Gate,
>(
    job: &Job<'_, A, R, G>,
    pick: &Picker,
    ahead: &mut Ahead<A>,
    source: &mut S,
    sink: &mut K,
    notes: &mut N,
    tally: &mut Tally,
)
    requires settings { AreInRange job.now.settings }
    requires going { IsGoing ahead.old.pipe }
    requires next { CanTell (number_before ahead.old.pipe + 1)
        (teller_view job.now.settings ahead.old.out tally.old
        (outputs_of (K.written sink.old) (N.written notes.old))
        (K.faults sink.old) (N.faults notes.old)) }
    ensures round { IsRound A.event_of TellsRan (manner pick.now job.now.settings.workers)
        ahead.old.pipe (S.left source.old)
        (teller_view job.now.settings ahead.old.out tally.old
        (outputs_of (K.written sink.old) (N.written notes.old))
        (K.faults sink.old) (N.faults notes.old))
        ahead.new.pipe (S.left source.new)
        (teller_view job.now.settings ahead.new.out tally.new
        (outputs_of (K.written sink.new) (N.written notes.new))
        (K.faults sink.new) (N.faults notes.new)) }
    ensures next { IsUncut ahead.new.pipe.tail → CanTell (number_before ahead.new.pipe + 1)
        (teller_view job.now.settings ahead.new.out tally.new
        (outputs_of (K.written sink.new) (N.written notes.new))
        (K.faults sink.new) (N.faults notes.new)) }
    ensures never_falls { S.faults source.old ≤ S.faults source.new }
    ensures cause { ahead.old.pipe.tail ≡ None
        → ahead.new.pipe.tail ≡ Some (Tail.Fault ReadFault)
        → HasRisen (S.faults source.old) (S.faults source.new) }
{
    let (host, settings) = (job.host, &job.settings);
    let mut teller = BatchTeller {
        rt: host.rt,
        alloc: host.alloc,
        settings,
        out: &mut ahead.out,
        sink,
        notes,
        tally,
    };
    ahead.pipe.round(
        host.rt,
        host.alloc,
        source,
        pick,
        settings.workers,
        host.gate,
        &mut teller,
    );
}

/// Ends a run that reads ahead, by the tail that its pipe met, which is not that a result was refused: writes the end
/// or the refused line, or returns the fault.
fn end_ahead<R, A: EventApp + Copy, K: Sink, N: Sink, G>(
    job: &Job<'_, A, R, G>,
    ahead: &mut Ahead<A>,
    sink: &mut K,
    notes: &mut N,
    tally: &Tally,
) -> Result<Finish, Fault>
    requires settings { AreInRange job.now.settings }
    requires layout { ahead.old.pipe.engine.layout
        ≡ layout_of (A.table_count job.now.app) job.now.settings.size }
    requires all { length tally.now.settled_by ≡ 17 }
    requires empty { ahead.old.out ≡ [] }
    requires told { ahead.old.pipe.tail ≢ Some Tail.Untold }
    ensures ends { let settings = job.now.settings in let kept = ahead.old.pipe.engine in
        EndsBy ahead.old.pipe.tail result
        (outputs_of (K.written sink.old) (N.written notes.old))
        (told_values (report_of settings) kept.layout (A.name_of job.now.app) (contents kept)
        ++ counts_line tally.now.committed tally.now.aborted)
        (closing_note settings tally.now)
        (outputs_of (K.written sink.new) (N.written notes.new)) }
    ensures sink_faults { K.faults sink.old ≤ K.faults sink.new }
    ensures notes_faults { N.faults notes.old ≤ N.faults notes.new }
    ensures steady { (IsErrOf result Fault.Write → ⊥) → (K.faults sink.new ≡ K.faults sink.old)
        × (N.faults notes.new ≡ N.faults notes.old) }
    ensures write { IsErrOf result Fault.Write → HasRisen (K.faults sink.old) (K.faults sink.new)
        ⊎ (IsTrue job.now.settings.notes × HasRisen (N.faults notes.old) (N.faults notes.new)) }
{
    match ahead.pipe.tail() {
        Some(Tail::End) => {
            let values = ahead.pipe.engine().state();
            tell_closing(&mut ahead.out, sink, notes, job, values, tally)?;
            Ok(Finish::Complete)
        }
        Some(Tail::Refused { line, cause }) => {
            let refusal = Refusal { line, cause };
            tell_refused(&mut ahead.out, sink, notes, &job.settings, &refusal, tally)?;
            Ok(Finish::Refused)
        }
        Some(Tail::Fault(fault)) => Err(fault.into()),
        Some(Tail::Untold) => Err(Fault::Write),
        Some(Tail::RunMemory) | None => Err(Fault::OutOfMemory),
    }
}

/// Runs an application from the opening state over what the pipe's reader reads, in rounds. Each round reads and plans
/// batches while those that were planned before are run. Each result is written as soon as its batch was run, before
/// the next one is run. If a read fails or the limit is met, the batches before are therefore written first, and if a
/// write fails, the run ends, whatever the pipe met.
pub fn run_ahead<
    R: Threads + Sync,
    A: EventApp + Copy + Send,
    S: Source + Send,
    K: Sink,
    N: Sink,
    G: Gate,
>(
    job: &Job<'_, A, R, G>,
    ahead: &mut Ahead<A>,
    source: &mut S,
    sink: &mut K,
    notes: &mut N,
    tally: &mut Tally,
) -> Result<Finish, Fault>
    requires settings { AreInRange job.now.settings }
    requires ahead { 0 < job.now.settings.ahead }
    requires tally { tally.old ≡ no_tally }
    requires pipe { ahead.old.pipe
        ≡ new_pipe (new_reader job.now.app job.now.settings.size INPUT_BYTES)
        ahead.old.pipe.engine job.now.settings.ahead }
    requires layout { ahead.old.pipe.engine.layout
        ≡ layout_of (A.table_count job.now.app) job.now.settings.size }
    requires opening { contents ahead.old.pipe.engine ≡ opening_state }
    requires empty { ahead.old.out ≡ [] }
    ensures run { let app = job.now.app in let settings = job.now.settings in
        RunDoes (request_of (A.event_of app) (A.table_count app) (A.name_of app)
        settings (S.left source.old)) result tally.new
        (streams_of (S.left source.old) (K.written sink.old) (N.written notes.old)
        (fault_counts (S.faults source.old) (K.faults sink.old) (N.faults notes.old)))
        (streams_of (S.left source.new) (K.written sink.new) (N.written notes.new)
        (fault_counts (S.faults source.new) (K.faults sink.new) (N.faults notes.new))) }
{
    let pick = picker(job.settings.planning);
    'rounds: while ahead.pipe.going() {
        tell_round(job, &pick, ahead, source, sink, notes, tally);
        if is_untold(&ahead.pipe) {
            return Err(Fault::Write);
        }
    }
    end_ahead(job, ahead, sink, notes, tally)
}
