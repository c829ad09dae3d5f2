ghost use Rattle.std.specs.Prelude.{◌≡◌, ◌↔◌, [], IfOk, IfSome, IsSome, IsTrue};
ghost use Rattle.event_reader.specs.declared.limits.TheConstants.{INPUT_BYTES};
ghost use Rattle.event_reader.specs.Reader.{new_reader};
ghost use Rattle.morph_base.specs.Flat.{contents};
ghost use Rattle.morph_base.specs.States.{opening_state};
ghost use Rattle.morph_cli.specs.Batches.{IsShown};
ghost use Rattle.morph_cli.specs.Runs.{layout_of};
ghost use Rattle.decision_model.specs.Choices.{no_last};
ghost use Rattle.run_text.specs.Settings.{AreInRange};

use crate::job::Job;
use crate::watch::Watching;
use decision_model::Last;
use event_reader::{BatchReader, EventApp, INPUT_BYTES};
use morph_base::OutOfMemory;
use morph_engine::Engine;
use morph_io::Out;
use std::sync::Wait;

/// What a run begins with: an engine, a reader, and what is not yet written.
#[derive(Drop)]
pub struct Opening<A> {
    pub engine: Engine,
    pub reader: BatchReader<A>,
    pub out: Out,
}

impl<A: EventApp + Copy> Opening<A> {
    /// The start of a run which has not begun.
    pub fn new<R, G>(job: &Job<'_, A, R, G>) -> Result<Self, OutOfMemory>
        requires { AreInRange job.now.settings }
        ensures reader { IfOk result (λ new.
            new.reader ≡ new_reader job.now.app job.now.settings.size INPUT_BYTES) }
        ensures layout { IfOk result (λ new.
            new.engine.layout ≡ layout_of (A.table_count job.now.app) job.now.settings.size) }
        ensures opening { IfOk result (λ new. contents new.engine ≡ opening_state) }
        ensures empty { IfOk result (λ new. new.out ≡ []) }
    {
        let alloc = job.host.alloc;
        let size = job.settings.size;
        Ok(Opening {
            engine: Engine::new(alloc, job.layout())?,
            reader: BatchReader::new(alloc, job.app, size, INPUT_BYTES)?,
            out: Out::new(alloc)?,
        })
    }
}

/// How far a run has got: the state of its engine, what was read, what is not yet written, the outcome of the last
/// batch, and what watches its balances.
pub struct Progress<A> {
    pub engine: Engine,
    pub reader: BatchReader<A>,
    pub out: Out,
    pub last: Last,
    pub watching: Option<Watching>,
}

impl<A: EventApp + Copy> Progress<A> {
    /// The progress of a run which has not begun. Its balances are watched if its settings ask for it.
    pub fn new<R, G>(job: &Job<'_, A, R, G>) -> Result<Self, OutOfMemory>
        requires { AreInRange job.now.settings }
        ensures reader { IfOk result (λ new.
            new.reader ≡ new_reader job.now.app job.now.settings.size INPUT_BYTES) }
        ensures layout { IfOk result (λ new.
            new.engine.layout ≡ layout_of (A.table_count job.now.app) job.now.settings.size) }
        ensures opening { IfOk result (λ new. contents new.engine ≡ opening_state) }
        ensures empty { IfOk result (λ new. new.out ≡ []) }
        ensures last { IfOk result (λ new. new.last ≡ no_last) }
        ensures shown { IfOk result (λ new.
            IfSome new.watching (IsShown new.engine.layout 0 opening_state)) }
        ensures watch { IfOk result (λ new.
            IsSome new.watching ↔ IsTrue job.now.settings.watch) }
    {
        let opening = Opening::new(job)?;
        let watching = Watching::asked(job)?;
        Ok(Progress {
            engine: opening.engine,
            reader: opening.reader,
            out: opening.out,
            last: Last {
                events: 0,
                aborted: 0,
            },
            watching,
        })
    }
}

impl<A> Progress<A> {
    /// Ends what watches the balances. It may wait for a viewer that is reading.
    pub fn end<R: Wait>(self, rt: &R)
    where
        A: Drop,
    {
        let Progress {
            engine: _engine,
            reader: _reader,
            out: _out,
            last: _,
            watching,
        } = self;
        if let Some(watching) = watching {
            watching.end(rt);
        }
    }
}
