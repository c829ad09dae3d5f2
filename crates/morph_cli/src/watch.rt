ghost use Rattle.std.specs.Prelude.{◌≡◌, ◌+◌, ◌^◌, ◌<◌, ◌≤◌, ◌↔◌, [], length, true};
ghost use Rattle.std.specs.Prelude.{false, IfOk, IfSome, IsSome, IsTrue, OnOk, OnErr};
ghost use Rattle.std.specs.Thread.{IsSync};
ghost use Rattle.morph_base.specs.Flat.{contents};
ghost use Rattle.morph_base.specs.Plans.{IsPlan, HasBases, PlanKeysIn, IsSettledOf};
ghost use Rattle.morph_base.specs.States.{IsUpTo, fold_batch};
ghost use Rattle.morph_base.specs.Transactions.{IsBatch, BatchKeysIn, high_of_all, transactions_of};
ghost use Rattle.run_text.specs.Checks.{is_checked};
ghost use Rattle.run_text.specs.Settings.{AreInRange};
ghost use Rattle.snapshot_reader.specs.Batches.{after_plans};
ghost use Rattle.snapshot_reader.specs.Known.{most_ids};
ghost use Rattle.version_table.specs.Totals.{total_of};
ghost use Rattle.morph_cli.specs.Batches.{IsEndOf, IsSeen, also_posted};
ghost use Rattle.morph_cli.specs.Runs.{layout_of};

use crate::job::{Host, Job};
use crate::run_batch::run_batch;
use decision_model::Last;
use event_reader::EventApp;
use morph_base::{Batch, Layout, OutOfMemory};
use morph_engine::{BatchEnd, Engine};
use run_text::Settings;
use snapshot_reader::{Publisher, Total, Viewer, snapshots};
use std::alloc::Global;
use std::marker::Model;
use std::sync::Wait;
use std::thread::{Threads, join_mut};
use worker_gate::Gate;

/// A batch that was run, and what was seen of the balances beside it.
#[derive(Drop)]
pub struct Watched {
    pub end: BatchEnd,
    /// The sum of the first table before the batch, with the number of batches before it; none if nothing was seen.
    pub audit: Option<Total>,
}

/// Publishes the balances of a run after each batch, and looks at them while the next one is run. Contracts see the
/// layout and the batches that were published.
///
/// It is not `Drop`, since its end may wait for its viewer: end it by [`Watching::end`].
pub struct Watching {
    publisher: Publisher,
    viewer: Viewer,
}

impl Model for Watching {
    ghost use Rattle.std.specs.Prelude.{◌≡◌};
    ghost use Rattle.snapshot_reader.specs.Steady.{Posted};

    ghost Value = { Posted };

    ghost view = { λ w. w.publisher };

    ghost invariant = { λ w. w.viewer.layout ≡ w.publisher.layout };
}

impl Watching {
    /// A watch that has published nothing, of balances that are all 0.
    pub fn new(alloc: Global, layout: Layout) -> Result<Self, OutOfMemory>
        requires { layout.size ≤ most_ids }
        ensures layout { IfOk result (λ made. made.layout ≡ layout) }
        ensures none { IfOk result (λ made. made.plans ≡ []) }
    {
        let (publisher, mut viewers) = snapshots(alloc, layout, 1)?;
        let viewer = viewers.pop().unwrap();
        Ok(Watching { publisher, viewer })
    }

    /// The watch of a run, if its settings ask for one.
    pub fn asked<A: EventApp, R, G>(job: &Job<'_, A, R, G>) -> Result<Option<Self>, OutOfMemory>
        requires { AreInRange job.now.settings }
        ensures asked { IfOk result (λ made. IsSome made ↔ IsTrue job.now.settings.watch) }
        ensures layout { IfOk result (λ made. IfSome made (λ posted.
            posted.layout ≡ layout_of (A.table_count job.now.app) job.now.settings.size)) }
        ensures none { IfOk result (λ made. IfSome made (λ posted. posted.plans ≡ [])) }
    {
        if !job.settings.watch {
            return Ok(None);
        }
        Ok(Some(Watching::new(job.host.alloc, job.layout())?))
    }

    /// Ends the watch, its viewer first. It may wait for a viewer that is reading.
    pub fn end<R: Wait>(self, rt: &R) {
        let Watching { publisher, viewer } = self;
        drop(viewer);
        publisher.end(rt);
    }
}

/// The sum of the first table as a viewer sees it, if that is after as many batches as the viewer was told of.
fn look(viewer: &mut Viewer, told: u64) -> Option<Total>
    requires { viewer.old.sees ≡ true → told ≡ length viewer.old.told }
    ensures seen { IfSome result (λ seen. (viewer.old.sees ≡ true) × (seen.number ≡ told)
        × (seen.total ≡ total_of (after_plans viewer.old.told) 0 viewer.old.layout.size)) }
    ensures layout { viewer.new.layout ≡ viewer.old.layout }
{
    let seen = viewer.total(0)?;
    if seen.number == told {
        Some(seen)
    } else {
        None
    }
}

/// In a batch of this many events a viewer looks in a thread of its own. In a smaller one that would take longer than
/// the look.
const THREAD_EVENTS: usize = 4_096;

/// Does a job for a batch of this many events. If the balances are watched, the viewer is told of all batches that were
/// published, and looks in a thread of its own while the job is done, or before it if the batch is small.
pub fn look_beside<R: Threads, F: FnMut() -> T, T>(
    rt: &R,
    watching: &mut Option<Watching>,
    events: usize,
    job: &mut F,
) -> (Option<Total>, T)
    requires { F.pre job.old }
    ensures audit { IfSome result.0 (IsSeen watching.old) }
    ensures watching { watching.new ≡ watching.old }
    ensures job { F.step job.old result.1 job.new }
{
    let Some(watching) = watching else {
        return (None, job());
    };
    watching.publisher.tell(&mut watching.viewer);
    let told = watching.publisher.number();
    let viewer = &mut watching.viewer;
    if events < THREAD_EVENTS {
        return (look(viewer, told), job());
    }
    join_mut(rt, &mut || look(viewer, told), job)
}

/// Makes the plan of a batch and runs it, as [`run_batch`] does, beside a look if the balances are watched.
pub fn run_watched<R: Threads + Sync, G: Gate>(
    host: &Host<'_, R, G>,
    watching: &mut Option<Watching>,
    engine: &mut Engine,
    batch: &mut Batch,
    settings: &Settings,
    last: Last,
) -> Result<Watched, OutOfMemory>
    requires settings { AreInRange settings.now }
    requires batch { IsBatch batch.old }
    requires keys { BatchKeysIn engine.old.layout batch.old }
    requires small { IsUpTo (high_of_all (transactions_of batch.old)) (contents engine.old) }
    ensures layout { engine.new.layout ≡ engine.old.layout }
    ensures state { OnOk result (contents engine.new ≡ fold_batch batch.old (contents engine.old)) }
    ensures ran { IfOk result (λ ran. IsEndOf settings.now last engine.old batch.old ran.end) }
    ensures audit { IfOk result (λ ran. IfSome ran.audit (IsSeen watching.old)) }
    ensures watching { watching.new ≡ watching.old }
    ensures refused { is_checked settings.now.check ≡ false
        → OnErr result (engine.new ≡ engine.old) }
{
    let (audit, end) = look_beside(
        host.rt,
        watching,
        batch.len(),
        &mut ||
            requires { IsSync R.row × IsSync G.row × AreInRange settings.now × IsBatch batch.now
                × BatchKeysIn engine.now.layout batch.now
                × IsUpTo (high_of_all (transactions_of batch.now)) (contents engine.now) }
        { run_batch(host, engine, batch, settings, last) },
    );
    Ok(Watched { end: end?, audit })
}

/// Publishes the balances after a batch that was run, if they are watched. It may wait for the viewer. If memory is
/// refused, nothing was published.
pub fn publish<R: Wait>(
    rt: &R,
    alloc: Global,
    watching: &mut Option<Watching>,
    end: &BatchEnd,
) -> Result<(), OutOfMemory>
    requires plan { IsPlan end.now.plan }
    requires settled { IsSettledOf end.now.plan end.now.settled }
    requires keys { IfSome watching.old (λ posted. PlanKeysIn end.now.plan posted.layout) }
    requires bases { IfSome watching.old
        (λ posted. HasBases end.now.plan (after_plans posted.plans)) }
    requires room { IfSome watching.old (λ posted. length posted.plans + 1 < 2 ^ 64) }
    ensures published { OnOk result (watching.new ≡ also_posted end.now.plan watching.old) }
    ensures refused { OnErr result (watching.new ≡ watching.old) }
{
    if let Some(watching) = watching {
        watching
            .publisher
            .publish(rt, alloc, &end.plan, &end.settled)?;
    }
    Ok(())
}
