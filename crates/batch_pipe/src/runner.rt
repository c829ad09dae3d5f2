ghost use Rattle.std.specs.Prelude.{◌≡◌, ◌+◌, ◌∷◌, ◌++◌, ◌≤◌, ◌↔◌, [], not, count_by, IfOk, IfSome, IfNone, IsTrue};
ghost use Rattle.std.specs.Prelude.{OnOk, OnErr};
ghost use Rattle.morph_base.specs.Limits.{most_workers};
ghost use Rattle.morph_base.specs.Flat.{contents};
ghost use Rattle.morph_base.specs.States.{after_all};
ghost use Rattle.morph_base.specs.Plans.{IsPlan, IsSettledOf, transactions};
ghost use Rattle.event_reader.specs.Limits.{input_bytes};
ghost use Rattle.morph_engine.specs.Fates.{settled_fates};
ghost use Rattle.rtrb.specs.Ring.{received, known_items, SameConsumer};
ghost use Rattle.batch_pipe.specs.PlannedBatches.{IsReadySent};
ghost use Rattle.batch_pipe.specs.PlanRuns.{IsSentRun, RunsPlans, HasRunPlans, IsRunnable, IsBehind};
ghost use Rattle.batch_pipe.specs.PlanRuns.{CanRun, CanGoOn, came_of, desk, manner, one_or_none};
ghost use Rattle.decision_model.specs.Choices.{last_of};

use crate::items::{Picker, Ran, ReadyPlans, Sent};
use crate::meeting::{Meeting, await_plan};
use crate::teller::Teller;
use decision_model::Last;
use morph_base::{Layout, OutOfMemory};
use morph_engine::{BatchEnd, Engine};
use rtrb::Consumer;
use std::alloc::Global;
use std::thread::Threads;
use worker_gate::Gate;

/// What plans are run with, and how.
#[derive(Drop)]
pub(crate) struct Host<'a, R, G> {
    pub(crate) rt: &'a R,
    pub(crate) alloc: Global,
    pub(crate) gate: &'a G,
    pub(crate) pick: Picker,
    /// From 1 on.
    pub(crate) workers: u32,
    /// How many plans were sent when the halves begin, which is the number of the last that waits.
    pub(crate) sent: u64,
    /// The greatest value of the plans that wait.
    pub(crate) greatest: u64,
}

/// The side of a pipe that runs plans.
#[derive(Drop)]
pub(crate) struct Runner {
    pub(crate) engine: Engine,
    pub(crate) ring: Consumer<Sent, Global, ReadyPlans>,
    /// The outcome of the batch that was run last.
    pub(crate) last: Last,
}

/// How the runs of a round ended.
#[derive(Clone, Copy, Debug, PartialEq, Eq)]
pub(crate) enum RunEnd {
    /// All plans that were to be run were run, and all results were taken.
    Whole,
    /// Memory to run a plan was refused.
    NoMemory,
    /// The teller refused a result.
    Untold,
}

impl RunEnd {
    /// Whether all plans were run, and all results were taken.
    pub(crate) fn is_whole(self) -> bool
        ensures { IsTrue result ↔ (self ≡ RunEnd.Whole) }
    {
        matches!(self, RunEnd::Whole)
    }
}

/// How many of some verdicts abort.
fn aborts(verdicts: &[bool]) -> usize
    ensures { result ≡ count_by not verdicts.now }
{
    verdicts.iter().filter(|verdict| !**verdict).count()
}

/// The outcome of a batch, for the one behind it.
fn last_by(end: &BatchEnd) -> Last
    requires settled { IsSettledOf end.now.plan end.now.settled }
    ensures { result ≡ last_of (settled_fates end.now.plan end.now.settled) }
{
    Last {
        events: end.plan.events.len() as u64,
        aborted: aborts(end.settled.committed.as_slice()) as u64,
    }
}

/// Runs a plan that was sent, from the present state.
fn run_one<R: Threads + Sync, G: Gate>(
    host: &Host<'_, R, G>,
    engine: &mut Engine,
    last: &mut Last,
    sent: Sent,
) -> Result<Ran, OutOfMemory>
    requires ready { IsRunnable engine.old sent.plan }
    requires some { 1 ≤ host.now.workers }
    requires few { host.now.workers ≤ most_workers }
    ensures run { IfOk result (IsSentRun (manner host.now.pick host.now.workers)
        (contents engine.old) last.old sent) }
    ensures state { OnOk result (contents engine.new
        ≡ after_all (contents engine.old) (transactions sent.plan)) }
    ensures last { IfOk result (λ ran. last.new ≡ came_of ran) }
    ensures layout { engine.new.layout ≡ engine.old.layout }
    ensures refused { OnErr result ((engine.new ≡ engine.old) × (last.new ≡ last.old)) }
{
    let Sent {
        number,
        mut plan,
        ..
    } = sent;
    engine.rebase(&mut plan);
    let strategy = host.pick.pick(&plan, *last);
    let workers = host.workers;
    let end = engine.run_batch(host.rt, host.alloc, plan, &strategy, workers, host.gate)?;
    *last = last_by(&end);
    Ok(Ran {
        number,
        strategy,
        end,
    })
}

/// Runs a plan, and hands its result to the teller.
fn run_into<R: Threads + Sync, G: Gate, T: Teller>(
    host: &Host<'_, R, G>,
    runner: &mut Runner,
    teller: &mut T,
    sent: Sent,
) -> RunEnd
    requires ready { IsRunnable runner.old.engine sent.plan }
    requires number { T.can_take teller.old sent.number }
    requires last { sent.number ≤ input_bytes + 1 }
    requires some { 1 ≤ host.now.workers }
    requires few { host.now.workers ≤ most_workers }
    ensures runs { RunsPlans T.takes (manner host.now.pick host.now.workers)
        (desk runner.old teller.old) (sent ∷ []) result (desk runner.new teller.new) }
    ensures ring { runner.new.ring ≡ runner.old.ring }
    ensures layout { runner.new.engine.layout ≡ runner.old.engine.layout }
{
    match run_one(host, &mut runner.engine, &mut runner.last, sent) {
        Ok(ran) => {
            if teller.take(ran) {
                RunEnd::Whole
            } else {
                RunEnd::Untold
            }
        }
        Err(_) => RunEnd::NoMemory,
    }
}

/// Runs the plan that does not go through the ring, if there is one, and hands its result to the teller.
fn run_first<R: Threads + Sync, G: Gate, T: Teller>(
    host: &Host<'_, R, G>,
    runner: &mut Runner,
    teller: &mut T,
    first: Option<Sent>,
) -> RunEnd
    requires ready { IfSome first (λ sent. IsRunnable runner.old.engine sent.plan) }
    requires number { IfSome first (λ sent. T.can_take teller.old sent.number) }
    requires last { IfSome first (λ sent. sent.number ≤ input_bytes + 1) }
    requires some { 1 ≤ host.now.workers }
    requires few { host.now.workers ≤ most_workers }
    ensures runs { RunsPlans T.takes (manner host.now.pick host.now.workers)
        (desk runner.old teller.old) (one_or_none first) result (desk runner.new teller.new) }
    ensures ring { runner.new.ring ≡ runner.old.ring }
    ensures layout { runner.new.engine.layout ≡ runner.old.engine.layout }
{
    match first {
        None => RunEnd::Whole,
        Some(sent) => run_into(host, runner, teller, sent),
    }
}

/// Runs the plans that wait: the one that does not go through the ring, if there is one, and those that are known to be
/// in the ring. It pops no other. Each result goes to the teller before the next plan is run.
///
/// Returns how the runs ended. A plan for which memory was refused is dropped, and those behind it stay. If the teller
/// refuses a result, the plans behind it stay too.
pub(crate) fn run_waiting<R: Threads + Sync, G: Gate, T: Teller>(
    host: &Host<'_, R, G>,
    runner: &mut Runner,
    teller: &mut T,
    first: Option<Sent>,
) -> RunEnd
    requires waiting { CanRun T.can_take host.now.greatest host.now.sent (one_or_none first)
        runner.old teller.old }
    requires some { 1 ≤ host.now.workers }
    requires few { host.now.workers ≤ most_workers }
    ensures runs { HasRunPlans T.takes (manner host.now.pick host.now.workers)
        (one_or_none first) (known_items runner.old.ring) runner.old teller.old
        result runner.new teller.new }
    ensures goes_on { result ≡ RunEnd.Whole
        → CanGoOn T.can_take host.now.greatest host.now.sent runner.new teller.new }
{
    let end = run_first(host, runner, teller, first);
    if !end.is_whole() {
        return end;
    }
    for _ in 0..runner.ring.cached_slots() {
        let sent = runner.ring.pop_known();
        let end = run_into(host, runner, teller, sent);
        if !end.is_whole() {
            return end;
        }
    }
    RunEnd::Whole
}

/// Whether a plan is the one behind that of number `before`, for this layout and with this greatest value.
fn is_next(sent: &Sent, layout: Layout, greatest: u64, before: u64) -> bool
    requires few { before ≤ input_bytes + 1 }
    ensures { IsTrue result → IsBehind layout greatest before sent.now }
{
    sent.number == before + 1 && sent.greatest == greatest && sent.layout == layout
}

/// Takes the next plan from the ring, if it comes soon while the planner is at work, and is the one behind that of
/// number `before`, for this layout and with this greatest value. One that comes later, or is another, waits for the
/// next round.
fn take_coming(
    ring: &mut Consumer<Sent, Global, ReadyPlans>,
    meeting: &Meeting,
    layout: Layout,
    greatest: u64,
    before: u64,
) -> Option<Sent>
    requires few { before ≤ input_bytes + 1 }
    ensures ring { SameConsumer ring.old ring.new }
    ensures taken { IfSome result (λ sent. received ring.new ≡ received ring.old ++ sent ∷ []) }
    ensures sound { IfSome result IsReadySent }
    ensures next { IfSome result (IsBehind layout greatest before) }
    ensures left { IfNone result (received ring.new ≡ received ring.old) }
{
    if !await_plan(ring, meeting) {
        return None;
    }
    if !is_next(ring.peek_known(), layout, greatest, before) {
        return None;
    }
    Some(ring.pop_known())
}

/// Runs the plans that come while the planner is at work, as long as each comes soon. Each result goes to the teller
/// before the next plan is taken.
pub(crate) fn run_coming<R: Threads + Sync, G: Gate, T: Teller>(
    host: &Host<'_, R, G>,
    meeting: &Meeting,
    runner: &mut Runner,
    teller: &mut T,
) -> RunEnd
    requires able { CanGoOn T.can_take host.now.greatest host.now.sent runner.old teller.old }
    requires some { 1 ≤ host.now.workers }
    requires few { host.now.workers ≤ most_workers }
    ensures { HasRunPlans T.takes (manner host.now.pick host.now.workers) [] []
        runner.old teller.old result runner.new teller.new }
{
    let layout = runner.engine.state().layout();
    let mut number = host.sent;
    while let Some(sent) = take_coming(&mut runner.ring, meeting, layout, host.greatest, number) {
        number = sent.number;
        let end = run_into(host, runner, teller, sent);
        if !end.is_whole() {
            return end;
        }
    }
    RunEnd::Whole
}
