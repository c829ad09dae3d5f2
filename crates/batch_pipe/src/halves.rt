ghost use Rattle.std.specs.Prelude.{◌≡◌, ◌≢◌, ℕ, ◌+◌, ◌≤◌, [], length, false, IfNone, IfSome, IsTrue};
ghost use Rattle.std.specs.Thread.{IsSync};
ghost use Rattle.morph_base.specs.Limits.{most_workers};
ghost use Rattle.morph_io.specs.Told.{HasRisen};
ghost use Rattle.event_reader.specs.declared.fault.ReaderFault.TheVariants.{ReadFault};
ghost use Rattle.rtrb.specs.Ring.{known_items, SameProducer};
ghost use Rattle.event_reader.specs.Reader.{SameReader};
ghost use Rattle.batch_pipe.specs.PlannedBatches.{HasPlanned, HasFilled, CanPlan, IsIdlePlanner};
ghost use Rattle.batch_pipe.specs.PlanRuns.{CanRun, HasRunPlans, manner, one_or_none};

use crate::items::Sent;
use crate::meeting::Meeting;
use crate::planner::{Planner, plan_half};
use crate::runner::{Host, RunEnd, Runner, run_coming, run_waiting};
use crate::tail::Tail;
use crate::teller::Teller;
use event_reader::EventApp;
use morph_io::Source;
use std::thread::{Threads, join_mut};
use worker_gate::Gate;

/// A plan of this many operations is run side by side with reading and planning the next ones. Beside a smaller one the
/// start of a thread would cost more than it saves: docs/PERFORMANCE.md.
const SHARED_OPS: usize = 16_384;

/// The runner's half of a round: it runs the plans that wait, and those that come meanwhile, and hands each result to
/// the teller at once.
fn run_half<R: Threads + Sync, G: Gate, T: Teller>(
    host: &Host<'_, R, G>,
    meeting: &Meeting,
    runner: &mut Runner,
    teller: &mut T,
    first: &mut Option<Sent>,
) -> RunEnd
    requires waiting { CanRun T.can_take host.now.greatest host.now.sent
        (one_or_none first.old) runner.old teller.old }
    requires some { 1 ≤ host.now.workers }
    requires few { host.now.workers ≤ most_workers }
    ensures { HasRunPlans T.takes (manner host.now.pick host.now.workers)
        (one_or_none first.old) (known_items runner.old.ring) runner.old teller.old
        result runner.new teller.new }
{
    let first = first.take();
    let waited = run_waiting(host, runner, teller, first);
    if !waited.is_whole() {
        meeting.runner_leaves();
        return waited;
    }
    let end = run_coming(host, meeting, runner, teller);
    meeting.runner_leaves();
    end
}

/// How many operations the first plan has that is to be run, or 0 if none waits.
fn first_ops(runner: &Runner, first: &Option<Sent>) -> usize {
    match first {
        Some(sent) => sent.plan.ops.len(),
        None if runner.ring.cached_slots() > 0 => runner.ring.peek_known().plan.ops.len(),
        None => 0,
    }
}

/// The two halves of a round: side by side; or one after the other, if the first plan has fewer than 16,384 operations
/// or nothing is to be planned. The plans that wait are run in the caller's thread.
pub(crate) fn run_halves<
    R: Threads + Sync,
    A: EventApp + Send,
    S: Source + Send,
    G: Gate,
    T: Teller,
>(
    host: &Host<'_, R, G>,
    planning: bool,
    planner: &mut Planner<A>,
    source: &mut S,
    runner: &mut Runner,
    teller: &mut T,
    first: Option<Sent>,
) -> (Option<Tail>, RunEnd)
    requires able { IsTrue planning → CanPlan A.table_count planner.old }
    requires waiting { CanRun T.can_take host.now.greatest host.now.sent (one_or_none first)
        runner.old teller.old }
    requires some { 1 ≤ host.now.workers }
    requires few { host.now.workers ≤ most_workers }
    ensures plans { HasPlanned A.event_of A.table_count
        planner.old (S.left source.old) result.0 planner.new (S.left source.new) }
    ensures ring { SameProducer planner.old.ring planner.new.ring }
    ensures filled { IsTrue planning → IfNone result.0 (HasFilled planner.old planner.new) }
    ensures able { IsTrue planning → IfNone result.0 (CanPlan A.table_count planner.new) }
    ensures idle { planning ≡ false
        → IsIdlePlanner planner.old (S.left source.old) result.0 planner.new (S.left source.new) }
    ensures planner { IfSome result.0 (λ tail. tail ≢ Tail.RunMemory) }
    ensures same { SameReader planner.old.reader planner.new.reader }
    ensures never_falls { S.faults source.old ≤ S.faults source.new }
    ensures cause { IfSome result.0 (λ tail. tail ≡ Tail.Fault ReadFault
        → HasRisen (S.faults source.old) (S.faults source.new)) }
    ensures runs { HasRunPlans T.takes (manner host.now.pick host.now.workers)
        (one_or_none first) (known_items runner.old.ring) runner.old teller.old
        result.1 runner.new teller.new }
{
    let mut first = first;
    let alloc = host.alloc;
    let beside = planning && first_ops(runner, &first) >= SHARED_OPS;
    let meeting = Meeting::new(beside);
    if !beside {
        let end = run_half(host, &meeting, runner, teller, &mut first);
        return (plan_half(alloc, planning, &meeting, planner, source), end);
    }
    join_mut(
        host.rt,
        &mut || plan_half(alloc, planning, &meeting, planner, source),
        &mut || -> RunEnd
            requires { IsSync R.row × CanRun T.can_take host.now.greatest host.now.sent
                (one_or_none first) runner.now teller.now
                × (1 ≤ host.now.workers) × (host.now.workers ≤ most_workers) }
            ensures { HasRunPlans T.takes (manner host.entry.now.pick host.entry.now.workers)
                (one_or_none first.entry) (known_items runner.entry.now.ring)
                runner.entry.now teller.entry.now result runner.exit.now teller.exit.now }
        { run_half(host, &meeting, runner, teller, &mut first) },
    )
}
