//! Settles all events of a batch on the shared board, by several runners that are started once and go over the event
//! levels in order.
ghost use Rattle.std.specs.Prelude.{◌≡◌, ℕ, ◌+◌, ◌*◌, ◌<◌, ◌≤◌, ◌^◌, List as Listed, All, length, map};
ghost use Rattle.morph_base.specs.Graphs.{IsValidPlan};
ghost use Rattle.morph_base.specs.Limits.{most_workers};
ghost use Rattle.op_words.specs.Closing.{IsClosed};
ghost use Rattle.op_words.specs.Hands.{plan_of, cap_of, counters_of, view_of, IsHandOf};
ghost use Rattle.op_eval.specs.declared.runner.Runner.{Runner as R};
ghost use Rattle.op_eval.specs.Gathering.{runners_of};
ghost use Rattle.op_eval.specs.Exploring.{IsExploredBoard};
ghost use Rattle.abort_lazy.specs.Ended.{AddsEmpty, AreAtStart, AreTries, AreCauses};
ghost use Rattle.abort_lazy.specs.Runs.{AreSettling, AreAllHands, IsSettledByRoot, IsSettledRun, IsSettling, idled, root_view};

use morph_base::{List, Plan};
use op_eval::{Explored, Left, Runner, Runners};
use op_words::{Board, Closed, Hand};
use std::alloc::Global;
use std::thread::Threads;
use worker_gate::{Shares, threads_for};

mod level;
mod levels;

use levels::{Levels, go_over_by, pieces};

/// A board and its runners after each event of a batch was tried, before the board is closed.
pub struct SettledRun {
    board: Board,
    runners: Runners,
}

// Not derived: see "What costs" in docs/CONTRIBUTING.md.
impl Drop for SettledRun {
    fn drop(self) {
        let SettledRun {
            board: _,
            runners: _,
        } = self;
    }
}

/// Tries the events of all levels, by workers that are started once. Each level is cut into up to 4 parts, each with a
/// counter of its own.
fn settle_levels<T: Threads + Sync>(
    rt: &T,
    board: &Board,
    runners: &mut [Runner],
    plan: &Plan,
    from: u32,
)
    requires plan { plan.now ≡ plan_of board.now }
    requires valid { IsValidPlan plan.now }
    requires some { 0 < length runners.old }
    requires counters { from + 4 * length plan.now.event_levels.items ≤ counters_of board.now }
    requires few { counters_of board.now < 2 ^ 32 }
    requires ready { (parts : ℕ)
        → All (λ r. IsSettling board.now plan.now from parts 0 r r) runners.old }
    ensures settled { AreSettling board.now plan.now from runners.old runners.new }
{
    let levels = Levels {
        board,
        plan,
        from,
        shares: Shares::among(runners.len(), threads_for(runners.len(), pieces(plan))),
    };
    go_over_by(rt, runners, &levels);
}

/// Settles what exploring left: each event is tried once, by a runner that goes over the event levels in order.
///
/// The runners are started once, and each goes over all levels, without a stop between them. Each level is cut into up
/// to 4 parts, each with a counter of its own, the first one being `next_counter` of the run. A runner goes over the
/// parts of a level one after the other. At a part it takes a burst of numbers from the part's counter, up to 16, and
/// tries the events with these numbers in the part. If a level has fewer than 8 events, the first runner goes over it
/// alone. Else all go over it, each until it saw the counters of all parts run out. Each worker begins with a part of its
/// own, and goes on with the next one in the circle. So workers of different threads, up to 4 of them, begin at different
/// counters.
///
/// Before a runner tries an event it waits until the event's sources are settled, since other runners may still be at
/// lower levels. Its patience is bounded, by a number of looks for all levels together. An event whose sources are not
/// settled when patience ends is left, with its cause. The runner that tried an event keeps why it was not settled. A
/// root that is the only hand ever made settles all, and never waits.
pub fn settle_all<T: Threads + Sync>(rt: &T, run: Explored, plan: &Plan) -> SettledRun
    requires explored { IsExploredBoard run }
    requires plan { plan.now ≡ plan_of run.board }
    requires valid { IsValidPlan plan.now }
    requires counters { run.next_counter + 4 * length plan.now.event_levels.items
        ≤ counters_of run.board }
    requires few { counters_of run.board < 2 ^ 32 }
    ensures board { result.board ≡ run.board }
    ensures run { IsSettledRun result }
    ensures settled { AreSettling run.board plan.now run.next_counter (runners_of run.runners)
        (runners_of result.runners) }
    ensures alone { IsSettledByRoot plan.now (runners_of run.runners) (runners_of result.runners) }
    ensures all { AreAllHands (runners_of run.runners) → AreAllHands (runners_of result.runners) }
{
    let (board, mut runners, _, from) = run.parts();
    settle_levels(rt, &board, runners.as_mut_slice(), plan, from);
    SettledRun { board, runners }
}

/// Makes a hand for each of this many workers who had no work, and joins it as it is. Each of them left nothing.
fn add_idle(alloc: Global, board: &Board, root: &mut Hand, left: &mut List<List<Left>>, idle: u32)
    requires root { IsHandOf board.now root.old }
    requires tag { (view_of root.old).tag ≡ 1 }
    requires few { 0 < idle → (view_of root.old).made + idle ≤ most_workers }
    requires room { idle ≤ left.old.room }
    ensures root { IsHandOf board.now root.new }
    ensures view { view_of root.new ≡ idled idle (view_of root.old) }
    ensures left { AddsEmpty idle left.old.items left.new.items }
{
    'hands: for _ in 0..idle {
        let hand = board.split(root);
        board.join(root, hand);
        left.add(List::new(alloc));
    }
}

impl SettledRun {
    /// Joins the hands into the root and closes the board. Returns the closed board, and why events were not settled by
    /// the runners that tried them, worker 1 first. The runners' hands are all those of the board.
    ///
    /// `idle` more workers had no work: there is a hand for each, which did nothing, and an empty list after those of
    /// the runners. With the runners there are at most [`WORKERS`](morph_base::WORKERS) of them.
    ///
    /// If the plan is valid, the run was settled by [`settle_all`], and its runners had left nothing before, then each
    /// event was tried once, over all of them. A cause is true of the closed board: the worker that tried the event
    /// loaded a word that kept it from settling all of the event. An event has at most one cause, and it has one if not
    /// all of it is settled.
    ///
    /// It takes no memory.
    pub fn close(self, alloc: Global, plan: &Plan, idle: u32) -> (Closed, List<List<Left>>)
        requires run { IsSettledRun self }
        requires plan { plan.now ≡ plan_of self.board }
        requires all { AreAllHands (runners_of self.runners) }
        requires places { 0 < idle → length (runners_of self.runners) + idle ≤ most_workers }
        requires few { 0 < idle → (d : R)
            → (root_view 0 d (runners_of self.runners)).made + idle ≤ most_workers }
        ensures closed { (d : R)
            → IsClosed (plan_of self.board) (cap_of self.board) (counters_of self.board)
            (root_view idle d (runners_of self.runners)) result.0 }
        ensures left { AddsEmpty idle (map (λ r. r.kept) (runners_of self.runners)) result.1.items }
        ensures tried { (from : ℕ) (start : Listed R) → IsValidPlan plan.now → AreAtStart from start
            → AreSettling self.board plan.now from start (runners_of self.runners)
            → AreTries plan.now start (runners_of self.runners) }
        ensures causes { (d : R) (from : ℕ) (start : Listed R)
            (is : IsClosed plan.now (cap_of self.board) (counters_of self.board)
            (root_view idle d (runners_of self.runners)) result.0)
            → IsValidPlan plan.now → AreAtStart from start
            → AreSettling self.board plan.now from start (runners_of self.runners)
            → AreCauses plan.now is.ends.core (root_view idle d (runners_of self.runners))
            (map (λ list. list.items) result.1.items) }
    {
        let SettledRun { board, runners } = self;
        let (mut root, mut left) = runners.gather(&board);
        add_idle(alloc, &board, &mut root, &mut left, idle);
        (board.close(plan, root), left)
    }
}
