//! Goes over the events of one part of a level, in bursts of numbers that a runner takes from the part's counter.
ghost use Rattle.std.specs.Prelude.{◌≡◌, ℕ, ◌<◌, ◌≤◌, [], All, length};
ghost use Rattle.op_words.specs.Hands.{IsHandOf};
ghost use Rattle.op_eval.specs.declared.burst.TheConstants.{BURST};
ghost use Rattle.op_eval.specs.declared.runner.Runner.{Runner as R};
ghost use Rattle.op_eval.specs.Running.{hand_view, IsFreeRunner};
ghost use Rattle.abort_lazy.specs.Transactions.{MaySettleEvent};
ghost use Rattle.abort_lazy.specs.Sweeps.{HasTriedOne, FitsBoard, CanSweep, HasSwept, IsSweeping};

use crate::transaction::{Grounds, TxnAnswer, end_of, first_of, settle_with};
use morph_base::Plan;
use op_eval::{Burst, Left, Patience, Runner};
use op_words::Board;

/// The events of a part of a level. Workers take their numbers in the part from a counter.
#[derive(Drop)]
pub struct Sweep<'a> {
    pub board: &'a Board,
    pub plan: &'a Plan,
    pub events: &'a [u32],
    pub counter: u32,
    /// How many numbers a worker takes before it tries the first of their events.
    pub burst: usize,
}

/// Waits until the sources of an event's operations are settled, as long as patience lasts.
fn await_event(board: &Board, runner: &mut Runner, plan: &Plan, event: u32, patience: &mut Patience)
    requires may { MaySettleEvent board.now runner.old.hand plan.now event }
    ensures hand { IsHandOf board.now runner.new.hand }
    ensures view { hand_view runner.new ≡ hand_view runner.old }
    ensures answers { runner.new.answers ≡ runner.old.answers }
    ensures kept { runner.new.kept ≡ runner.old.kept }
{
    if !patience.lasts() {
        return;
    }
    let (first, end) = (first_of(plan, event), end_of(plan, event));
    for op in first..end {
        patience.await_sources(board, runner, plan, op, true);
    }
}

/// Tries to settle an event, and keeps why it was not settled.
fn settle_or_keep(
    board: &Board,
    runner: &mut Runner,
    plan: &Plan,
    event: u32,
    grounds: &mut Grounds,
)
    requires may { MaySettleEvent board.now runner.old.hand plan.now event }
    requires room { 0 < runner.old.kept.room }
    ensures hand { IsHandOf board.now runner.new.hand }
    ensures tried { HasTriedOne plan.now event runner.old runner.new }
{
    match settle_with(board, runner, plan, event, grounds) {
        TxnAnswer::Settled { .. } => {}
        TxnAnswer::NotYet { at, word } => runner.kept.add(Left {
            event,
            at,
            word,
            busy: false,
        }),
        TxnAnswer::Busy { at, word } => runner.kept.add(Left {
            event,
            at,
            word,
            busy: true,
        }),
    }
}

/// Waits for the sources of an event, and tries to settle it.
fn try_event(
    board: &Board,
    runner: &mut Runner,
    plan: &Plan,
    event: u32,
    patience: &mut Patience,
    grounds: &mut Grounds,
)
    requires may { MaySettleEvent board.now runner.old.hand plan.now event }
    requires room { 0 < runner.old.kept.room }
    ensures hand { IsHandOf board.now runner.new.hand }
    ensures tried { HasTriedOne plan.now event runner.old runner.new }
{
    await_event(board, runner, plan, event, patience);
    settle_or_keep(board, runner, plan, event, grounds);
}

/// Tries the events of a burst, in the order in which their numbers were taken.
fn try_burst(
    sweep: &Sweep<'_>,
    runner: &mut Runner,
    patience: &mut Patience,
    burst: &Burst,
    grounds: &mut Grounds,
)
    requires fits { FitsBoard sweep.now.board.now sweep.now.plan.now sweep.now.counter
        sweep.now.events.now }
    requires free { IsFreeRunner sweep.now.board.now runner.old }
    requires inside { All (λ n. n < length sweep.now.events.now) burst.now.numbers }
    requires room { length burst.now.numbers ≤ runner.old.kept.room }
    ensures hand { IsHandOf sweep.now.board.now runner.new.hand }
    ensures tried { (taken next : ℕ) (start : R)
        → IsSweeping sweep.now.plan.now sweep.now.counter sweep.now.events.now taken next
        burst.now.numbers start runner.old
        → IsSweeping sweep.now.plan.now sweep.now.counter sweep.now.events.now taken next []
        start runner.new }
{
    for i in 0..burst.len() {
        let event = sweep.events[burst.number(i)];
        try_event(sweep.board, runner, sweep.plan, event, patience, grounds);
    }
}

/// Takes bursts of numbers from the counter, and tries the events of each, until none is left.
pub fn go_over(sweep: &Sweep<'_>, runner: &mut Runner, patience: &mut Patience)
    requires fits { FitsBoard sweep.now.board.now sweep.now.plan.now sweep.now.counter
        sweep.now.events.now }
    requires can { CanSweep sweep.now.board.now sweep.now.counter sweep.now.events.now runner.old }
    requires some { 1 ≤ sweep.now.burst }
    requires most { sweep.now.burst ≤ BURST }
    ensures swept { HasSwept sweep.now runner.old runner.new }
{
    let mut grounds = Grounds::new();
    for _turn in 0..sweep.events.len() {
        let burst = runner.take_burst(sweep.board, sweep.counter, sweep.events.len(), sweep.burst);
        try_burst(sweep, runner, patience, &burst, &mut grounds);
        if burst.is_over() {
            return;
        }
    }
}
