//! How a worker makes its turns in a pass.
ghost use Rattle.std.specs.Prelude.{◌<◌, ◌≤◌, All, length};
ghost use Rattle.op_words.specs.Hands.{counters_of};
ghost use Rattle.abort_eager.specs.Grounds.{IsGround, ground_rules};
ghost use Rattle.op_eval.specs.Exploring.{Unused};
ghost use Rattle.op_eval.specs.Turns.{IsEnough};
ghost use Rattle.strata_explorer.specs.Passes.{FitsPass, Worked};
ghost use Rattle.op_eval.specs.Running.{IsFreeRunner};
ghost use Rattle.strata_explorer.specs.Walks.{WalksNumbers, WalksAll};

use crate::level_notes::LevelNotes;
use abort_eager::{AttemptWithCascade, Ground, walk_unit};
use op_eval::{Burst, Patience, Runner};
use worker_gate::Turns;

/// Walks the unit of each place of a burst, in the order in which the places were taken. Before each it waits until the
/// sources of the place's operation have values, as long as patience lasts. The turns are numbered from `first` on.
fn walk_burst<T: Turns>(
    ground: &Ground<'_>,
    told: &T,
    ops: &[u32],
    burst: &Burst,
    first: usize,
    runner: &mut Runner,
    patience: &mut Patience,
)
    requires ground { IsGround ground.now }
    requires fits { FitsPass ground.now.plan.now ops.now }
    requires inside { All (λ n. n < length ops.now) burst.now.numbers }
    requires seated { IsFreeRunner ground.now.board.now runner.old }
    ensures seated { IsFreeRunner ground.now.board.now runner.new }
    ensures walks { WalksNumbers (ground_rules ground.now) ops.now burst.now.numbers
        runner.old runner.new }
{
    for i in 0..burst.len() {
        let turn = (first as u64).saturating_add(i as u64);
        let op = ops[burst.number(i)];
        told.pass(turn);
        patience.await_sources(ground.board, runner, ground.plan, op, false);
        let attempting = AttemptWithCascade {
            told,
            turn,
            notes: &LevelNotes,
        };
        walk_unit(ground, &attempting, runner, op);
    }
}

/// Takes places of a pass in bursts of up to `most`, and walks the unit of each, until no place is left.
pub(crate) fn work<T: Turns>(
    ground: &Ground<'_>,
    told: &T,
    ops: &[u32],
    counter: u32,
    most: usize,
    runner: &mut Runner,
    patience: &mut Patience,
)
    requires ground { IsGround ground.now }
    requires fits { FitsPass ground.now.plan.now ops.now }
    requires in_range { counter < counters_of ground.now.board.now }
    requires some { 1 ≤ most }
    requires most { most ≤ 16 }
    requires seated { IsFreeRunner ground.now.board.now runner.old }
    requires unused { Unused counter runner.old }
    ensures seated { IsFreeRunner ground.now.board.now runner.new }
    ensures calls { Worked (ground_rules ground.now) counter ops.now runner.old runner.new }
    ensures enough { IsEnough counter (length ops.now) runner.new }
    ensures walks { WalksAll (ground_rules ground.now) counter ops.now runner.old runner.new }
{
    let mut turn = 0;
    while turn < ops.len() {
        let burst = runner.take_burst(ground.board, counter, ops.len(), most);
        walk_burst(ground, told, ops, &burst, turn, runner, patience);
        if burst.is_over() {
            return;
        }
        turn += burst.len();
    }
}
