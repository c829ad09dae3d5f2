//! What a worker does with an item on the board without pushing anything.
ghost use Rattle.op_words.specs.Hands.{cap_of};
ghost use Rattle.op_eval.specs.Running.{IsFreeRunner};
ghost use Rattle.abort_eager.specs.Grounds.{MayTry, ground_rules};
ghost use Rattle.steal_explorer.specs.Calls.{AsksWhetherReady, WalkedUnit};

use abort_eager::{AttemptWithCascade, Ground, Notes, Touched, walk_unit};
use op_eval::Runner;
use op_words::Readied;
use worker_gate::Turns;

/// Notes nothing.
#[derive(Drop)]
struct NoNotes;

impl Notes for NoNotes {
    ghost use Rattle.std.specs.Prelude.{◌≡◌};

    ghost leaves = { λ before after. after ≡ before };

    fn note(&self, _ground: &Ground<'_>, _runner: &mut Runner, _touched: Touched) {}
}

/// Tries to make an operation ready.
pub(crate) fn ask(ground: &Ground<'_>, runner: &mut Runner, op: u32) -> Readied
    requires may { MayTry ground.now runner.old op }
    ensures idle { IsFreeRunner ground.now.board.now runner.new }
    ensures answer { AsksWhetherReady ground.now.plan.now (cap_of ground.now.board.now) op runner.old
        runner.new result }
{
    ground.board.ready(&mut runner.hand, ground.plan, op)
}

/// Walks the unit of an operation from it on, until an answer is not `Evaluated`, and calls `ready` on nothing. What
/// the cascades rolled back is left to settling, so that nothing nests.
pub(crate) fn walk<T: Turns>(ground: &Ground<'_>, told: &T, turn: u64, runner: &mut Runner, op: u32)
    requires may { MayTry ground.now runner.old op }
    ensures idle { IsFreeRunner ground.now.board.now runner.new }
    ensures walked { WalkedUnit (ground_rules ground.now) op
        runner.old runner.new }
{
    let attempting = AttemptWithCascade {
        told,
        turn,
        notes: &NoNotes,
    };
    walk_unit(ground, &attempting, runner, op);
}
