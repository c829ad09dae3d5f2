//! Attempts at operations, and the cascades that follow them.
ghost use Rattle.std.specs.Prelude.{◌≡◌, true, Some};
ghost use Rattle.morph_base.specs.declared.strategy.Abort.TheVariants.{Eager};
ghost use Rattle.op_words.specs.Hands.{cap_of};
ghost use Rattle.op_words.specs.Views.{HasShownFailure};
ghost use Rattle.op_eval.specs.declared.runner.Runner.{Runner as R};
ghost use Rattle.op_eval.specs.Evaluations.{Tries};
ghost use Rattle.op_eval.specs.Running.{hand_view, IsFreeRunner};
ghost use Rattle.abort_eager.specs.Grounds.{MayTry};
ghost use Rattle.abort_eager.specs.Sweeps.{cascade_for, IsLike, SweepsAll, SweepsAllFor};
ghost use Rattle.abort_eager.specs.Targets.{targets};

use crate::answers::Touched;
use crate::behind::cascade_behind;
use crate::cascade::Cascade;
use crate::ground::Ground;
use crate::walk::Walking;
use op_eval::{Evaluation, Runner, evaluate};
use worker_gate::Turns;

/// Tries to evaluate an operation in a turn, and tells the gate.
pub fn attempt<T: Turns>(
    ground: &Ground<'_>,
    told: &T,
    turn: u64,
    runner: &mut Runner,
    op: u32,
) -> Evaluation
    requires may { MayTry ground.now runner.old op }
    ensures idle { IsFreeRunner ground.now.board.now runner.new }
    ensures answer { Tries ground.now.plan.now (cap_of ground.now.board.now) op runner.old
        runner.new result }
{
    let answer = evaluate(ground.board, runner, ground.plan, op);
    told.done(turn);
    answer
}

/// What a worker notes of the targets of its cascades. A note changes nothing that contracts see of the runner.
pub trait Notes {
    /// What a note makes of a runner.
    ghost leaves: { R → R → Type 0 };

    /// Notes a target that was touched, before the next one is.
    fn note(&self, ground: &Ground<'_>, runner: &mut Runner, touched: Touched)
        requires may { MayTry ground.now runner.old touched.op }
        ensures idle { IsFreeRunner ground.now.board.now runner.new }
        ensures like { IsLike runner.old runner.new }
        ensures leaves { leaves runner.old runner.new };
}

/// Runs the cascade of an operation to its end.
fn run_cascade<N: Notes>(ground: &Ground<'_>, notes: &N, runner: &mut Runner, op: u32, failed: bool)
    requires may { MayTry ground.now runner.old op }
    requires eager { ground.now.abort ≡ Eager }
    requires cause { failed ≡ true → HasShownFailure (hand_view runner.old) op }
    ensures idle { IsFreeRunner ground.now.board.now runner.new }
    ensures sweeps { SweepsAll ground.now.plan.now (cap_of ground.now.board.now) N.leaves
        (targets ground.now.plan.now op failed) runner.old runner.new }
{
    let mut cascade = Cascade::start(ground.plan, op, failed);
    while let Some(touched) = cascade.next(
        ground.board,
        &mut runner.hand,
        ground.plan,
        ground.dependents,
    ) {
        notes.note(ground, runner, touched);
    }
}

/// Runs the cascade that follows an evaluation, if there is one.
fn sweep<N: Notes>(ground: &Ground<'_>, notes: &N, runner: &mut Runner, op: u32, answer: Evaluation)
    requires may { MayTry ground.now runner.old op }
    requires cause { cascade_for ground.now.abort answer ≡ Some true
        → HasShownFailure (hand_view runner.old) op }
    ensures idle { IsFreeRunner ground.now.board.now runner.new }
    ensures sweeps { SweepsAllFor ground.now.plan.now (cap_of ground.now.board.now) N.leaves op
        (cascade_for ground.now.abort answer) runner.old runner.new }
{
    if let Some(failed) = cascade_behind(ground.abort, answer) {
        run_cascade(ground, notes, runner, op, failed);
    }
}

/// Attempts at the operations of a unit. Each is told to the gate, and the cascade that follows it is run to its end:
/// under eager abort there is one after an evaluation that failed, or that was a second or later attempt.
#[derive(Drop)]
pub struct AttemptWithCascade<'a, T, N> {
    pub told: &'a T,
    /// The turn in which the unit is walked.
    pub turn: u64,
    pub notes: &'a N,
}

impl<T: Turns, N: Notes> Walking<Runner> for AttemptWithCascade<'_, T, N> {
    ghost use Rattle.op_eval.specs.Running.{IsFreeRunner};
    ghost use Rattle.abort_eager.specs.Grounds.{ground_rules};
    ghost use Rattle.abort_eager.specs.Sweeps.{AttemptsNoting};

    ghost can_walk = { λ g runner. IsFreeRunner g.board.now runner };

    ghost visits = { λ g. AttemptsNoting (ground_rules g) N.leaves };

    fn visit(&self, ground: &Ground<'_>, worker: &mut Runner, op: u32) -> Evaluation {
        let answer = attempt(ground, self.told, self.turn, worker, op);
        sweep(ground, self.notes, worker, op, answer);
        answer
    }
}
