//! Cascades that follow evaluations, under eager abort.
ghost use Rattle.std.specs.Prelude.{◌≡◌, ◌≢◌, true, Some};
ghost use Rattle.morph_base.specs.declared.strategy.Abort.TheVariants.{Eager};
ghost use Rattle.op_words.specs.Views.{HasShownFailure};
ghost use Rattle.op_eval.specs.Running.{hand_view};
ghost use Rattle.abort_eager.specs.declared.answers.Touch.TheVariants.{RolledBack};
ghost use Rattle.abort_eager.specs.Sweeps.{cascade_for};
ghost use Rattle.abort_eager.specs.Targets.{targets, IsCascade};
ghost use Rattle.abort_eager.specs.Touching.{HasCause};
ghost use Rattle.abort_eager.specs.Grounds.{IsGround, ground_rules};
ghost use Rattle.steal_explorer.specs.Members.{CanServe, MayServe};
ghost use Rattle.steal_explorer.specs.Serving.{ServesOn, AsksAndPuts, TouchesNext, TouchesAll, TouchesFor};

use crate::member::Member;
use crate::serve::ask_one;
use abort_eager::{Cascade, Ground, Touch, Touched, cascade_behind};
use op_eval::Evaluation;
use worker_gate::Turns;

/// Asks an operation that a cascade rolled back, since it has to be evaluated again, and pushes it if that made it
/// ready. If a source has no value, whoever evaluates the source will ask the operation.
fn ask_rolled<T: Turns>(
    ground: &Ground<'_>,
    told: &T,
    turn: u64,
    member: &mut Member,
    touched: Touched,
)
    requires may { MayServe ground.now member.old touched.op }
    ensures can { CanServe ground.now member.new }
    ensures goes { ServesOn (ground_rules ground.now)
        member.old member.new }
    ensures asked { touched.touch ≡ RolledBack
        → AsksAndPuts (ground_rules ground.now) touched.op
        member.old member.new }
    ensures other { touched.touch ≢ RolledBack → member.new ≡ member.old }
{
    match touched.touch {
        Touch::RolledBack => ask_one(ground, told, turn, member, touched.op),
        _ => {}
    }
}

/// Touches the next target of a cascade, and asks what that rolled back. Returns whether a target was left.
fn touch_next<T: Turns>(
    ground: &Ground<'_>,
    told: &T,
    turn: u64,
    member: &mut Member,
    cascade: &mut Cascade,
) -> bool
    requires ground { IsGround ground.now }
    requires eager { ground.now.abort ≡ Eager }
    requires can { CanServe ground.now member.old }
    requires cascade { IsCascade ground.now.plan.now cascade.old }
    requires cause { HasCause cascade.old (hand_view member.old.runner) }
    ensures can { CanServe ground.now member.new }
    ensures cascade { IsCascade ground.now.plan.now cascade.new }
    ensures cause { HasCause cascade.new (hand_view member.new.runner) }
    ensures goes { ServesOn (ground_rules ground.now)
        member.old member.new }
    ensures touches { TouchesNext (ground_rules ground.now) result
        cascade.old cascade.new member.old member.new }
{
    match cascade.next(
        ground.board,
        &mut member.runner.hand,
        ground.plan,
        ground.dependents,
    ) {
        Some(touched) => {
            ask_rolled(ground, told, turn, member, touched);
            true
        }
        None => false,
    }
}

/// Runs the cascade of an operation to its end, asks what it rolled back, and pushes what that made ready.
fn run_cascade<T: Turns>(
    ground: &Ground<'_>,
    told: &T,
    turn: u64,
    member: &mut Member,
    op: u32,
    failed: bool,
)
    requires may { MayServe ground.now member.old op }
    requires eager { ground.now.abort ≡ Eager }
    requires cause { failed ≡ true → HasShownFailure (hand_view member.old.runner) op }
    ensures can { CanServe ground.now member.new }
    ensures goes { ServesOn (ground_rules ground.now)
        member.old member.new }
    ensures touches { TouchesAll (ground_rules ground.now)
        (targets ground.now.plan.now op failed) member.old member.new }
{
    let mut cascade = Cascade::start(ground.plan, op, failed);
    while touch_next(ground, told, turn, member, &mut cascade) {}
}

/// Runs the cascade that follows an evaluation: under eager abort there is one after an evaluation that failed, or that
/// was a second or later attempt.
pub(crate) fn sweep<T: Turns>(
    ground: &Ground<'_>,
    told: &T,
    turn: u64,
    member: &mut Member,
    op: u32,
    answer: Evaluation,
)
    requires may { MayServe ground.now member.old op }
    requires cause { cascade_for ground.now.abort answer ≡ Some true
        → HasShownFailure (hand_view member.old.runner) op }
    ensures can { CanServe ground.now member.new }
    ensures goes { ServesOn (ground_rules ground.now)
        member.old member.new }
    ensures touches { TouchesFor (ground_rules ground.now) op
        (cascade_for ground.now.abort answer) member.old member.new }
{
    if let Some(failed) = cascade_behind(ground.abort, answer) {
        run_cascade(ground, told, turn, member, op, failed);
    }
}
