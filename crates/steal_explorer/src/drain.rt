//! Empties the deques once all workers have returned.
ghost use Rattle.std.specs.Prelude.{◌≡◌, ◌<◌, All};
ghost use Rattle.crossbeam_deque.specs.Handles.{worker_flavor};
ghost use Rattle.op_words.specs.Hands.{cap_of};
ghost use Rattle.steal_explorer.specs.Draining.{WalkedKnown, IsLeftWithNobody, IsCleared, HasAll, IsEmptied};
ghost use Rattle.steal_explorer.specs.Draining.{AreEmptied};
ghost use Rattle.steal_explorer.specs.Handing.{whole};
ghost use Rattle.abort_eager.specs.Grounds.{IsGround, ground_rules};
ghost use Rattle.steal_explorer.specs.Members.{own};
ghost use Rattle.op_eval.specs.Running.{IsFreeRunner};

use crate::deque_rule::{Leaves, Pops};
use crate::member::Member;
use crate::walk::walk;
use abort_eager::Ground;
use op_eval::{RunEnd, Runner};
use worker_gate::Untold;

/// Leaves with nobody what is still in the deque of a worker that took all its turns.
fn leave_rest(member: &mut Member)
    requires fifo { worker_flavor member.old.owner ≡ 0 }
    requires all { (own member.old).parts ≡ whole }
    ensures { IsLeftWithNobody member.old member.new }
{
    while let Some(_) = member.owner.pop_as::<Leaves>() {}
}

/// Walks the unit of an item, with the cascades that follow, if it is one of the plan's operations. All items are.
fn walk_known(ground: &Ground<'_>, runner: &mut Runner, op: u32)
    requires ground { IsGround ground.now }
    requires idle { IsFreeRunner ground.now.board.now runner.old }
    ensures idle { IsFreeRunner ground.now.board.now runner.new }
    ensures walked { WalkedKnown (ground_rules ground.now) op
        runner.old runner.new }
{
    if (op as usize) < ground.plan.ops.len() {
        walk(ground, &Untold, 0, runner, op);
    }
}

/// Takes what is still in the deque of a worker that found nothing more, outside of any turn, and walks the units. In a
/// run there is nothing.
fn clear_rest(ground: &Ground<'_>, member: &mut Member)
    requires ground { IsGround ground.now }
    requires idle { IsFreeRunner ground.now.board.now member.old.runner }
    requires fifo { worker_flavor member.old.owner ≡ 0 }
    requires all { (own member.old).parts ≡ whole }
    ensures idle { IsFreeRunner ground.now.board.now member.new.runner }
    ensures cleared { IsCleared ground.now.plan.now (cap_of ground.now.board.now)
        member.old member.new }
{
    while let Some(op) = member.owner.pop_as::<Pops>() {
        walk_known(ground, &mut member.runner, op);
    }
}

/// Empties the deque of a worker that has all of its parts.
fn empty(ground: &Ground<'_>, member: &mut Member)
    requires ground { IsGround ground.now }
    requires has_all { HasAll ground.now.board.now member.old }
    ensures idle { IsFreeRunner ground.now.board.now member.new.runner }
    ensures emptied { IsEmptied ground.now.plan.now (cap_of ground.now.board.now)
        member.old member.new }
{
    match member.end {
        RunEnd::Drained => clear_rest(ground, member),
        RunEnd::Spent => leave_rest(member),
        RunEnd::Whole => leave_rest(member),
    }
}

/// Empties the deque of each worker.
pub(crate) fn empty_all(ground: &Ground<'_>, members: &mut [Member])
    requires ground { IsGround ground.now }
    requires have_all { All (HasAll ground.now.board.now) members.old }
    ensures idle { All (λ m. IsFreeRunner ground.now.board.now m.runner) members.new }
    ensures emptied { AreEmptied ground.now.plan.now (cap_of ground.now.board.now)
        members.old members.new }
{
    for k in 0..members.len() {
        empty(ground, &mut members[k]);
    }
}
