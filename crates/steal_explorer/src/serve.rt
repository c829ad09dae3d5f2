//! What a worker does with an item that it took.
ghost use Rattle.std.specs.Prelude.{◌≡◌, ℕ, ◌<◌, ◌≤◌, List, [], ◌∷◌};
ghost use Rattle.crossbeam_deque.specs.Handles.{worker_capacity, worker_index};
ghost use Rattle.morph_base.specs.declared.strategy.Abort.TheVariants.{Lazy};
ghost use Rattle.op_words.specs.Hands.{cap_of};
ghost use Rattle.op_words.specs.Trails.{IsSourceOf};
ghost use Rattle.steal_explorer.specs.Alone.{IsHandingAlone, Pushes, ServesAlone};
ghost use Rattle.steal_explorer.specs.Serving.{readers};
ghost use Rattle.abort_eager.specs.Grounds.{IsGround, ground_rules};
ghost use Rattle.steal_explorer.specs.Members.{HasDependents, CanServe, MayServe};
ghost use Rattle.steal_explorer.specs.declared.find.Found.TheVariants.{Item};
ghost use Rattle.steal_explorer.specs.Serving.{ServesOn, PutsOrWalks, AsksAndPuts, AsksAll, Serves};
ghost use Rattle.steal_explorer.specs.Turns.{After};

use crate::cascade::sweep;
use crate::deque_rule::Puts;
use crate::member::Member;
use crate::walk::{ask, walk};
use abort_eager::{Ground, Walking, attempt, walk_unit};
use op_eval::Evaluation;
use op_words::Readied;
use worker_gate::Turns;

/// Pushes an operation on the worker's own deque. If that is refused, walks the operation's unit at once.
pub(crate) fn push<T: Turns>(ground: &Ground<'_>, told: &T, turn: u64, member: &mut Member, op: u32)
    requires may { MayServe ground.now member.old op }
    ensures can { CanServe ground.now member.new }
    ensures goes { ServesOn (ground_rules ground.now)
        member.old member.new }
    ensures kept { PutsOrWalks (ground_rules ground.now) op
        member.old member.new }
    ensures room { worker_index member.old.owner < worker_capacity member.old.owner
        → Pushes op member.old member.new }
{
    match member.owner.push_as::<Puts>(op) {
        Ok(()) => member.handed = member.handed.saturating_add(1),
        Err(op) => walk(ground, told, turn, &mut member.runner, op),
    }
}

/// Asks an operation, and pushes it if that made it ready.
pub(crate) fn ask_one<T: Turns>(
    ground: &Ground<'_>,
    told: &T,
    turn: u64,
    member: &mut Member,
    op: u32,
)
    requires may { MayServe ground.now member.old op }
    ensures can { CanServe ground.now member.new }
    ensures goes { ServesOn (ground_rules ground.now)
        member.old member.new }
    ensures asks { AsksAndPuts (ground_rules ground.now) op
        member.old member.new }
    ensures alone { (rest : List ℕ) (s : ℕ) → IsSourceOf ground.now.plan.now op s
        → IsHandingAlone ground.now.plan.now (op ∷ rest) member.old
        → IsHandingAlone ground.now.plan.now rest member.new }
{
    match ask(ground, &mut member.runner, op) {
        Readied::Made => push(ground, told, turn, member, op),
        Readied::Not { .. } => {}
    }
}

/// Asks each dependent of an operation.
fn ask_all<T: Turns>(ground: &Ground<'_>, told: &T, turn: u64, member: &mut Member, op: u32)
    requires may { MayServe ground.now member.old op }
    requires dependents { HasDependents ground.now }
    ensures can { CanServe ground.now member.new }
    ensures goes { ServesOn (ground_rules ground.now)
        member.old member.new }
    ensures asks { AsksAll (ground_rules ground.now)
        (readers ground.now.plan.now op) member.old member.new }
    ensures alone { IsHandingAlone ground.now.plan.now (readers ground.now.plan.now op) member.old
        → IsHandingAlone ground.now.plan.now [] member.new }
{
    let dependents = ground.dependents.row(op as usize);
    for i in 0..dependents.len() {
        ask_one(ground, told, turn, member, dependents[i]);
    }
}

/// What a worker does with the operations of the unit of an item that it took.
#[derive(Drop)]
struct Serving<'a, T> {
    told: &'a T,
    turn: u64,
}

impl<T: Turns> Walking<Member> for Serving<'_, T> {
    ghost use Rattle.std.specs.Prelude.{◌≡◌, ◌≤◌, []};
    ghost use Rattle.morph_base.specs.declared.strategy.Abort.TheVariants.{Lazy};
    ghost use Rattle.op_words.specs.Hands.{cap_of};
    ghost use Rattle.abort_eager.specs.Grounds.{ground_rules};
    ghost use Rattle.steal_explorer.specs.Alone.{IsHandingAlone, ServesAlone};
    ghost use Rattle.steal_explorer.specs.Members.{HasDependents, CanServe};
    ghost use Rattle.steal_explorer.specs.Serving.{Visits, Serves};

    ghost can_walk = { λ g member. HasDependents g × CanServe g member };

    ghost visits = { λ g op before after answer. Serves (ground_rules g) op
        before after
        × Visits (ground_rules g) op before after
        × (g.abort ≡ Lazy → 1 ≤ cap_of g.board.now → IsHandingAlone g.plan.now [] before
        → ServesAlone g.plan.now op before after) };

    /// Tries to evaluate an operation, runs the cascade that follows, and asks the dependents if the operation was
    /// evaluated.
    fn visit(&self, ground: &Ground<'_>, worker: &mut Member, op: u32) -> Evaluation {
        let answer = attempt(ground, self.told, self.turn, &mut worker.runner, op);
        sweep(ground, self.told, self.turn, worker, op, answer);
        match answer {
            Evaluation::Evaluated { .. } => {
                ask_all(ground, self.told, self.turn, worker, op);
                answer
            }
            _ => answer,
        }
    }
}

/// Walks the unit of an item from it on, until an answer is not `Evaluated`, and asks the dependents of what it
/// evaluated.
fn serve<T: Turns>(ground: &Ground<'_>, told: &T, turn: u64, member: &mut Member, op: u32)
    requires may { MayServe ground.now member.old op }
    requires dependents { HasDependents ground.now }
    ensures can { CanServe ground.now member.new }
    ensures serves { Serves (ground_rules ground.now) op
        member.old member.new }
    ensures alone { ground.now.abort ≡ Lazy → 1 ≤ cap_of ground.now.board.now
        → IsHandingAlone ground.now.plan.now [] member.old
        → ServesAlone ground.now.plan.now op member.old member.new }
{
    walk_unit(ground, &Serving { told, turn }, member, op);
}

/// Serves an item if it is one of the plan's operations. All items are.
pub(crate) fn serve_known<T: Turns>(
    ground: &Ground<'_>,
    told: &T,
    turn: u64,
    member: &mut Member,
    op: u32,
)
    requires ground { IsGround ground.now }
    requires dependents { HasDependents ground.now }
    requires can { CanServe ground.now member.old }
    ensures can { CanServe ground.now member.new }
    ensures after { After (ground_rules ground.now) (Item op)
        member.old member.new }
    ensures alone { ground.now.abort ≡ Lazy → 1 ≤ cap_of ground.now.board.now
        → IsHandingAlone ground.now.plan.now [] member.old
        → ServesAlone ground.now.plan.now op member.old member.new }
{
    if (op as usize) < ground.plan.ops.len() {
        serve(ground, told, turn, member, op);
    }
}
