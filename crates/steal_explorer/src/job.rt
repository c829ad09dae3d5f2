//! Runs all workers side by side.
ghost use Rattle.std.specs.Prelude.{◌≡◌, ℕ, ◌<◌, ◌≤◌, All, length, slice_index_or};
ghost use Rattle.morph_base.specs.declared.strategy.Abort.TheVariants.{Lazy};
ghost use Rattle.op_words.specs.Hands.{cap_of};
ghost use Rattle.steal_explorer.specs.declared.member.Member.{Member as M};
ghost use Rattle.steal_explorer.specs.Alone.{BeginsAlone, EndsAlone, LeavesAlone};
ghost use Rattle.steal_explorer.specs.Handing.{whole};
ghost use Rattle.steal_explorer.specs.HandingOut.{IsBeginning, HasHandedOut};
ghost use Rattle.abort_eager.specs.Grounds.{IsGround, ground_rules};
ghost use Rattle.steal_explorer.specs.Members.{HasDependents, IsWorkerOf};
ghost use Rattle.op_eval.specs.Running.{IsFreeRunner};
ghost use Rattle.steal_explorer.specs.Turns.{HasTakenTurns};

use crate::deque_rule::Thief;
use crate::drain::empty_all;
use crate::gather::gather;
use crate::member::Member;
use crate::worker::work;
use abort_eager::Ground;
use morph_base::Plan;
use std::thread::Threads;
use worker_gate::{Gate, Job, Told, pieces_for, run_all, shareable};

/// The turns of a worker, in the form that all workers share.
#[derive(Drop)]
pub(crate) struct Working<'a, G> {
    pub(crate) ground: Ground<'a>,
    pub(crate) gate: &'a G,
    pub(crate) thieves: &'a [Thief],
}

impl<G: Gate> Job<Member> for Working<'_, G> {
    ghost use Rattle.std.specs.Prelude.{◌≡◌, ◌≤◌, length};
    ghost use Rattle.steal_explorer.specs.Alone.{BeginsAlone, EndsAlone};
    ghost use Rattle.morph_base.specs.declared.strategy.Abort.TheVariants.{Lazy};
    ghost use Rattle.op_words.specs.Hands.{cap_of};
    ghost use Rattle.abort_eager.specs.Grounds.{IsGround, ground_rules};
    ghost use Rattle.steal_explorer.specs.Members.{HasDependents, IsWorkerOf};
    ghost use Rattle.steal_explorer.specs.Turns.{HasTakenTurns};

    ghost can_run = { λ job member. IsGround job.ground × HasDependents job.ground
        × IsWorkerOf job.ground job.thieves.now member };

    ghost changes = { λ job _ before after. IsWorkerOf job.ground job.thieves.now after
        × HasTakenTurns (ground_rules job.ground)
        job.thieves.now before after
        × (job.ground.abort ≡ Lazy → 1 ≤ cap_of job.ground.board.now → length job.thieves.now ≡ 1
        → BeginsAlone job.ground.plan.now before → EndsAlone job.ground.plan.now after.end after) };

    fn run(&self, _number: usize, worker: &mut Member) {
        let told = Told {
            gate: self.gate,
            worker: u32::from(worker.runner.hand.tag()),
        };
        worker.end = work(&self.ground, &told, self.thieves, worker);
    }
}

/// How many pieces of work an operation is worth if deques hand it out: it goes to one worker, who writes to its word
/// alone, and that worker is started once for a batch.
const HANDED_PIECES: usize = 8;

/// How many pieces of work it is to explore a plan by deques, for the threads that it is
/// [worth](worker_gate::threads_for).
pub fn pieces(plan: &Plan) -> usize {
    shareable(plan.ops.len(), plan.op_levels.len()).saturating_mul(HANDED_PIECES)
}

/// Has all workers take their turns.
fn work_all<R: Threads + Sync, G: Gate>(
    rt: &R,
    ground: &Ground<'_>,
    gate: &G,
    thieves: &[Thief],
    members: &mut [Member],
)
    requires ground { IsGround ground.now }
    requires dependents { HasDependents ground.now }
    requires workers { All (IsWorkerOf ground.now thieves.now) members.old }
    ensures work { (k : ℕ) (d : M) → k < length members.old
        → IsWorkerOf ground.now thieves.now (slice_index_or members.new k d)
        × HasTakenTurns (ground_rules ground.now) thieves.now
        (slice_index_or members.old k d) (slice_index_or members.new k d) }
    ensures alone { (k : ℕ) (d : M) → k < length members.old → ground.now.abort ≡ Lazy
        → 1 ≤ cap_of ground.now.board.now → length thieves.now ≡ 1
        → BeginsAlone ground.now.plan.now (slice_index_or members.old k d)
        → EndsAlone ground.now.plan.now (slice_index_or members.new k d).end
        (slice_index_or members.new k d) }
{
    let working = Working {
        ground: *ground,
        gate,
        thieves,
    };
    run_all(rt, members, pieces_for(gate, pieces(ground.plan)), &working);
}

/// Has all workers take their turns and get all parts of their deques back. What is still there is taken or left with
/// nobody.
pub(crate) fn hand_out<R: Threads + Sync, G: Gate>(
    rt: &R,
    ground: &Ground<'_>,
    gate: &G,
    thieves: &[Thief],
    members: &mut [Member],
)
    requires ground { IsGround ground.now }
    requires dependents { HasDependents ground.now }
    requires len { length members.old ≡ length thieves.now }
    requires few { length thieves.now ≤ whole }
    requires begins { (k : ℕ) (d : M) → k < length members.old
        → IsBeginning ground.now thieves.now k (slice_index_or members.old k d) }
    ensures idle { All (λ m. IsFreeRunner ground.now.board.now m.runner) members.new }
    ensures handed_out { HasHandedOut (ground_rules ground.now) thieves.now
        members.old members.new }
    ensures alone { (d : M) → ground.now.abort ≡ Lazy → 1 ≤ cap_of ground.now.board.now
        → length thieves.now ≡ 1
        → BeginsAlone ground.now.plan.now (slice_index_or members.old 0 d)
        → LeavesAlone ground.now.plan.now (slice_index_or members.new 0 d) }
{
    work_all(rt, ground, gate, thieves, members);
    gather(thieves, members);
    empty_all(ground, members);
}
