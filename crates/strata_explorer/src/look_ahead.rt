//! What a worker who is alone loads before a level.
ghost use Rattle.std.specs.Prelude.{◌≡◌, ◌⊎◌, ◌<◌, ◌≤◌, length};
ghost use Rattle.morph_base.specs.Plans.{op_count};
ghost use Rattle.abort_eager.specs.Grounds.{IsGround};
ghost use Rattle.abort_eager.specs.Sweeps.{IsLike};
ghost use Rattle.op_eval.specs.Running.{IsFreeRunner};
ghost use Rattle.strata_explorer.specs.Levels.{ops_of};

use abort_eager::Ground;
use op_eval::Runner;
use worker_gate::Shares;

/// A worker looks at this many operations at most before a level. Beyond them a level is wide, and its own operations
/// are read in the order in which they lie in memory.
const FAR: u32 = 2_048;

/// A worker looks at one operation of so many: what is loaded of them lies side by side, four of them in a line of the
/// processor's cache.
const STRIDE: u32 = 4;

/// How far a worker has looked ahead in a plan.
///
/// The operations of a narrow level lie far apart in memory, and each level goes a little further than the one before.
/// So a processor would wait for memory at most of them. A worker who is alone loads what it will need next
/// in the order in which it lies in memory, which processors see, and load before it is asked for. Where workers share
/// the levels, each would load what others change.
#[derive(Drop)]
pub(crate) struct LookAhead {
    /// The operations below this number were looked at, or passed over.
    reached: u32,
}

impl LookAhead {
    /// For a worker before the lowest level.
    pub(crate) fn new() -> LookAhead {
        LookAhead { reached: 0 }
    }

    /// Looks at the operations up to the last one of a level, if the worker is the first one, and there is one thread.
    /// Of the runner nothing changes that a contract speaks of.
    pub(crate) fn look(
        &mut self,
        ground: &Ground<'_>,
        shares: Shares,
        number: usize,
        level: usize,
        runner: &mut Runner,
    )
        requires ground { IsGround ground.now }
        requires level { level < length ground.now.plan.now.op_levels.items }
        requires seated { IsFreeRunner ground.now.board.now runner.old }
        ensures seated { IsFreeRunner ground.now.board.now runner.new }
        ensures like { IsLike runner.old runner.new }
        ensures same { (0 < number) ⊎ (1 < shares.parts)
            ⊎ (length (ops_of ground.now.plan.now level) ≡ 0) → runner.new ≡ runner.old }
    {
        if shares.parts > 1 || number > 0 {
            return;
        }
        if let Some(last) = ground.plan.op_levels.get(level).as_slice().last() {
            self.look_up_to(ground, *last, runner);
        }
    }

    /// Looks at the operations up to this one, unless they are too many.
    fn look_up_to(&mut self, ground: &Ground<'_>, last: u32, runner: &mut Runner)
        requires ground { IsGround ground.now }
        requires in_range { last < op_count ground.now.plan.now }
        requires seated { IsFreeRunner ground.now.board.now runner.old }
        ensures seated { IsFreeRunner ground.now.board.now runner.new }
        ensures like { IsLike runner.old runner.new }
    {
        if last.saturating_sub(self.reached) <= FAR {
            preload(ground, self.reached, last, runner);
        }
        self.reached = self.reached.max(last);
    }
}

/// Loads what evaluating some of these operations begins with.
fn preload(ground: &Ground<'_>, from: u32, to: u32, runner: &mut Runner)
    requires ground { IsGround ground.now }
    requires in_range { to ≤ op_count ground.now.plan.now }
    requires seated { IsFreeRunner ground.now.board.now runner.old }
    ensures seated { IsFreeRunner ground.now.board.now runner.new }
    ensures like { IsLike runner.old runner.new }
{
    for op in from..to {
        if op.is_multiple_of(STRIDE) {
            ground.board.preload(&mut runner.hand, ground.plan, op);
        }
    }
}
