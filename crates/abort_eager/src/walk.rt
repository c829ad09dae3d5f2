//! Walks through the units of operations.
ghost use Rattle.std.specs.Prelude.{ℕ, ◌<◌};
ghost use Rattle.morph_base.specs.Plans.{op_count};
ghost use Rattle.op_eval.specs.declared.answers.Evaluation.{Evaluation as E};
ghost use Rattle.abort_eager.specs.declared.ground.Ground.{Ground as G};
ghost use Rattle.abort_eager.specs.Grounds.{IsGround};
ghost use Rattle.abort_eager.specs.Walks.{WalksUnit};

use crate::ground::Ground;
use op_eval::Evaluation;

/// What a worker does with each operation of a unit that it walks.
pub trait Walking<W> {
    /// What a worker has to be before it visits an operation, and what it is afterwards.
    ghost can_walk: { G → W → Type 0 };

    /// What a visit makes of a worker: the operation, the worker before and after it, and the answer.
    ghost visits: { G → ℕ → W → W → E → Type 0 };

    /// Visits an operation.
    fn visit(&self, ground: &Ground<'_>, worker: &mut W, op: u32) -> Evaluation
        requires ground { IsGround ground.now }
        requires in_range { op < op_count ground.now.plan.now }
        requires can { can_walk ground.now worker.old }
        ensures can { can_walk ground.now worker.new }
        ensures visits { visits ground.now op worker.old worker.new result };
}

/// Walks the unit of an operation from it on, until an answer is not `Evaluated`.
pub fn walk_unit<W, V: Walking<W>>(ground: &Ground<'_>, walking: &V, worker: &mut W, op: u32)
    requires ground { IsGround ground.now }
    requires in_range { op < op_count ground.now.plan.now }
    requires can { V.can_walk ground.now worker.old }
    ensures can { V.can_walk ground.now worker.new }
    ensures walks { WalksUnit (V.visits ground.now) ground.now.units.now.units op worker.old
        worker.new }
{
    let unit = ground.units.ops(ground.units.unit_of(op));
    let place = ground.units.place_of(op) as usize;
    for i in place..unit.len() {
        match walking.visit(ground, worker, unit[i]) {
            Evaluation::Evaluated { .. } => {}
            _ => return,
        }
    }
}
