//! What a worker notes of the targets of its cascades.
use abort_eager::{Ground, Notes, Touch, Touched};
use op_eval::Runner;

/// Notes in the level word which levels have to be passed again.
#[derive(Drop)]
pub(crate) struct LevelNotes;

impl Notes for LevelNotes {
    ghost use Rattle.abort_eager.specs.Sweeps.{IsLike};

    ghost leaves = { λ before after. IsLike before after };

    /// Lowers the level word to the level of an operation that was rolled back.
    fn note(&self, ground: &Ground<'_>, runner: &mut Runner, touched: Touched) {
        match touched.touch {
            Touch::RolledBack => {
                let level = ground.plan.ops.level(touched.op as usize);
                ground.board.lower(&mut runner.hand, level)
            }
            _ => {}
        }
    }
}
