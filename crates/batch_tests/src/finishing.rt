//! Completes the plan of a board that was closed early.
ghost use Rattle.std.specs.Prelude.{IfOk};
ghost use Rattle.morph_base.specs.Plans.{IsPlan, IsSettledOf};

use crate::four_events::plan;
use abort_lazy::{Room, finish};
use morph_base::{OutOfMemory, Plan, Settled};
use op_words::Board;
use std::alloc::Global;
use std::test::Fail;

/// The plan completed after its board was closed before anybody evaluated an operation.
pub(crate) fn completed(alloc: Global, plan: &Plan) -> Result<Settled, OutOfMemory>
    requires { IsPlan plan.now }
    ensures { IfOk result (IsSettledOf plan.now) }
{
    let room = Room::new(alloc, plan)?;
    let (board, root) = Board::new(alloc, plan, 1, 0)?;
    let closed = board.close(plan, root);
    Ok(finish(&closed, plan, room))
}

#[test]
fn completes_what_nobody_began(rt: HostRuntime) -> Result<(), Fail> {
    let plan = plan(&rt, rt.alloc())?;
    let settled = completed(rt.alloc(), &plan)?;
    let got = (
        settled.values.as_slice(),
        settled.committed.as_slice(),
        settled.by.as_slice(),
    );
    let want = (
        [100, 5, 100, 5, 0, 0, 40, 0, 60, 5, 0, 0, 60, 5].as_slice(),
        [true, false, true, true].as_slice(),
        [0; 14].as_slice(),
    );
    assert_eq!(rt; got, want);
    Ok(())
}
