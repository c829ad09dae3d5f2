//! The four events, settled on the board level by level by one runner, with nothing explored before.
ghost use Rattle.std.specs.Prelude.{◌≡◌, ◌≤◌, IfOk, length};
ghost use Rattle.morph_base.specs.Graphs.{IsValidPlan};
ghost use Rattle.op_words.specs.Hands.{plan_of, counters_of};
ghost use Rattle.op_eval.specs.Exploring.{IsExploredBoard};
ghost use Rattle.op_eval.specs.Gathering.{runners_of};
ghost use Rattle.abort_lazy.specs.Runs.{AreAllHands};

use crate::four_events::plan;
use abort_lazy::{Room, finish, settle_all};
use morph_base::{OutOfMemory, Plan};
use op_eval::{Explored, RunEnd, Runners};
use op_words::Board;
use std::alloc::Global;
use std::test::Fail;

/// A run of one runner on a board with this many counters, in which nothing was evaluated.
fn unexplored(alloc: Global, plan: &Plan, counters: u32) -> Result<Explored, OutOfMemory>
    requires plan { IsValidPlan plan.now }
    ensures explored { IfOk result IsExploredBoard }
    ensures plan { IfOk result (λ run. plan.now ≡ plan_of run.board) }
    ensures counters { IfOk result (λ run. counters_of run.board ≡ counters) }
    ensures next { IfOk result (λ run. run.next_counter ≡ 0) }
    ensures all { IfOk result (λ run. AreAllHands (runners_of run.runners)) }
{
    let (board, root) = Board::new(alloc, plan, 1, counters)?;
    let runners = Runners::new(alloc, &board, root, 1, plan.events.len() as u32)?;
    Ok(Explored::new(board, runners, RunEnd::Spent, 0))
}

/// One runner settles each event, and evaluates each operation once, on settled values.
#[test]
fn one_runner_settles_all_levels(rt: HostRuntime) -> Result<(), Fail> {
    let plan = plan(&rt, rt.alloc())?;
    assert!(rt; plan.event_levels.len() == 4);
    let room = Room::new(rt.alloc(), &plan)?;
    let run = unexplored(rt.alloc(), &plan, 16)?;
    let settled = settle_all(&rt, run, &plan);
    let (closed, left) = settled.close(rt.alloc(), &plan, 0);
    assert_eq!(rt; left.len(), 1);
    let none_left = left.as_slice().iter().all(|causes| causes.is_empty());
    assert!(rt; none_left);
    let counts = closed.counts();
    assert_eq!(rt;
        (counts.evaluated, counts.spread, counts.rolled),
        (14, 0, 0)
    );
    let settled = finish(&closed, &plan, room);
    let got = (settled.committed.as_slice(), settled.by.as_slice());
    let want = ([true, false, true, true].as_slice(), [1; 14].as_slice());
    assert_eq!(rt; got, want);
    Ok(())
}
