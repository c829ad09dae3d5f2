//! Many deposits of 1 on accounts and assets, which workers explore side by side.
ghost use Rattle.morph_base.specs.Graphs.{IsValidPlan};

use crate::four_events::{ACCOUNTS, ASSETS, plan_for};
use crate::runners::words_of;
use chain_units::units;
use morph_base::{Abort, Batch, Func, Key, Op, OpState, OutOfMemory, Plan, Rows, Unit};
use op_eval::{RunEnd, Runners};
use op_words::Board;
use precedence_graph::dependents;
use std::alloc::Global;
use std::test::Fail;
use std::thread::Threads;
use strata_explorer::{counters, explore};
use worker_gate::HoldGate;

/// A gate that holds nobody, and has each worker run in a thread of its own.
pub(crate) fn side_by_side() -> HoldGate {
    HoldGate::new(0, 0, 0)
}

/// On how many accounts, and on how many assets, there are deposits.
pub(crate) const IDS: u64 = 2_000;

/// Makes this many events, each a deposit on the account and on the asset of the next id. After the last id they begin
/// at 0 again.
pub(crate) fn batch_of(alloc: Global, count: u64) -> Result<Batch, OutOfMemory> {
    let mut batch = Batch::new(alloc);
    for event in 0..count {
        let id = (event % IDS) as u32;
        let ops = [
            Op::new(Func::Add, Key::of(ACCOUNTS, id), &[], 1),
            Op::new(Func::Add, Key::of(ASSETS, id), &[], 1),
        ];
        batch.push(event + 1, &ops)?;
    }
    Ok(batch)
}

/// Whether exploring a plan by four workers ends after all levels, with the words of two rounds.
fn four_explore<R: Threads + Sync>(
    rt: &R,
    alloc: Global,
    plan: &Plan,
    unit: Unit,
) -> Result<bool, OutOfMemory>
    requires valid { IsValidPlan plan.now }
{
    let units = units(alloc, plan, unit)?;
    let (board, root) = Board::new(alloc, plan, 1, counters(plan))?;
    let runners = Runners::new(alloc, &board, root, 4, plan.events.len() as u32)?;
    let gate = side_by_side();
    let none = Rows::none(alloc);
    let explored = explore(rt, board, runners, plan, &units, Abort::Lazy, &none, &gate);
    let (board, mut runners, end, _) = explored.parts();
    let runner = runners.runner(1);
    let words = words_of(alloc, &board, &mut runner.hand, plan)?;
    Ok(end == RunEnd::Whole && are_two_rounds(&words))
}

/// Whether two deposits on each id left these words: executed at attempt 1, with value 1 after the first and value 2
/// after the second.
pub(crate) fn are_two_rounds(words: &Vec<(OpState, u8, u64)>) -> bool {
    let all_ran = words.iter().enumerate().all(|(op, word)| {
        let value = if op as u64 / 2 < IDS { 1 } else { 2 };
        *word == (OpState::Executed, 1, value)
    });
    words.len() as u64 == 4 * IDS && all_ran
}

#[test]
fn four_runners_explore_two_rounds(rt: HostRuntime) -> Result<(), Fail> {
    let plan = plan_for(&rt, rt.alloc(), batch_of(rt.alloc(), 2 * IDS)?)?;
    for unit in [Unit::Op, Unit::Chain] {
        let all_ran = four_explore(&rt, rt.alloc(), &plan, unit)?;
        assert!(rt; all_ran, "{unit:?}");
    }
    Ok(())
}
