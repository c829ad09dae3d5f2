//! The four events, explored level by level by one runner.
use crate::four_events::plan;
use crate::runners::words_of;
use chain_units::units;
use morph_base::{Abort, OpState, Rows, Unit};
use op_eval::{Answers, RunEnd, Runners};
use op_words::Board;
use precedence_graph::dependents;
use std::test::Fail;
use strata_explorer::{counters, explore};
use worker_gate::FreeGate;

/// The state and the value of each operation. The deposits of 100 and 5 come first. In the first transfer the assets
/// fail. In the second transfer the accounts fail, since they find what the first one left.
const FIRST: [(OpState, u64); 14] = [
    (OpState::Executed, 100),
    (OpState::Executed, 5),
    (OpState::Executed, 40),
    (OpState::Failed, 5),
    (OpState::Executed, 60),
    (OpState::Failed, 0),
    (OpState::Failed, 40),
    (OpState::Executed, 0),
    (OpState::Failed, 60),
    (OpState::Executed, 5),
    (OpState::Executed, 0),
    (OpState::Executed, 0),
    (OpState::Executed, 60),
    (OpState::Executed, 5),
];

#[test]
fn one_runner_explores(rt: HostRuntime) -> Result<(), Fail> {
    let plan = plan(&rt, rt.alloc())?;
    let units = units(rt.alloc(), &plan, Unit::Op)?;
    let (board, root) = Board::new(rt.alloc(), &plan, 1, counters(&plan))?;
    let runners = Runners::new(rt.alloc(), &board, root, 1, plan.events.len() as u32)?;
    let none = Rows::none(rt.alloc());
    let explored = explore(
        &rt,
        board,
        runners,
        &plan,
        &units,
        Abort::Lazy,
        &none,
        &FreeGate,
    );
    let (board, mut runners, end, passes) = explored.parts();
    assert_eq!(rt;
        (end, passes as usize),
        (RunEnd::Whole, plan.op_levels.len())
    );
    let runner = runners.runner(1);
    let answers = Answers {
        evaluated: 14,
        blocked: 0,
        busy: 0,
        already: 0,
    };
    assert_eq!(rt; runner.answers, answers);
    let words = words_of(rt.alloc(), &board, &mut runner.hand, &plan)?;
    let all_right = words
        .iter()
        .zip(FIRST.iter())
        .all(|(word, first)| *word == (first.0, 1, first.1));
    assert!(rt; words.len() == FIRST.len() && all_right);
    Ok(())
}
