//! Batches explored by deques of operations, which workers hand out and steal.
ghost use Rattle.std.specs.Prelude.{◌≤◌};
ghost use Rattle.morph_base.specs.Graphs.{IsValidPlan};
ghost use Rattle.morph_base.specs.Limits.{most_workers};

use crate::deposits::{IDS, are_two_rounds, batch_of, side_by_side};
use crate::four_events::{ACCOUNTS, plan, plan_for};
use crate::runners::words_of;
use chain_units::units;
use morph_base::{Abort, Batch, Func, Key, Op, OpState, OutOfMemory, Plan, Unit};
use op_eval::{RunEnd, Runners};
use op_words::Board;
use precedence_graph::dependents;
use std::alloc::Global;
use std::hint::spin_loop;
use std::sync::atomic::{AtomicBool, Ordering};
use std::test::Fail;
use std::thread::Threads;
use steal_explorer::{Deques, explore};
use worker_gate::{FreeGate, Gate};

/// The outcome of exploring: why it ended, how many items were handed out and stolen, and the words that it left.
#[derive(Drop)]
struct Explored {
    end: RunEnd,
    handed: u64,
    stolen: u64,
    words: Vec<(OpState, u8, u64)>,
}

/// Explores a plan by deques, by this many workers under a gate.
fn explore_by<R: Threads + Sync, G: Gate>(
    rt: &R,
    alloc: Global,
    plan: &Plan,
    unit: Unit,
    workers: u32,
    gate: &G,
) -> Result<Explored, OutOfMemory>
    requires valid { IsValidPlan plan.now }
    requires some { 1 ≤ workers }
    requires few { workers ≤ most_workers }
{
    let units = units(alloc, plan, unit)?;
    let (board, root) = Board::new(alloc, plan, 1, 0)?;
    let runners = Runners::new(alloc, &board, root, workers, plan.events.len() as u32)?;
    let deques = Deques::new(alloc, plan, workers)?;
    let readers = dependents(alloc, plan)?;
    let (explored, handed) = explore(
        rt,
        board,
        runners,
        deques,
        plan,
        &units,
        Abort::Lazy,
        &readers,
        gate,
    );
    let (board, mut runners, end, _) = explored.parts();
    let runner = runners.runner(1);
    Ok(Explored {
        end,
        handed: handed.handed,
        stolen: handed.stolen,
        words: words_of(alloc, &board, &mut runner.hand, plan)?,
    })
}

/// The first level of the four events has two operations. Each other operation is made ready once.
#[test]
fn one_worker_is_handed_each_operation_once(rt: HostRuntime) -> Result<(), Fail> {
    let plan = plan(&rt, rt.alloc())?;
    for unit in [Unit::Op, Unit::Chain] {
        let ran = explore_by(&rt, rt.alloc(), &plan, unit, 1, &FreeGate)?;
        assert_eq!(rt;
            (ran.end, ran.handed, ran.stolen),
            (RunEnd::Drained, 14, 0),
            "{unit:?}"
        );
        let all_ran = ran.words.iter().all(|word| matches!(
            word.0,
            OpState::Executed | OpState::Failed
        ) && word.1 == 1);
        assert!(rt; ran.words.len() == 14 && all_ran, "{unit:?}");
    }
    Ok(())
}

/// Whichever worker gets an operation, it is handed out once and executed at attempt 1.
#[test]
fn four_workers_hand_out_two_rounds(rt: HostRuntime) -> Result<(), Fail> {
    let plan = plan_for(&rt, rt.alloc(), batch_of(rt.alloc(), 2 * IDS)?)?;
    let ran = explore_by(&rt, rt.alloc(), &plan, Unit::Op, 4, &side_by_side())?;
    assert_eq!(rt; (ran.end, ran.handed), (RunEnd::Drained, 4 * IDS));
    assert!(rt; are_two_rounds(&ran.words));
    Ok(())
}

/// How many operations each of this many deques has at the start.
fn dealt_to(alloc: Global, plan: &Plan, workers: u32) -> Result<Vec<u64>, OutOfMemory>
    requires valid { IsValidPlan plan.now }
    requires some { 1 ≤ workers }
    requires few { workers ≤ most_workers }
{
    let deques = Deques::new(alloc, plan, workers)?;
    let mut dealt = Vec::new(alloc);
    for worker in 1..=workers {
        dealt.push(deques.dealt(worker))?;
    }
    Ok(dealt)
}

/// The first level is dealt in turn. Five deposits on five ids have ten operations there.
#[test]
fn a_level_is_dealt_in_turn(rt: HostRuntime) -> Result<(), Fail> {
    let plan = plan_for(&rt, rt.alloc(), batch_of(rt.alloc(), 5)?)?;
    assert_eq!(rt;
        dealt_to(rt.alloc(), &plan, 2)?.as_slice(),
        [5, 5].as_slice()
    );
    assert_eq!(rt;
        dealt_to(rt.alloc(), &plan, 3)?.as_slice(),
        [4, 3, 3].as_slice()
    );
    Ok(())
}

/// The most loads of one hold.
const LOADS: u64 = 200_000_000;

/// A gate that holds worker 2 at its turn 0 until worker 1 has ended its own, and worker 1 at its turn 1 until worker 2
/// has called `evaluate`.
#[derive(Drop)]
struct Robbed {
    /// Worker 1 came to its turn 1.
    ready: AtomicBool,
    /// Worker 2 called `evaluate`.
    robbed: AtomicBool,
    missed: AtomicBool,
}

impl Robbed {
    fn new() -> Robbed {
        Robbed {
            ready: AtomicBool::new(false),
            robbed: AtomicBool::new(false),
            missed: AtomicBool::new(false),
        }
    }

    /// Holds a worker until the flag is set, or the limit is reached.
    fn hold_until(&self, came: &AtomicBool) {
        for _ in 0..LOADS {
            if came.load(Ordering::SeqCst) {
                return;
            }
            spin_loop();
        }
        self.missed.store(true, Ordering::SeqCst);
    }
}

impl Gate for Robbed {
    fn pass(&self, worker: u32, turn: u64) {
        match (worker, turn) {
            (1, 1) => {
                self.ready.store(true, Ordering::SeqCst);
                self.hold_until(&self.robbed);
            }
            (2, 0) => self.hold_until(&self.ready),
            _ => {}
        }
    }

    fn done(&self, worker: u32, _turn: u64) {
        if worker == 2 {
            self.robbed.store(true, Ordering::SeqCst);
        }
    }

    fn needs_threads(&self) -> bool {
        true
    }
}

/// A cell is set, and then this many cells become its sum. Only the set is on level 1.
fn set_and_sums(alloc: Global, sums: u32) -> Result<Batch, OutOfMemory> {
    let first = Key::of(ACCOUNTS, 0);
    let mut batch = Batch::new(alloc);
    batch.push(1, &[Op::new(Func::Set, first, &[], 7)])?;
    for sum in 1..=sums {
        let op = Op::new(Func::Sum, Key::of(ACCOUNTS, sum), &[first], 1_000);
        batch.push(u64::from(sum) + 1, &[op])?;
    }
    Ok(batch)
}

/// Worker 1 has the only operation of level 1, and so gets all others. It goes on once worker 2 has evaluated one,
/// which worker 2 can get only by stealing.
#[test]
fn a_worker_with_nothing_steals(rt: HostRuntime) -> Result<(), Fail> {
    let plan = plan_for(&rt, rt.alloc(), set_and_sums(rt.alloc(), 40)?)?;
    let gate = Robbed::new();
    let ran = explore_by(&rt, rt.alloc(), &plan, Unit::Op, 2, &gate)?;
    let got = (ran.end, ran.handed, ran.stolen >= 1);
    assert_eq!(rt; got, (RunEnd::Drained, 41, true));
    assert!(rt; !gate.missed.load(Ordering::SeqCst));
    Ok(())
}
