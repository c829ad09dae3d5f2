use crate::gate::Gate;
use std::hint::spin_loop;
use std::sync::atomic::{AtomicBool, Ordering};

/// A gate that holds one worker for a number of loads at each of its turns from some turn on. Nobody else is held. Each
/// worker has a thread of its own, so that the others go on meanwhile.
///
/// A test runs workers under it to see that a worker who is late, whenever that is, does not change the result.
#[derive(Drop)]
pub struct HoldGate {
    worker: u32,
    turn: u64,
    loads: u64,
    /// What a held worker loads.
    idle: AtomicBool,
}

impl HoldGate {
    /// Makes a gate that holds this worker, counted from 1, for `loads` loads at each turn from this one on, counted
    /// from 0. It holds nobody if the worker is 0.
    pub fn new(worker: u32, turn: u64, loads: u64) -> HoldGate {
        HoldGate {
            worker,
            turn,
            loads,
            idle: AtomicBool::new(true),
        }
    }
}

impl Gate for HoldGate {
    fn pass(&self, worker: u32, turn: u64) {
        if worker != self.worker || turn < self.turn {
            return;
        }
        for _ in 0..self.loads {
            if !self.idle.load(Ordering::SeqCst) {
                return;
            }
            spin_loop();
        }
    }

    fn done(&self, _worker: u32, _turn: u64) {}

    fn needs_threads(&self) -> bool {
        true
    }
}
