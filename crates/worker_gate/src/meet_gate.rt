use crate::gate::Gate;
use std::hint::spin_loop;
use std::sync::atomic::{AtomicBool, Ordering};

/// A gate that lets neither of two workers get far ahead of the other: it holds worker 1 at turn 0 until worker 2 has
/// called [`Gate::done`], and worker 2 at turn 1 until worker 1 has called it. All other turns are free.
///
/// A test runs two workers under it to see that they work side by side, if there is work enough for two threads. If
/// they do, both come to their hold and find the other's `done`. If one worker does all its work before the other
/// begins, it waits in vain and goes on after `limit` loads.
#[derive(Drop)]
pub struct MeetGate {
    /// The most loads of one hold.
    limit: u64,
    first: Side,
    second: Side,
    missed: AtomicBool,
}

/// What is known of one of the two workers.
#[derive(Drop)]
struct Side {
    /// The worker has called `done`.
    done: AtomicBool,
    /// The worker came to its hold, and found the other's `done`.
    met: AtomicBool,
}

impl Side {
    fn new() -> Side {
        Side {
            done: AtomicBool::new(false),
            met: AtomicBool::new(false),
        }
    }
}

impl MeetGate {
    /// Makes a gate whose holds end after at most `limit` loads each.
    pub fn new(limit: u64) -> MeetGate {
        MeetGate {
            limit,
            first: Side::new(),
            second: Side::new(),
            missed: AtomicBool::new(false),
        }
    }

    /// Whether a hold reached its limit.
    pub fn missed(&self) -> bool {
        self.missed.load(Ordering::SeqCst)
    }

    /// Whether each of the two workers came to its hold and found the other's `done` there within the limit.
    pub fn met(&self) -> bool {
        self.first.met.load(Ordering::SeqCst) && self.second.met.load(Ordering::SeqCst)
    }

    /// Holds one worker until the other is done, or the limit is reached.
    fn hold(&self, held: &Side, other: &Side) {
        for _ in 0..self.limit {
            if other.done.load(Ordering::SeqCst) {
                held.met.store(true, Ordering::SeqCst);
                return;
            }
            spin_loop();
        }
        self.missed.store(true, Ordering::SeqCst);
    }
}

impl Gate for MeetGate {
    fn pass(&self, worker: u32, turn: u64) {
        match (worker, turn) {
            (1, 0) => self.hold(&self.first, &self.second),
            (2, 1) => self.hold(&self.second, &self.first),
            _ => {}
        }
    }

    fn done(&self, worker: u32, _turn: u64) {
        match worker {
            1 => self.first.done.store(true, Ordering::SeqCst),
            2 => self.second.done.store(true, Ordering::SeqCst),
            _ => {}
        }
    }

    fn needs_threads(&self) -> bool {
        false
    }
}
