//! How the halves of a round wait for each other, though never for long.
ghost use Rattle.std.specs.Prelude.{◌≡◌, ◌<◌, ◌↔◌, length, IsTrue};
ghost use Rattle.rtrb.specs.Ring.{received, known_items, known_free, SameConsumer, ProducerLooked};

use crate::items::{ReadyPlans, Sent};
use rtrb::{Consumer, Producer};
use std::alloc::Global;
use std::hint::spin_loop;
use std::sync::atomic::{AtomicBool, Ordering};
use std::thread::yield_now;

/// How many times a half looks at the ring before it goes on without the other: some milliseconds.
const LOOKS: u32 = 65_536;

/// After so many looks another thread may run.
const LOOKS_TO_YIELD: u32 = 64;

/// Which halves of a round are at work. It says only whether it is worth to wait, so no contract speaks of it.
#[derive(Drop)]
pub(crate) struct Meeting {
    planner: AtomicBool,
    runner: AtomicBool,
}

impl Meeting {
    /// For two halves that begin side by side, or one after the other.
    pub(crate) fn new(beside: bool) -> Meeting {
        Meeting {
            planner: AtomicBool::new(beside),
            runner: AtomicBool::new(beside),
        }
    }

    /// The planner has done its half.
    pub(crate) fn planner_leaves(&self) {
        self.planner.store(false, Ordering::SeqCst);
    }

    /// The runner has done its half.
    pub(crate) fn runner_leaves(&self) {
        self.runner.store(false, Ordering::SeqCst);
    }
}

/// Lets the processor rest between two looks, or another thread run.
fn pause(look: u32) {
    if look.is_multiple_of(LOOKS_TO_YIELD) {
        yield_now();
    } else {
        spin_loop();
    }
}

/// Looks at the ring until it has a plan, the planner has left, or it was looked at often enough. Whether it has one.
pub(crate) fn await_plan(ring: &mut Consumer<Sent, Global, ReadyPlans>, meeting: &Meeting) -> bool
    ensures ring { SameConsumer ring.old ring.new }
    ensures received { received ring.new ≡ received ring.old }
    ensures value { IsTrue result → 0 < length (known_items ring.new) }
{
    for look in 1..LOOKS {
        if !meeting.planner.load(Ordering::SeqCst) {
            return false;
        }
        if ring.slots() > 0 {
            return true;
        }
        pause(look);
    }
    false
}

/// Looks at the ring until it has a free place, the runner has left, or it was looked at often enough. Whether it has
/// one.
pub(crate) fn await_place(ring: &mut Producer<Sent, Global, ReadyPlans>, meeting: &Meeting) -> bool
    ensures looked { ProducerLooked ring.old ring.new }
    ensures value { IsTrue result ↔ (0 < known_free ring.new) }
{
    for look in 1..LOOKS {
        if ring.slots() > 0 {
            return true;
        }
        if !meeting.runner.load(Ordering::SeqCst) {
            return false;
        }
        pause(look);
    }
    ring.slots() > 0
}
