ghost use Rattle.std.specs.Prelude.{◌≡◌, ◌+◌, ◌<◌};

use super::*;
use std::hint::spin_loop;
use std::sync::atomic::{AtomicBool, AtomicU64, Ordering};
use std::test::Fail;

/// So many pieces of work that each of sixteen workers gets a thread.
const MANY_PIECES: usize = 4_194_304;

/// Adds a number to a worker's own.
#[derive(Drop)]
struct Adding {
    by: u32,
}

impl Job<u32> for Adding {
    ghost can_run = { λ job worker. (job.by < 1000) × (worker < 1000) };

    ghost changes = { λ job _ before after. after ≡ before + job.by };

    fn run(&self, _number: usize, worker: &mut u32) {
        *worker += self.by;
    }
}

#[test]
fn each_worker_does_its_job(rt: HostRuntime) -> Result<(), Fail> {
    let job = Adding { by: 5 };
    let mut one = [7];
    run_all(&rt, &mut one, MANY_PIECES, &job);
    assert_eq!(rt; one, [12]);
    let mut two = [7, 0];
    run_all(&rt, &mut two, MANY_PIECES, &job);
    assert_eq!(rt; two, [12, 5]);
    let mut sixteen = [0, 1, 2, 3, 4, 5, 6, 7, 8, 9, 10, 11, 12, 13, 14, 15];
    run_all(&rt, &mut sixteen, MANY_PIECES, &job);
    assert_eq!(rt;
        sixteen,
        [5, 6, 7, 8, 9, 10, 11, 12, 13, 14, 15, 16, 17, 18, 19, 20]
    );
    Ok(())
}

/// Takes two turns at a gate, as the worker of this number.
#[derive(Drop)]
struct Turning<'a> {
    gate: &'a MeetGate,
}

impl Job<u32> for Turning<'_> {
    ghost can_run = { λ job worker. worker < 1000 };

    ghost changes = { λ job _ before after. after ≡ before };

    fn run(&self, _number: usize, worker: &mut u32) {
        for turn in 0..2 {
            self.gate.pass(*worker, turn);
            self.gate.done(*worker, turn);
        }
    }
}

#[test]
fn two_workers_meet_and_one_alone_does_not(rt: HostRuntime) {
    let gate = MeetGate::new(1_000_000_000);
    run_all(&rt, &mut [1, 2], MANY_PIECES, &Turning { gate: &gate });
    assert_eq!(rt; (gate.met(), gate.missed()), (true, false), "side by side");
    let gate = MeetGate::new(1_000);
    run_all(&rt, &mut [1, 2], 524_287, &Turning { gate: &gate });
    assert_eq!(rt; (gate.met(), gate.missed()), (false, true), "in one thread");
    let gate = MeetGate::new(1_000);
    run_all(&rt, &mut [1], MANY_PIECES, &Turning { gate: &gate });
    assert_eq!(rt;
        (gate.met(), gate.missed()),
        (false, true),
        "the first alone"
    );
    run_all(&rt, &mut [2], MANY_PIECES, &Turning { gate: &gate });
    assert_eq!(rt;
        (gate.met(), gate.missed()),
        (false, true),
        "one after the other"
    );
    run_all(
        &rt,
        &mut [3, 4],
        MANY_PIECES,
        &Turning {
            gate: &MeetGate::new(0),
        },
    );
}

/// The loads of each hold. In this time a worker that is free takes many more turns than `MANY`.
const LOADS: u64 = 10_000_000;

const MANY: u64 = 1_000;

/// Worker 1 passes a gate that holds it from its turn 4 on, while worker 2 passes the same gate over and over.
#[derive(Drop)]
struct Passing {
    gate: HoldGate,
    /// The turn that worker 2 took last.
    other: AtomicU64,
    /// Whether worker 1 has taken all of its turns.
    over: AtomicBool,
}

/// A worker, and what it saw of the other's turns: the fewest that the other took while the gate was passed once.
#[derive(Clone, Copy, Drop)]
struct Passer {
    number: u32,
    before: u64,
    held: u64,
}

impl Passer {
    fn new(number: u32) -> Passer {
        Passer {
            number,
            before: 0,
            held: 0,
        }
    }
}

impl Passing {
    /// Takes turns as worker 2 until worker 1 has taken all of its own.
    fn go_on(&self) {
        for turn in 0..u64::MAX {
            if self.over.load(Ordering::SeqCst) {
                return;
            }
            self.gate.pass(2, turn);
            self.gate.done(2, turn);
            self.other.store(turn, Ordering::SeqCst);
        }
    }

    /// Waits until worker 2 is seen at work, or has not begun for a long time.
    fn await_the_other(&self) {
        for _ in 0..1_000_000_000 {
            if self.other.load(Ordering::SeqCst) > 0 {
                return;
            }
            spin_loop();
        }
    }

    /// The fewest turns of worker 2 while worker 1 passes the gate once, at the four turns from this one on.
    fn fewest_meanwhile(&self, from: u64) -> u64 {
        let mut fewest = u64::MAX;
        for k in 0..4 {
            let before = self.other.load(Ordering::SeqCst);
            self.gate.pass(1, from.saturating_add(k));
            let taken = self.other.load(Ordering::SeqCst).saturating_sub(before);
            fewest = fewest.min(taken);
        }
        fewest
    }
}

impl Job<Passer> for Passing {
    ghost can_run = { λ job worker. worker ≡ worker };

    ghost changes = { λ job _ before after. after.number ≡ before.number };

    fn run(&self, _number: usize, worker: &mut Passer) {
        if worker.number == 2 {
            self.go_on();
            return;
        }
        self.await_the_other();
        worker.before = self.fewest_meanwhile(0);
        worker.held = self.fewest_meanwhile(4);
        self.over.store(true, Ordering::SeqCst);
    }
}

#[test]
fn one_worker_is_held_from_a_turn_on_and_the_other_goes_on(rt: HostRuntime) {
    let passing = Passing {
        gate: HoldGate::new(1, 4, LOADS),
        other: AtomicU64::new(0),
        over: AtomicBool::new(false),
    };
    let mut workers = [Passer::new(1), Passer::new(2)];
    run_all(&rt, &mut workers, MANY_PIECES, &passing);
    let [first, _] = workers;
    assert_eq!(rt; (first.before < MANY, first.held >= MANY), (true, true));
}

#[test]
fn workers_of_one_thread_begin_with_one_part_and_each_item_is_in_a_part(rt: HostRuntime) {
    let shares = Shares::among(6, 4);
    assert_eq!(rt; (shares.each, shares.parts), (2, 4));
    let own = [0, 1, 2, 3, 4, 5].map(|number| shares.own_part(number));
    assert_eq!(rt; own, [0, 0, 1, 1, 2, 2]);
    assert_eq!(rt; shares.part_at(5, 0), 2);
    if shares.parts > 3 {
        assert_eq!(rt; shares.part_at(5, 3), 1);
    }
    let items = [1, 2, 3, 4, 5, 6, 7, 8, 9];
    assert_eq!(rt; part_of(&items, 4, 0), [1, 2, 3].as_slice());
    assert_eq!(rt; part_of(&items, 4, 2), [7, 8, 9].as_slice());
    assert_eq!(rt; part_of(&items, 4, 3).len(), 0);
    assert_eq!(rt; (parts_for(0), parts_for(3), parts_for(16)), (1, 3, 4));
}
