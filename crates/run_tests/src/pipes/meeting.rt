//! The two halves of a round side by side: reading waits for the result of the batch before, and running for reading.
use super::{NumberTeller, ledger_pipe, make_round};
use crate::runs::lines::{append, append_number};
use batch_pipe::{Ran, Teller};
use morph_base::{List, OutOfMemory};
use morph_io::{MemSource, ReadFailed, Source};
use std::hint::spin_loop;
use std::sync::atomic::{AtomicBool, Ordering};
use std::test::Fail;
use worker_gate::Gate;

/// The most loads of one hold.
const LOADS: u64 = 200_000_000;

/// The place at which the reader of a second batch and the first worker meet.
#[derive(Drop)]
struct Meeting {
    /// The read that is held was entered.
    entered: AtomicBool,
    /// A result was told.
    told: AtomicBool,
    /// A hold reached its limit.
    missed: AtomicBool,
}

impl Meeting {
    fn new() -> Meeting {
        Meeting {
            entered: AtomicBool::new(false),
            told: AtomicBool::new(false),
            missed: AtomicBool::new(false),
        }
    }

    /// Holds a thread until the other has come, or the limit is reached.
    fn hold_until(&self, came: &AtomicBool) {
        for _ in 0..LOADS {
            if came.load(Ordering::SeqCst) {
                return;
            }
            spin_loop();
        }
        self.missed.store(true, Ordering::SeqCst);
    }
}

/// It holds worker 1 at its turn 0 until the read that is held was entered.
impl Gate for Meeting {
    fn pass(&self, worker: u32, turn: u64) {
        if worker == 1 && turn == 0 {
            self.hold_until(&self.entered);
        }
    }

    fn done(&self, _worker: u32, _turn: u64) {}

    fn needs_threads(&self) -> bool {
        false
    }
}

/// A source that, at the read of one number, counted from 1, holds until a result was told.
#[derive(Drop)]
struct Held<'a, S> {
    source: S,
    reads: u64,
    held: u64,
    meeting: &'a Meeting,
}

impl<S: Source> Source for Held<'_, S> {
    ghost left = { λ held. S.left held.source };

    ghost faults = { λ held. S.faults held.source };

    ghost reads = { λ old asked answer new. S.reads old.source asked answer new.source };

    fn read(&mut self, buf: &mut [u8]) -> Result<usize, ReadFailed> {
        self.reads = self.reads.saturating_add(1);
        if self.reads == self.held {
            self.meeting.entered.store(true, Ordering::SeqCst);
            self.meeting.hold_until(&self.meeting.told);
        }
        self.source.read(buf)
    }
}

/// A teller that says when a result was told.
#[derive(Drop)]
struct MeetingTeller<'a> {
    numbers: NumberTeller,
    meeting: &'a Meeting,
}

impl Teller for MeetingTeller<'_> {
    ghost can_take = { λ _ _. Unit {0} };

    ghost takes = { λ _ _ _ _. Unit {0} };

    ghost goes_on = { λ _ _ _ _ _ _. tt };

    fn take(&mut self, ran: Ran) -> bool {
        let taken = self.numbers.take(ran);
        self.meeting.told.store(true, Ordering::SeqCst);
        taken
    }
}

/// The number of payouts of the first batch, each of sixteen operations, and the bytes of a piece.
const PAYOUTS: u64 = 1_024;

const PIECE: usize = 4_096;

/// Appends `count` payouts of 0, from this timestamp on.
fn append_payouts(list: &mut List<u8>, from: u64, count: u64) -> Result<(), OutOfMemory> {
    for i in 0..count {
        append(list, b"M ")?;
        append_number(list, from.wrapping_add(i))?;
        append(list, b" 0 0 1 2 3 4 5 6 7 8 9 10 11 12 13 14 15\n")?;
    }
    Ok(())
}

/// A batch with as many operations as two halves are worth, and what comes behind it. Halves that ran one after the
/// other would wait in vain, and so would a result that was told only once the next batch was read.
#[test]
fn pipe_meets(rt: HostRuntime) -> Result<(), Fail> {
    let alloc = rt.alloc();
    let meeting = Meeting::new();
    let mut bytes = List::from_slice(alloc, b"morph 2\n")?;
    append_payouts(&mut bytes, 1, PAYOUTS)?;
    append(&mut bytes, b"P\n")?;
    let held = bytes.len().div_ceil(PIECE) as u64;
    append_payouts(&mut bytes, 1 + PAYOUTS, 500)?;
    let mut source = Held {
        source: MemSource::new(bytes, PIECE, List::new(alloc)),
        reads: 0,
        held: held.saturating_add(1),
        meeting: &meeting,
    };
    let mut pipe = ledger_pipe(alloc, 1)?;
    let numbers = NumberTeller {
        told: List::new(alloc),
        most: 1,
    };
    let mut teller = MeetingTeller {
        numbers,
        meeting: &meeting,
    };
    make_round(&rt, alloc, &mut pipe, &mut source, &meeting, &mut teller);
    assert_eq!(rt; teller.numbers.told.as_slice(), [[1, PAYOUTS]].as_slice());
    assert!(rt; !meeting.missed.load(Ordering::SeqCst));
    Ok(())
}
