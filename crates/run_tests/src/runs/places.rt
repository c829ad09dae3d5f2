//! Reads and writes that fail at each place, and inputs that are cut at each place.
use super::{FOUR, FOUR_EVENTS, LEDGER, Ran, expect, run_with, sink_of, source_of};
use morph_base::OutOfMemory;
use std::alloc::Global;
use std::sync::Wait;
use std::test::Fail;
use std::thread::Threads;

/// Runs the ledger on the four events, a byte a call. The calls of the given numbers fail or stall.
fn run_by_bytes<R: Threads + Wait + Sync>(
    rt: &R,
    alloc: Global,
    reads: &[u64],
    writes: &[u64],
    stalls: &[u64],
) -> Result<Ran, OutOfMemory> {
    let mut source = source_of(alloc, FOUR_EVENTS, 1, reads)?;
    let sink = sink_of(alloc, 1, writes, stalls)?;
    run_with(rt, alloc, LEDGER, &mut source, sink)
}

/// The batch is not closed before the end of the input is read, which is the 66th call.
#[test]
fn a_read_fails_at_each_byte(rt: HostRuntime) -> Result<(), Fail> {
    for call in 1..67u64 {
        let ran = run_by_bytes(&rt, rt.alloc(), &[call], &[], &[])?;
        let got = (ran.status, ran.sink.bytes().len());
        assert_eq!(rt; got, (4, 0));
    }
    let ran = run_by_bytes(&rt, rt.alloc(), &[67], &[], &[])?;
    let got = (ran.status, ran.sink.bytes() == FOUR);
    assert_eq!(rt; got, (0, true));
    Ok(())
}

/// The bytes before the one that failed stand in the sink.
#[test]
fn a_write_fails_or_stalls_at_each_byte(rt: HostRuntime) -> Result<(), Fail> {
    for call in 1..94usize {
        let number = [call as u64];
        let failed = run_by_bytes(&rt, rt.alloc(), &[], &number, &[])?;
        let stalled = run_by_bytes(&rt, rt.alloc(), &[], &[], &number)?;
        let left = &FOUR[..(call - 1).min(FOUR.len())];
        let same = failed.sink.bytes() == left && stalled.sink.bytes() == left;
        let got = (failed.status, stalled.status, same);
        assert_eq!(rt; got, (5, 5, true));
    }
    Ok(())
}

/// Two batches of one event. The second comes too late.
const TWO_BATCHES: &[u8] = b"D 5 0 0 1 1\nP\nD 5 0 0 1 1\n";

/// Their text, and that of the first one only.
const LATE: &[u8] = b"5 C 1 1\nrefused line 3: late\n";

const ONE: &[u8] = b"5 C 1 1\nacct 0 1\nasset 0 1\ncommitted 1 aborted 0\n";

/// How many bytes of the input are there, the status and the text.
static FRONTS: [(usize, u8, &[u8]); 8] = [
    (10, 3, b"refused line 1: form\n"),
    (11, 0, ONE),
    (12, 0, ONE),
    (13, 0, ONE),
    (14, 0, ONE),
    (15, 3, b"5 C 1 1\nrefused line 3: form\n"),
    (25, 3, LATE),
    (26, 3, LATE),
];

#[test]
fn the_input_is_cut_at_each_place(rt: HostRuntime) -> Result<(), Fail> {
    for &(front, status, text) in &FRONTS {
        let input = &TWO_BATCHES[..front.min(TWO_BATCHES.len())];
        expect(&rt, LEDGER, &[(input, status, text)])?;
    }
    for piece in 1..27usize {
        let mut source = source_of(rt.alloc(), TWO_BATCHES, piece, &[])?;
        let ran = run_with(
            &rt,
            rt.alloc(),
            LEDGER,
            &mut source,
            sink_of(rt.alloc(), 50, &[], &[])?,
        )?;
        let got = (ran.status, ran.sink.bytes() == LATE);
        assert_eq!(rt; got, (3, true));
    }
    Ok(())
}
