//! Runs that read ahead leave what one leaves that does not.
use super::inputs::deposits;
use super::{FOUR_EVENTS, Ran, run_words};
use morph_base::OutOfMemory;
use std::alloc::Global;
use std::sync::Wait;
use std::test::Fail;
use std::thread::Threads;

/// The four events in two orders of arrival; two batches; five events, of which the second aborts; and lines that are
/// refused.
static INPUTS: [&[u8]; 5] = [
    FOUR_EVENTS,
    b"X 4 1 2 1 2 60 5\nX 3 0 1 0 1 60 5\nD 1 0 0 100 5\nX 2 0 1 0 1 60 6\n",
    b"D 1 0 0 100 5\nX 2 0 1 0 1 60 6\nX 3 0 1 0 1 60 5\nX 4 1 2 1 2 60 5\nP\nD 9 0 0 1 1\n",
    b"D 1 0 0 1 1\nP\nX 2 0 1 0 1 9 1\nP\nX 3 0 1 0 1 1 1\nP\nD 4 0 0 1 1\nP\nD 5 1 1 1 1\n",
    b"D 1 0 0 1 1\nP\nD 2 0 0 1 1\nP\nD 3 0 0 1 1\nP\nD 3 0 0 1 1\n",
];

/// Runs an input with this many batches ahead, and with the strategies that the program chooses.
fn run_by<R: Threads + Wait + Sync>(
    rt: &R,
    alloc: Global,
    ahead: &[u8],
    input: &[u8],
) -> Result<Ran, OutOfMemory> {
    let words = [b"app=ledger".as_slice(), b"plan=auto", b"notes=on", ahead];
    run_words(rt, alloc, &words, input)
}

/// Whether runs with this many batches ahead and with none leave the same status, text and notes.
fn is_same<R: Threads + Wait + Sync>(
    rt: &R,
    alloc: Global,
    ahead: &[u8],
    input: &[u8],
) -> Result<bool, OutOfMemory> {
    let want = run_by(rt, alloc, b"ahead=0", input)?;
    let got = run_by(rt, alloc, ahead, input)?;
    Ok(
        got.status == want.status
            && got.sink.bytes() == want.sink.bytes()
            && got.notes.bytes() == want.notes.bytes(),
    )
}

#[test]
fn reading_ahead_does_not_change_the_answer(rt: HostRuntime) -> Result<(), Fail> {
    for input in &INPUTS {
        let same = [
            is_same(&rt, rt.alloc(), b"ahead=1", input)?,
            is_same(&rt, rt.alloc(), b"ahead=2", input)?,
        ];
        assert_eq!(rt; same, [true, true], "at {input:?}");
    }
    Ok(())
}

#[test]
fn a_full_batch_is_read_ahead(rt: HostRuntime) -> Result<(), Fail> {
    let full = deposits(rt.alloc(), 10_240)?;
    let same = [
        is_same(&rt, rt.alloc(), b"ahead=1", full.as_slice())?,
        is_same(&rt, rt.alloc(), b"ahead=2", full.as_slice())?,
    ];
    assert_eq!(rt; same, [true, true]);
    Ok(())
}
