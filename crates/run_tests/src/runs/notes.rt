//! What stands in the notes if they are on.
use super::{FOUR, FOUR_EVENTS, Ran, TWO, TWO_BATCHES, run_noted, sink_of, source_of};
use morph_base::OutOfMemory;
use std::alloc::Global;
use std::sync::Wait;
use std::test::Fail;
use std::thread::Threads;

/// Runs the program with these words into a sink and notes whose calls of the given numbers fail.
fn run_failing<R: Threads + Wait + Sync>(
    rt: &R,
    alloc: Global,
    words: &[&[u8]],
    input: &[u8],
    sink_fails: &[u64],
    notes_fails: &[u64],
) -> Result<Ran, OutOfMemory> {
    let mut source = source_of(alloc, input, 50, &[])?;
    let sink = sink_of(alloc, 5, sink_fails, &[])?;
    run_noted(
        rt,
        alloc,
        words,
        &mut source,
        sink,
        sink_of(alloc, 100, notes_fails, &[])?,
    )
}

/// The status of a run, its text and its notes.
type Left = (u8, &'static [u8], &'static [u8]);

/// Words and an input, which calls of the sink fail and which of the notes, and what the run leaves.
static RUNS: [(&[&[u8]], &[u8], &[u64], &[u64], Left); 15] = [
    (
        &[b"app=ledger", b"notes=on"],
        FOUR_EVENTS,
        &[],
        &[],
        (
            0,
            FOUR,
            b"batch 1: events 4 ops 14 levels 4 op strata lazy\ntally: evaluated 16 spread 0 rolled 2 left 0 handed 0 stolen 0\nsettled 0 14\n",
        ),
    ),
    (
        &[b"app=ledger", b"explore=steal", b"notes=on"],
        FOUR_EVENTS,
        &[],
        &[],
        (
            0,
            FOUR,
            b"batch 1: events 4 ops 14 levels 4 op steal lazy\ntally: evaluated 16 spread 0 rolled 2 left 0 handed 14 stolen 0\nsettled 0 14\n",
        ),
    ),
    (
        &[b"app=ledger", b"notes=on", b"workers=2"],
        b"P\nx\n",
        &[],
        &[],
        (
            3,
            b"refused line 2: form\n",
            b"tally: evaluated 0 spread 0 rolled 0 left 0 handed 0 stolen 0\nsettled 0 0 0\n",
        ),
    ),
    (
        &[b"app=ledger", b"notes=off"],
        FOUR_EVENTS,
        &[],
        &[],
        (0, FOUR, b""),
    ),
    (
        &[b"workers=2", b"size=5"],
        b"D 1 0 0 100 5\n",
        &[],
        &[1],
        (2, b"", b""),
    ),
    (
        &[b"app=ledger", b"notes=on"],
        b"D 1 0 0 100 5\n",
        &[],
        &[1],
        (5, b"1 C 100 5\n", b"morph: write failed\n"),
    ),
    (
        &[b"app=ledger"],
        b"D 1 0 0 100 5\n",
        &[],
        &[1],
        (
            0,
            b"1 C 100 5\nacct 0 100\nasset 0 5\ncommitted 1 aborted 0\n",
            b"",
        ),
    ),
    (
        &[b"app=ledger", b"notes=on"],
        b"D 1 0 0 1 1\nP\nD 2 0 0 1 1\n",
        &[4],
        &[],
        (
            5,
            b"1 C 1 1\n2 C 2",
            b"batch 1: events 1 ops 2 levels 1 op strata lazy\nmorph: write failed\n",
        ),
    ),
    (
        &[b"app=ledger", b"watch=on", b"notes=on"],
        TWO_BATCHES,
        &[],
        &[],
        (
            0,
            TWO,
            b"audit 0 total 0\nbatch 1: events 4 ops 14 levels 4 op strata lazy\naudit 1 total 100\nbatch 2: events 1 ops 2 levels 1 op strata lazy\ntally: evaluated 18 spread 0 rolled 2 left 0 handed 0 stolen 0\nsettled 0 16\n",
        ),
    ),
    (
        &[b"app=ledger", b"watch=on"],
        b"D 1 0 0 7 5\nP\nD 2 1 0 3 1\nP\nx\n",
        &[],
        &[],
        (
            3,
            b"1 C 7 5\n2 C 3 6\nrefused line 5: form\n",
            b"audit 0 total 0\naudit 1 total 7\n",
        ),
    ),
    (
        &[b"app=ledger", b"watch=on"],
        b"D 1 0 0 7 5\n",
        &[],
        &[1],
        (5, b"1 C 7 5\n", b"morph: write failed\n"),
    ),
    (
        &[b"app=ledger", b"check=text"],
        b"D 1 0 0 100 5\n",
        &[],
        &[],
        (
            0,
            b"1 C 100 5\nacct 0 100\nasset 0 5\ncommitted 1 aborted 0\n",
            b"R 0\nC 0 1\nF 0 0 1 0\nN 0 1\nR 1\nC 1 1\nF 1 0 1 0\nN 1 1\nD 0 c\nT 0 1\nT 1 1\ncheck 1: yes\n",
        ),
    ),
    (
        &[b"app=ledger", b"check=on"],
        FOUR_EVENTS,
        &[],
        &[],
        (0, FOUR, b"check 1: yes\n"),
    ),
    (
        &[b"app=ledger", b"check=on", b"notes=on", b"explore=steal"],
        TWO_BATCHES,
        &[],
        &[],
        (
            0,
            TWO,
            b"batch 1: events 4 ops 14 levels 4 op steal lazy\ncheck 1: yes\nbatch 2: events 1 ops 2 levels 1 op steal lazy\ncheck 2: yes\ntally: evaluated 18 spread 0 rolled 2 left 0 handed 16 stolen 0\nsettled 0 16\n",
        ),
    ),
    (
        &[b"app=ledger", b"check=on"],
        b"D 1 0 0 7 5\n",
        &[],
        &[1],
        (5, b"1 C 7 5\n", b"morph: write failed\n"),
    ),
];

#[test]
fn notes_and_their_faults(rt: HostRuntime) -> Result<(), Fail> {
    for &(words, input, sink_fails, notes_fails, left) in &RUNS {
        let ran = run_failing(&rt, rt.alloc(), words, input, sink_fails, notes_fails)?;
        assert_eq!(rt; (ran.status, ran.sink.bytes(), ran.notes.bytes()), left);
    }
    Ok(())
}
