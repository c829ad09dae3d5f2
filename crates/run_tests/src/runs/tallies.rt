//! What is counted of the batches that were run.
use super::{FOUR_EVENTS, LEDGER, run_words};
use morph_base::{Abort, Explore};
use run_text::Tally;
use std::test::Fail;

/// The batches, the events with how many committed and aborted, the operations, how often these were evaluated and
/// rolled back, and how many the first worker settled.
fn numbers_of(tally: Tally) -> [u64; 8] {
    let [_, first, ..] = tally.settled_by;
    [
        tally.batches,
        tally.events,
        tally.committed,
        tally.aborted,
        tally.ops,
        tally.evaluated,
        tally.rolled,
        first,
    ]
}

/// Whether the numbers of a tally go together, by how batches are explored and abort, and by the number of workers.
pub fn is_balanced(tally: Tally, explore: Explore, abort: Abort, workers: usize) -> bool {
    let rounds: u64 = match abort {
        Abort::Lazy => 1,
        Abort::Eager => 7,
    };
    let counts = tally.settled_by;
    let [finished, ..] = counts;
    let settled = counts
        .iter()
        .fold(0u64, |sum, count| sum.wrapping_add(*count));
    let beyond = counts
        .iter()
        .enumerate()
        .any(|(worker, count)| worker > workers && *count > 0);
    tally.committed.wrapping_add(tally.aborted) == tally.events
        && settled == tally.ops
        && !beyond
        && finished <= tally.left.saturating_mul(4)
        && tally.evaluated.saturating_add(tally.spread) <= tally.ops.saturating_mul(rounds + 1)
        && tally.spread.saturating_add(tally.rolled) <= tally.ops.saturating_mul(rounds)
        && (abort == Abort::Eager || tally.spread == 0)
        && tally.stolen <= tally.handed
        && (explore == Explore::Steal || tally.handed == 0)
}

/// Inputs, and what is counted of them.
static COUNTED: [(&[u8], [u64; 8]); 3] = [
    (b"P\nP\nP\n", [0, 0, 0, 0, 0, 0, 0, 0]),
    (FOUR_EVENTS, [1, 4, 3, 1, 14, 16, 2, 14]),
    (
        b"D 1 0 0 1 1\nP\nD 2 0 0 1 1\nx\n",
        [1, 1, 1, 0, 2, 2, 0, 2],
    ),
];

#[test]
fn batches_are_counted(rt: HostRuntime) -> Result<(), Fail> {
    for &(input, numbers) in &COUNTED {
        let ran = run_words(&rt, rt.alloc(), LEDGER, input)?;
        assert_eq!(rt; numbers_of(ran.tally), numbers);
    }
    Ok(())
}
