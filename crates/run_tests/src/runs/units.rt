//! All eight strategies, with one and with several workers.
use super::tallies::is_balanced;
use super::{FOUR, FOUR_EVENTS, TWO, TWO_BATCHES, run_words};
use morph_base::{Abort, Explore};
use std::alloc::Global;
use std::process;
use std::sync::Wait;
use std::test::Fail;
use std::thread::Threads;

/// A way to explore and to abort, as a run asks for it and notes it.
#[derive(Clone, Copy)]
struct Way {
    explore: Explore,
    abort: Abort,
    explore_word: &'static [u8],
    abort_word: &'static [u8],
    /// What the notes begin with after the four events, by the unit.
    by_op: &'static [u8],
    by_chain: &'static [u8],
    /// How many of their 14 operations are handed out at least, and at most.
    handed: [u64; 2],
}

/// With lazy abort each operation is made ready once. In the unit of operations it is handed out then; in chains a
/// worker may make an operation ready on its way through a unit, and then it is handed out to nobody.
static WAYS: [Way; 4] = [
    Way {
        explore: Explore::Strata,
        abort: Abort::Lazy,
        explore_word: b"explore=strata",
        abort_word: b"abort=lazy",
        by_op: b"batch 1: events 4 ops 14 levels 4 op strata lazy\ntally: evaluated ",
        by_chain: b"batch 1: events 4 ops 14 levels 4 chain strata lazy\ntally: evaluated ",
        handed: [0, 0],
    },
    Way {
        explore: Explore::Steal,
        abort: Abort::Lazy,
        explore_word: b"explore=steal",
        abort_word: b"abort=lazy",
        by_op: b"batch 1: events 4 ops 14 levels 4 op steal lazy\ntally: evaluated ",
        by_chain: b"batch 1: events 4 ops 14 levels 4 chain steal lazy\ntally: evaluated ",
        handed: [14, 14],
    },
    Way {
        explore: Explore::Strata,
        abort: Abort::Eager,
        explore_word: b"explore=strata",
        abort_word: b"abort=eager",
        by_op: b"batch 1: events 4 ops 14 levels 4 op strata eager\ntally: evaluated ",
        by_chain: b"batch 1: events 4 ops 14 levels 4 chain strata eager\ntally: evaluated ",
        handed: [0, 0],
    },
    Way {
        explore: Explore::Steal,
        abort: Abort::Eager,
        explore_word: b"explore=steal",
        abort_word: b"abort=eager",
        by_op: b"batch 1: events 4 ops 14 levels 4 op steal eager\ntally: evaluated ",
        by_chain: b"batch 1: events 4 ops 14 levels 4 chain steal eager\ntally: evaluated ",
        handed: [2, 112],
    },
];

/// Runs the four events in both units, with 1, 2 and 16 workers, and expects the same text of each run.
fn expect_four(
    rt: &(impl Threads + Wait + Sync + process::Abort + Alloc<A = Global>),
    way: &Way,
) -> Result<(), Fail> {
    let runs: [(&[u8], &[u8], usize, &[u8]); 6] = [
        (b"unit=op", b"workers=1", 1, way.by_op),
        (b"unit=op", b"workers=2", 2, way.by_op),
        (b"unit=op", b"workers=16", 16, way.by_op),
        (b"unit=chain", b"workers=1", 1, way.by_chain),
        (b"unit=chain", b"workers=2", 2, way.by_chain),
        (b"unit=chain", b"workers=16", 16, way.by_chain),
    ];
    let [least, most] = way.handed;
    for (unit, count, workers, front) in runs {
        let words = [
            b"app=ledger".as_slice(),
            b"notes=on",
            unit,
            count,
            way.explore_word,
            way.abort_word,
        ];
        let ran = run_words(rt, rt.alloc(), &words, FOUR_EVENTS)?;
        let noted = ran.notes.bytes().starts_with(front);
        let balanced = is_balanced(ran.tally, way.explore, way.abort, workers);
        let least = if unit == b"unit=op".as_slice() {
            least
        } else {
            least.min(2)
        };
        let handed = least <= ran.tally.handed && ran.tally.handed <= most;
        let same = ran.sink.bytes() == FOUR;
        let got = (ran.status, same, noted, balanced, handed);
        assert_eq!(rt; got, (0, true, true, true, true));
    }
    Ok(())
}

#[test]
fn no_strategy_changes_the_answer(rt: HostRuntime) -> Result<(), Fail> {
    for way in &WAYS {
        expect_four(&rt, way)?;
    }
    Ok(())
}

/// Values up to 10^13. The second transfer finds too little of them.
const GREATER: &[u8] =
    b"morph 2\r\nD 1 0 0 10000000000000 5\nX 2 0 1 0 1 1 1 9999999999999\nX 3 0 1 0 1 1 1 9999999999999\n";

const GREATER_TEXT: &[u8] =
    b"1 C 10000000000000 5\n2 C 9999999999999 4 1 1\n3 A\nacct 0 9999999999999\nacct 1 1\nasset 0 4\nasset 1 1\ncommitted 2 aborted 1\n";

#[test]
fn version_2_has_greater_values_and_a_floor(rt: HostRuntime) -> Result<(), Fail> {
    for way in &WAYS {
        for (unit, ahead) in [
            (b"unit=op".as_slice(), b"ahead=0".as_slice()),
            (b"unit=chain", b"ahead=2"),
        ] {
            let words = [
                b"app=ledger".as_slice(),
                b"workers=2",
                unit,
                ahead,
                way.explore_word,
                way.abort_word,
            ];
            let ran = run_words(&rt, rt.alloc(), &words, GREATER)?;
            assert_eq!(rt; (ran.status, ran.sink.bytes()), (0, GREATER_TEXT));
        }
    }
    Ok(())
}

/// The second event asks for too much of an asset, and its other operations are told of that at once.
#[test]
fn a_failure_is_spread_at_once(rt: HostRuntime) -> Result<(), Fail> {
    for explore in [b"explore=strata".as_slice(), b"explore=steal"] {
        let words = [b"app=ledger".as_slice(), b"abort=eager", explore];
        let ran = run_words(&rt, rt.alloc(), &words, FOUR_EVENTS)?;
        let got = (
            ran.status,
            ran.sink.bytes(),
            ran.tally.spread >= 1,
            ran.tally.left,
        );
        assert_eq!(rt; got, (0, FOUR, true, 0));
    }
    Ok(())
}

/// Nothing had aborted before the first batch, and one event of four did before the second.
#[test]
fn strategies_are_chosen(rt: HostRuntime) -> Result<(), Fail> {
    let words = [b"app=ledger".as_slice(), b"plan=auto", b"notes=on"];
    let ran = run_words(&rt, rt.alloc(), &words, TWO_BATCHES)?;
    let front =
        b"batch 1: events 4 ops 14 levels 4 op steal lazy\nbatch 2: events 1 ops 2 levels 1 op steal eager\ntally: evaluated ";
    assert_eq!(rt;
        (
            ran.status,
            ran.sink.bytes(),
            ran.notes.bytes().starts_with(front)
        ),
        (0, TWO, true)
    );
    Ok(())
}
