//! Workers that are held at bad moments, and many that contend for a few keys, under all eight strategies.
use super::lines::{Part, append, append_lines};
use super::{FOUR, FOUR_EVENTS, run_gated};
use morph_base::{List, OutOfMemory};
use std::alloc::Global;
use std::test::Fail;
use worker_gate::HoldGate;

/// The words that ask for each strategy.
static STRATEGIES: [[&[u8]; 3]; 8] = [
    [b"unit=op", b"explore=strata", b"abort=lazy"],
    [b"unit=op", b"explore=strata", b"abort=eager"],
    [b"unit=op", b"explore=steal", b"abort=lazy"],
    [b"unit=op", b"explore=steal", b"abort=eager"],
    [b"unit=chain", b"explore=strata", b"abort=lazy"],
    [b"unit=chain", b"explore=strata", b"abort=eager"],
    [b"unit=chain", b"explore=steal", b"abort=lazy"],
    [b"unit=chain", b"explore=steal", b"abort=eager"],
];

/// The workers and the turns from which on each is held in turn, four by four.
const HOLDS: u64 = 16;

#[test]
fn a_held_worker_does_not_change_the_answer(rt: HostRuntime) -> Result<(), Fail> {
    for &[unit, explore, abort] in &STRATEGIES {
        let words = [b"app=ledger".as_slice(), b"workers=4", unit, explore, abort];
        for hold in 0..HOLDS {
            let gate = HoldGate::new((hold / 4) as u32 + 1, hold % 4, 100_000);
            let ran = run_gated(&rt, rt.alloc(), &words, FOUR_EVENTS, &gate)?;
            let got = (ran.status, ran.sink.bytes() == FOUR);
            assert_eq!(rt; got, (0, true));
        }
    }
    Ok(())
}

/// A deposit of 2,000, and 4,000 transfers of 1 from there. The first 2,000 of them find enough.
fn transfers(alloc: Global) -> Result<List<u8>, OutOfMemory> {
    let mut input = List::new(alloc);
    append(&mut input, b"D 1 0 0 2000 0\n")?;
    let parts = [Part::Text(b"X "), Part::After, Part::Text(b" 0 1 0 1 1 0")];
    append_lines(&mut input, 4_000, &parts)?;
    Ok(input)
}

#[test]
fn sixteen_workers_contend_for_an_account(rt: HostRuntime) -> Result<(), Fail> {
    let input = transfers(rt.alloc())?;
    let side_by_side = HoldGate::new(0, 0, 0);
    for &[unit, explore, abort] in &STRATEGIES {
        let words = [
            b"app=ledger".as_slice(),
            b"workers=16",
            unit,
            explore,
            abort,
        ];
        let ran = run_gated(&rt, rt.alloc(), &words, input.as_slice(), &side_by_side)?;
        let last = b"\n2001 C 0 0 2000 0\n2002 A\n".as_slice();
        let met = ran
            .sink
            .bytes()
            .windows(last.len())
            .any(|found| found == last);
        let counted = ran
            .sink
            .bytes()
            .ends_with(b"\ncommitted 2001 aborted 2000\n");
        let got = (ran.status, met, counted);
        assert_eq!(rt; got, (0, true, true));
    }
    Ok(())
}
