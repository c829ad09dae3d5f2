//! Two workers side by side, under a gate that lets neither go far ahead of the other.
use super::lines::{append, append_number};
use super::{Ran, run_gated, run_words};
use morph_base::{List, OutOfMemory};
use std::alloc::Global;
use std::sync::Wait;
use std::test::Fail;
use std::thread::Threads;
use worker_gate::MeetGate;

/// As many payouts as two threads are worth under each strategy.
const PAYOUTS: u64 = 32_768;

/// As many payouts as two threads are worth if they are started once for all levels.
const FEW_PAYOUTS: u64 = 1_024;

/// The words of all runs.
const WORDS: [&[u8]; 2] = [b"app=ledger", b"size=1000000"];

/// Appends a payout of 0, from an account of its own to fifteen others that no other payout names.
fn append_payout(list: &mut List<u8>, ts: u64) -> Result<(), OutOfMemory> {
    let first = ts.wrapping_sub(1).wrapping_mul(16);
    append(list, b"M ")?;
    append_number(list, ts)?;
    append(list, b" ")?;
    append_number(list, first)?;
    append(list, b" 0")?;
    for other in 1..16 {
        append(list, b" ")?;
        append_number(list, first.wrapping_add(other))?;
    }
    append(list, b"\n")
}

/// `count` payouts, each of sixteen operations, which are all on level 1.
fn payouts(alloc: Global, count: u64) -> Result<List<u8>, OutOfMemory> {
    let mut list = List::from_slice(alloc, b"morph 2\n")?;
    for ts in 1..=count {
        append_payout(&mut list, ts)?;
    }
    Ok(list)
}

/// Whether two workers meet under this strategy, settle all, and write what was written by one of them.
fn two_meet<R: Threads + Wait + Sync>(
    rt: &R,
    alloc: Global,
    input: &[u8],
    strategy: [&[u8]; 2],
    alone: &Ran,
) -> Result<bool, OutOfMemory> {
    let gate = MeetGate::new(200_000_000);
    let [explore, abort] = strategy;
    let [app, size] = WORDS;
    let words = [app, size, b"workers=2", explore, abort];
    let ran = run_gated(rt, alloc, &words, input, &gate)?;
    let met = gate.met() && !gate.missed();
    Ok(met && (ran.status, ran.tally.left) == (0, 0) && ran.sink.bytes() == alone.sink.bytes())
}

/// If one worker did all before the other began, it would wait in vain for it.
#[test]
fn two_workers_meet(rt: HostRuntime) -> Result<(), Fail> {
    let input = payouts(rt.alloc(), PAYOUTS)?;
    let alone = run_words(&rt, rt.alloc(), &WORDS, input.as_slice())?;
    assert_eq!(rt; (alone.status, alone.tally.left), (0, 0));
    let strategies: [[&[u8]; 2]; 4] = [
        [b"explore=strata", b"abort=lazy"],
        [b"explore=steal", b"abort=lazy"],
        [b"explore=strata", b"abort=eager"],
        [b"explore=steal", b"abort=eager"],
    ];
    for strategy in strategies {
        assert!(rt; two_meet(&rt, rt.alloc(), input.as_slice(), strategy, &alone)?);
    }
    Ok(())
}

/// By strata and lazy abort workers are started once for all levels, so two of them are worth it in smaller batches.
#[test]
fn two_workers_meet_in_a_smaller_batch(rt: HostRuntime) -> Result<(), Fail> {
    let input = payouts(rt.alloc(), FEW_PAYOUTS)?;
    let alone = run_words(&rt, rt.alloc(), &WORDS, input.as_slice())?;
    assert_eq!(rt; (alone.status, alone.tally.left), (0, 0));
    let strategy: [&[u8]; 2] = [b"explore=strata", b"abort=lazy"];
    assert!(rt; two_meet(&rt, rt.alloc(), input.as_slice(), strategy, &alone)?);
    Ok(())
}
