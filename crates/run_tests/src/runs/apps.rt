//! Runs of the applications of cells and of tolls, and of inputs that the program makes.
use super::lines::{Part, append, append_lines, lines, number_behind};
use super::{expect, run_gated, run_words};
use morph_base::{List, OutOfMemory};
use std::alloc::Global;
use std::test::Fail;
use worker_gate::HoldGate;

#[test]
fn cells_and_their_sums(rt: HostRuntime) -> Result<(), Fail> {
    expect(
        &rt,
        &[b"app=grep"],
        &[
            (b"G 1 0 10 1 2\n", 0, b"1 C 0 0 0\ncommitted 1 aborted 0\n"),
            (
                b"W 1 1 6\nW 2 2 4\nG 3 0 10 1 2\nG 4 0 9 1 2\n",
                0,
                b"1 C 6\n2 C 4\n3 C 10 6 4\n4 A\ncell 0 10\ncell 1 6\ncell 2 4\ncommitted 3 aborted 1\n",
            ),
            (
                b"morph 2\nW 1 1 5\nG 2 0 10 1 2 3 4 5 6 7\n",
                0,
                b"1 C 5\n2 C 5 5 0 0 0 0 0 0\ncell 0 5\ncell 1 5\ncommitted 2 aborted 0\n",
            ),
            (b"G 2 0 10 1 2 3 4\n", 3, b"refused line 1: form\n"),
        ],
    )
}

#[test]
fn speeds_are_averaged(rt: HostRuntime) -> Result<(), Fail> {
    expect(
        &rt,
        &[b"app=toll"],
        &[(
            b"T 1 3 0 10\nT 2 3 0 11\nT 3 3 0 11\nT 4 3 0 11\n",
            0,
            b"1 C 1000 1 1 0\n2 C 1050 1 1 0\n3 C 1075 1 1 0\n4 C 1087 1 1 0\nspd 0 1087\nat 3 1\ncnt 0 1\ncommitted 4 aborted 0\n",
        )],
    )
}

/// Lines of `count` reports of a speed of 10 on segment 0, each of another vehicle, at the times from 1 on.
fn reports(alloc: Global, count: u64) -> Result<List<u8>, OutOfMemory> {
    let parts = [
        Part::Text(b"T "),
        Part::Number,
        Part::Text(b" "),
        Part::Before,
        Part::Text(b" 0 10"),
    ];
    lines(alloc, count, &parts)
}

/// The text of 52 such reports: the last one finds more than 50 on its segment.
fn tolled_text(alloc: Global) -> Result<List<u8>, OutOfMemory> {
    let event = [
        Part::Number,
        Part::Text(b" C 1000 1 "),
        Part::Number,
        Part::Text(b" 0"),
    ];
    let mut text = lines(alloc, 51, &event)?;
    append(&mut text, b"52 C 1000 1 52 2\nspd 0 1000\n")?;
    append_lines(
        &mut text,
        52,
        &[Part::Text(b"at "), Part::Before, Part::Text(b" 1")],
    )?;
    append(&mut text, b"cnt 0 52\nbill 51 2\ncommitted 52 aborted 0\n")?;
    Ok(text)
}

#[test]
fn the_52nd_on_a_segment_is_tolled(rt: HostRuntime) -> Result<(), Fail> {
    let input = reports(rt.alloc(), 52)?;
    let text = tolled_text(rt.alloc())?;
    expect(
        &rt,
        &[b"app=toll"],
        &[(input.as_slice(), 0, text.as_slice())],
    )
}

/// The lines of the last two events, and the last line.
#[test]
fn a_bill_has_a_limit(rt: HostRuntime) -> Result<(), Fail> {
    let input = reports(rt.alloc(), 759)?;
    let ran = run_words(
        &rt,
        rt.alloc(),
        &[b"app=toll", b"size=1000"],
        input.as_slice(),
    )?;
    let has = |part: &[u8]| ran
        .sink
        .bytes()
        .windows(part.len().max(1))
        .any(|found| found == part);
    assert_eq!(rt;
        (
            ran.status,
            has(b"\n758 C 1000 1 758 999698\n759 A\nspd 0 1000\n"),
            ran.sink.bytes().ends_with(b"\ncommitted 758 aborted 1\n")
        ),
        (0, true, true)
    );
    Ok(())
}

#[test]
fn a_made_input_is_told_by_sums(rt: HostRuntime) -> Result<(), Fail> {
    expect(
        &rt,
        &[b"self=ledger", b"events=0"],
        &[(
            b"D 1 0 0 1 1\n",
            0,
            b"acct total 0\nasset total 0\ncommitted 0 aborted 0\n",
        )],
    )
}

/// The sum of the numbers in the last line of a text that is two lines of totals and a last line, and nothing else.
fn counted(text: &[u8]) -> Option<u64> {
    let (_, text) = number_behind(text, b"acct total ")?;
    let (_, text) = number_behind(text, b"\nasset total ")?;
    let (committed, text) = number_behind(text, b"\ncommitted ")?;
    let (aborted, text) = number_behind(text, b" aborted ")?;
    if text != b"\n".as_slice() {
        return None;
    }
    committed.checked_add(aborted)
}

/// Four workers have a thread each. With a million ids most operations of a batch are on the first level.
#[test]
fn workers_and_strategies_do_not_change_the_answer(rt: HostRuntime) -> Result<(), Fail> {
    let side_by_side = HoldGate::new(0, 0, 0);
    let runs: [[&[u8]; 3]; 2] = [
        [b"size=10000", b"explore=steal", b"abort=eager"],
        [b"size=1000000", b"explore=strata", b"abort=lazy"],
    ];
    for [size, explore, abort] in runs {
        let made: [&[u8]; 7] = [
            b"self=ledger",
            b"seed=7",
            b"events=20000",
            size,
            b"workers=4",
            explore,
            abort,
        ];
        let one = run_words(&rt, rt.alloc(), &made[..4], b"")?;
        let four = run_gated(&rt, rt.alloc(), &made, b"", &side_by_side)?;
        assert_eq!(rt; (one.status, counted(one.sink.bytes())), (0, Some(20_000)));
        assert_eq!(rt; (four.status, four.sink.bytes()), (0, one.sink.bytes()));
    }
    Ok(())
}
