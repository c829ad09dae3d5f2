//! Whole inputs, each with its text and its status.
use super::lines::{Part, append, lines};
use super::{FOUR, FOUR_EVENTS, LEDGER, expect};
use morph_base::{List, OutOfMemory};
use std::alloc::Global;
use std::test::Fail;

/// Inputs whose events commit or abort, with the status and the text.
static EVENTS: [(&[u8], u8, &[u8]); 8] = [
    (b"", 0, b"committed 0 aborted 0\n"),
    (b"P\nP\nP\n", 0, b"committed 0 aborted 0\n"),
    (
        b"D 1 0 0 100 5\n",
        0,
        b"1 C 100 5\nacct 0 100\nasset 0 5\ncommitted 1 aborted 0\n",
    ),
    (
        b"D 1 0 0 100 5\nX 2 0 1 0 1 101 1\n",
        0,
        b"1 C 100 5\n2 A\nacct 0 100\nasset 0 5\ncommitted 1 aborted 1\n",
    ),
    (
        b"D 1 0 0 1000000000000 0\nD 2 0 0 1 0\n",
        0,
        b"1 C 1000000000000 0\n2 A\nacct 0 1000000000000\ncommitted 1 aborted 1\n",
    ),
    // what has to stay is there, and then it is not
    (
        b"morph 2\nD 1 0 0 100 5\nX 2 0 1 0 1 60 1 40\nX 3 0 1 0 1 1 1 40\n",
        0,
        b"1 C 100 5\n2 C 40 4 60 1\n3 A\nacct 0 40\nacct 1 60\nasset 0 4\nasset 1 1\ncommitted 2 aborted 1\n",
    ),
    // one account pays three, and then has too little for two
    (
        b"morph 2\nD 1 0 0 100 0\nM 2 0 30 1 2 3\nM 3 0 10 1 2\n",
        0,
        b"1 C 100 0\n2 C 10 30 30 30\n3 A\nacct 0 10\nacct 1 30\nacct 2 30\nacct 3 30\ncommitted 2 aborted 1\n",
    ),
    // what a batch does not touch stays as the one before left it
    (
        b"D 1 0 0 100 5\nP\nD 2 1 1 1 1\n",
        0,
        b"1 C 100 5\n2 C 1 1\nacct 0 100\nacct 1 1\nasset 0 5\nasset 1 1\ncommitted 2 aborted 0\n",
    ),
];

#[test]
fn events_commit_or_abort(rt: HostRuntime) -> Result<(), Fail> {
    expect(&rt, LEDGER, &EVENTS)
}

#[test]
fn order_of_arrival_and_workers_do_not_matter(rt: HostRuntime) -> Result<(), Fail> {
    for workers in [b"workers=1".as_slice(), b"workers=2", b"workers=16"] {
        expect(
            &rt,
            &[b"app=ledger", workers],
            &[
                (FOUR_EVENTS, 0, FOUR),
                (
                    b"X 4 1 2 1 2 60 5\nX 3 0 1 0 1 60 5\nX 2 0 1 0 1 60 6\nD 1 0 0 100 5\n",
                    0,
                    FOUR,
                ),
            ],
        )?;
    }
    Ok(())
}

const RANGE: &[u8] = b"refused line 1: range\n";

const FORM: &[u8] = b"refused line 1: form\n";

/// Inputs with a line that is refused, with the status and the text.
static REFUSED: [(&[u8], u8, &[u8]); 18] = [
    (
        b"D 5 0 0 1 1\nP\nD 5 0 0 1 1\n",
        3,
        b"5 C 1 1\nrefused line 3: late\n",
    ),
    (b"D 7 0 0 1 1\nD 7 1 1 1 1\n", 3, b"refused line 2: twice\n"),
    (b"X 1 3 3 0 1 1 1\n", 3, b"refused line 1: same\n"),
    (
        b"D 1 0 0 1 1\nP\nD 9 0",
        3,
        b"1 C 1 1\nrefused line 3: form\n",
    ),
    (b"D 1 0 0 1000000000001 0\n", 3, RANGE),
    (b"D 0 0 0 1 1\n", 3, RANGE),
    (b"D 1 10000 0 1 1\n", 3, RANGE),
    (b"D 007 0 0 1 1\n", 3, FORM),
    (b"D 1  0 0 1 1\n", 3, FORM),
    (b"T 1 0 0 10\n", 3, FORM),
    (b"D 1 0 0 10000000000000 0\n", 3, RANGE),
    (b"X 1 0 1 0 1 1 1 0\n", 3, FORM),
    (b"#\nmorph 2\n", 3, b"refused line 2: form\n"),
    (b"morph 2 \n", 3, FORM),
    (
        b"morph 2\nD 1 0 0 10000000000001 0\n",
        3,
        b"refused line 2: range\n",
    ),
    (b"morph 2\nM 1 0 5 1 1\n", 3, b"refused line 2: same\n"),
    (
        b"morph 2\nM 1 0 5000000000000 1 2 3\n",
        3,
        b"refused line 2: range\n",
    ),
    (b"M 1 0 5 1\n", 3, FORM),
];

#[test]
fn lines_are_refused(rt: HostRuntime) -> Result<(), Fail> {
    expect(&rt, LEDGER, &REFUSED)
}

/// Inputs with comments, and with a last line that no LF ends.
static ENDS: [(&[u8], u8, &[u8]); 3] = [
    (
        b"#x\r\n\r\nD 1 0 0 1 1",
        0,
        b"1 C 1 1\nacct 0 1\nasset 0 1\ncommitted 1 aborted 0\n",
    ),
    (b"#x\r\n\r\nD 1 0 0 1", 3, b"refused line 3: form\n"),
    (b"morph 2", 0, b"committed 0 aborted 0\n"),
];

#[test]
fn comments_and_last_lines(rt: HostRuntime) -> Result<(), Fail> {
    expect(&rt, LEDGER, &ENDS)
}

/// A comment of `bytes` bytes with a CR and an LF behind it, and a deposit.
fn comment_of(alloc: Global, bytes: usize) -> Result<List<u8>, OutOfMemory> {
    let mut input = List::filled(alloc, bytes, b'#')?;
    append(&mut input, b"\r\nD 1 0 0 100 5\n")?;
    Ok(input)
}

#[test]
fn a_comment_has_at_most_a_thousand_bytes(rt: HostRuntime) -> Result<(), Fail> {
    let runs: [(usize, u8, &[u8]); 2] = [
        (
            1_000,
            0,
            b"1 C 100 5\nacct 0 100\nasset 0 5\ncommitted 1 aborted 0\n",
        ),
        (1_001, 3, b"refused line 1: long\n"),
    ];
    for (bytes, status, text) in runs {
        let input = comment_of(rt.alloc(), bytes)?;
        expect(&rt, LEDGER, &[(input.as_slice(), status, text)])?;
    }
    Ok(())
}

/// Lines of `count` deposits of 1 on account 0, at the times from 1 on.
pub fn deposits(alloc: Global, count: u64) -> Result<List<u8>, OutOfMemory> {
    let parts = [Part::Text(b"D "), Part::Number, Part::Text(b" 0 0 1 0")];
    lines(alloc, count, &parts)
}

/// The text of `count` of them, with `closing` after the lines of the events.
fn deposited_text(alloc: Global, count: u64, closing: &[u8]) -> Result<List<u8>, OutOfMemory> {
    let parts = [
        Part::Number,
        Part::Text(b" C "),
        Part::Number,
        Part::Text(b" 0"),
    ];
    let mut text = lines(alloc, count, &parts)?;
    append(&mut text, closing)?;
    Ok(text)
}

#[test]
fn a_batch_has_at_most_10240_events(rt: HostRuntime) -> Result<(), Fail> {
    let full = deposits(rt.alloc(), 10_240)?;
    let closing = b"acct 0 10240\ncommitted 10240 aborted 0\n";
    let text = deposited_text(rt.alloc(), 10_240, closing)?;
    expect(&rt, LEDGER, &[(full.as_slice(), 0, text.as_slice())])?;
    let more = deposits(rt.alloc(), 10_241)?;
    expect(
        &rt,
        LEDGER,
        &[(more.as_slice(), 3, b"refused line 10241: full\n")],
    )
}

/// The input of version 2 with `count` deposits.
fn second(alloc: Global, count: u64) -> Result<List<u8>, OutOfMemory> {
    let mut input = List::new(alloc);
    append(&mut input, b"morph 2\n")?;
    append(&mut input, deposits(alloc, count)?.as_slice())?;
    Ok(input)
}

#[test]
fn a_batch_of_version_2_has_at_most_65536_events(rt: HostRuntime) -> Result<(), Fail> {
    let full = second(rt.alloc(), 65_536)?;
    let closing = b"acct 0 65536\ncommitted 65536 aborted 0\n";
    let text = deposited_text(rt.alloc(), 65_536, closing)?;
    expect(&rt, LEDGER, &[(full.as_slice(), 0, text.as_slice())])?;
    let more = second(rt.alloc(), 65_537)?;
    expect(
        &rt,
        LEDGER,
        &[(more.as_slice(), 3, b"refused line 65538: full\n")],
    )
}
