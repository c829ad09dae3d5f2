ghost use Rattle.std.specs.Prelude.{◌<◌, ◌≤◌};
ghost use Rattle.event_reader.specs.Limits.{input_bytes};

use crate::app_lines::{check_refused, told};
use crate::readings::{End, Outcome, outcome_of, read_batches, source_of};
use event_reader::{
    Cause, Draws, EventApp, GenSource, INPUT_BYTES, MakesInput, ReaderFault, Version,
};
use ledger_app::{ACCOUNTS, ASSETS, Ledger};
use morph_base::{Func, Key, Op, OutOfMemory};
use morph_io::{LineBuf, Source};
use std::alloc::{AllocError, Global};
use std::process::Abort;
use std::test::Fail;

/// Reads all batches of a text, from a source that gives it in pieces and fails at the given calls.
fn read_all(
    alloc: Global,
    text: &[u8],
    piece: usize,
    fail: &[u64],
    limit: u64,
) -> Result<Outcome, OutOfMemory>
    requires piece { 0 < piece }
    requires some { 1 ≤ limit }
    requires limit { limit ≤ input_bytes }
{
    let mut source = source_of(alloc, text, piece, fail)?;
    read_batches(alloc, Ledger, &mut source, 10_000, limit)
}

/// Reads each text, and compares the outcome with the sizes of its batches and its end.
fn check_texts(
    rt: &impl Abort,
    alloc: Global,
    rows: &[(&[u8], &[usize], End)],
) -> Result<(), OutOfMemory> {
    for &(text, sizes, end) in rows {
        let outcome = read_all(alloc, text, 4_096, &[], INPUT_BYTES)?;
        assert_eq!(rt; outcome, outcome_of(sizes, end), "at {text:?}");
    }
    Ok(())
}

/// Texts, the sizes of their batches, and how their reading ends.
static CAUSES: [(&[u8], &[usize], End); 24] = [
    (b"morph 2\nD 1 0 0 10000000000000 0\n", &[1], End::Ended),
    (b"morph 2\r\nX 1 0 1 0 1 1 1 0\nP\n", &[1], End::Ended),
    (b"#\nmorph 2\n", &[], End::Refused(2, Cause::Form)),
    (b"morph 2 \n", &[], End::Refused(1, Cause::Form)),
    (
        b"morph 2\nD 1 0 0 1 1\nP\nmorph 2\n",
        &[1],
        End::Refused(4, Cause::Form),
    ),
    (b"morph 2", &[], End::Ended),
    (
        b"D 1 0 0 1000000000001 0\n",
        &[],
        End::Refused(1, Cause::Range),
    ),
    (b"D 0 0 0 1 1\n", &[], End::Refused(1, Cause::Range)),
    (b"D 1 10000 0 1 1\n", &[], End::Refused(1, Cause::Range)),
    (b"D 1 9999 9999 1 1\n", &[1], End::Ended),
    (b"D 007 0 0 1 1\n", &[], End::Refused(1, Cause::Form)),
    (b"D 1  0 0 1 1\n", &[], End::Refused(1, Cause::Form)),
    (b"D 1 0 0 1 1 \n", &[], End::Refused(1, Cause::Form)),
    (b"T 1 0 0 10\n", &[], End::Refused(1, Cause::Form)),
    (b"D 0 0 0 x 1\n", &[], End::Refused(1, Cause::Form)),
    (b"X 1 3 3 0 1 1 1\n", &[], End::Refused(1, Cause::Same)),
    (b"X 1 3 4 2 2 1 1\n", &[], End::Refused(1, Cause::Same)),
    (b"X 0 3 3 0 1 1 1\n", &[], End::Refused(1, Cause::Range)),
    (
        b"D 5 0 0 1 1\nP\nX 5 3 3 0 1 1 1\n",
        &[1],
        End::Refused(3, Cause::Same),
    ),
    (
        b"D 5 0 0 1 1\nP\nD 5 0 0 1 1\n",
        &[1],
        End::Refused(3, Cause::Late),
    ),
    (
        b"D 9 0 0 1 1\nD 5 0 0 1 1\nP\nD 7 0 0 1 1\n",
        &[2],
        End::Refused(4, Cause::Late),
    ),
    (
        b"D 7 0 0 1 1\nD 7 1 1 1 1\n",
        &[],
        End::Refused(2, Cause::Twice),
    ),
    (
        b"D 9 0 0 1 1\nD 7 0 0 1 1\nD 8 0 0 1 1\nD 7 0 0 1 1\n",
        &[],
        End::Refused(4, Cause::Twice),
    ),
    (b"D 1 0 0 1 1\nP\nD 9 0", &[1], End::Refused(3, Cause::Form)),
];

#[test]
fn causes_come_in_their_order(rt: HostRuntime) -> Result<(), Fail> {
    Ok(check_texts(&rt, rt.alloc(), &CAUSES)?)
}

/// A line of `len` bytes that begins with `first`, and an ending.
fn long_line(alloc: Global, first: u8, len: usize, ending: &[u8]) -> Result<Vec<u8>, AllocError> {
    let mut text = Vec::new(alloc);
    text.push(first)?;
    'bytes: for _ in 1..len {
        text.push(b'x')?;
    }
    text.extend_from_slice(ending)?;
    Ok(text)
}

/// Reads a long line in pieces.
fn read_long(
    alloc: Global,
    first: u8,
    len: usize,
    ending: &[u8],
    piece: usize,
) -> Result<Outcome, Fail>
    requires piece { 0 < piece }
{
    let text = long_line(alloc, first, len, ending)?;
    Ok(read_all(alloc, &text, piece, &[], INPUT_BYTES)?)
}

/// Texts by the endings of their lines.
static ENDINGS: [(&[u8], &[usize], End); 9] = [
    (b"", &[], End::Ended),
    (b"P\nP\nP\n", &[], End::Ended),
    (b"#x\r\n\r\nD 1 0 0 1 1", &[1], End::Ended),
    (b"#x\r\n\r\nD 1 0 0 1", &[], End::Refused(3, Cause::Form)),
    (b"D 1 0 0 1 1\r\nP\r\nD 2 0 0 1 1\r", &[1, 1], End::Ended),
    (b"D 1 0 0 1 1\r\r\n", &[], End::Refused(1, Cause::Form)),
    (b"D 1 0 0 1 1\nP\r\r\n", &[], End::Refused(2, Cause::Form)),
    (b"\r\n\n\r", &[], End::Ended),
    (b"D 1 0 0 1 1\n\n#\nP \n", &[], End::Refused(4, Cause::Form)),
];

#[test]
fn one_cr_is_dropped_and_the_last_line_needs_no_lf(rt: HostRuntime) -> Result<(), Fail> {
    Ok(check_texts(&rt, rt.alloc(), &ENDINGS)?)
}

/// The first byte of a line, its length and its ending, the sizes of the batches, and how the reading ends.
static LONG_LINES: [(u8, usize, &[u8], &[usize], End); 9] = [
    (b'#', 1_000, b"\r\nD 2 0 0 100 5\n", &[1], End::Ended),
    (b'#', 1_000, b"\nD 2 0 0 100 5\n", &[1], End::Ended),
    (b'#', 1_000, b"\r", &[], End::Ended),
    (b'#', 1_001, b"\n", &[], End::Refused(1, Cause::Long)),
    (b'#', 1_001, b"\r\n", &[], End::Refused(1, Cause::Long)),
    (b'#', 1_001, b"", &[], End::Refused(1, Cause::Long)),
    (b'#', 1_000, b"\r\r\n", &[], End::Refused(1, Cause::Long)),
    (b'D', 1_000, b"\n", &[], End::Refused(1, Cause::Form)),
    (b'D', 1_001, b"\n", &[], End::Refused(1, Cause::Long)),
];

#[test]
fn a_line_of_more_than_1000_bytes_is_long(rt: HostRuntime) -> Result<(), Fail> {
    for &(first, len, ending, sizes, end) in &LONG_LINES {
        for piece in [1, 1_001, 4_096] {
            assert!(rt; piece > 0);
            let outcome = read_long(rt.alloc(), first, len, ending, piece)?;
            assert_eq!(rt;
                outcome,
                outcome_of(sizes, end),
                "{len} bytes and {ending:?}"
            );
        }
    }
    Ok(())
}

/// Deposits at the timestamps from 1 to `count`, rising or falling.
fn deposits(alloc: Global, count: u64, falling: bool) -> Result<String, AllocError> {
    let mut text = String::new(alloc);
    'lines: for i in 0..count {
        let ts = if falling { count - i } else { i + 1 };
        text.push_str(format!(in alloc; "D {ts} 0 0 1 0\n")?.as_str())?;
    }
    Ok(text)
}

/// Reads `count` deposits.
fn read_deposits(alloc: Global, count: u64, falling: bool) -> Result<Outcome, Fail> {
    let text = deposits(alloc, count, falling)?;
    Ok(read_all(alloc, text.as_bytes(), 4_096, &[], INPUT_BYTES)?)
}

#[test]
fn a_batch_has_at_most_10240_events(rt: HostRuntime) -> Result<(), Fail> {
    let full = outcome_of(&[10_240], End::Ended);
    let refused = outcome_of(&[], End::Refused(10_241, Cause::Full));
    for (count, falling, want) in [
        (10_240, false, full),
        (10_240, true, full),
        (10_241, false, refused),
        (10_241, true, refused),
    ] {
        assert_eq!(rt;
            read_deposits(rt.alloc(), count, falling)?,
            want,
            "{count} deposits"
        );
    }
    Ok(())
}

/// Two batches of one deposit each, of 26 bytes.
const TWO_BATCHES: &[u8] = b"D 1 0 0 1 1\nP\nD 2 0 0 1 1\n";

/// One batch of four events, of 65 bytes.
const FOUR_EVENTS: &[u8] = b"D 1 0 0 100 5\nX 2 0 1 0 1 60 6\nX 3 0 1 0 1 60 5\nX 4 1 2 1 2 60 5\n";

/// How long the pieces are and which calls fail, how many bytes an input may have, the sizes of the batches, and how
/// the reading ends.
static FAULTS: [(usize, &[u64], u64, &[usize], End); 9] = [
    (4_096, &[], 14, &[1], End::Fault(ReaderFault::TooLong)),
    (4_096, &[], 26, &[1, 1], End::Ended),
    (4_096, &[], 25, &[1], End::Fault(ReaderFault::TooLong)),
    (4_096, &[], 13, &[], End::Fault(ReaderFault::TooLong)),
    (4_096, &[], 1, &[], End::Fault(ReaderFault::TooLong)),
    (
        14,
        &[2],
        INPUT_BYTES,
        &[1],
        End::Fault(ReaderFault::ReadFault),
    ),
    (
        14,
        &[3],
        INPUT_BYTES,
        &[1],
        End::Fault(ReaderFault::ReadFault),
    ),
    (14, &[4], INPUT_BYTES, &[1, 1], End::Ended),
    (
        4_096,
        &[1],
        INPUT_BYTES,
        &[],
        End::Fault(ReaderFault::ReadFault),
    ),
];

#[test]
fn faults_come_in_their_places(rt: HostRuntime) -> Result<(), Fail> {
    for &(piece, fail, limit, sizes, end) in &FAULTS {
        assert!(rt; piece > 0 && limit >= 1 && limit <= INPUT_BYTES);
        let outcome = read_all(rt.alloc(), TWO_BATCHES, piece, fail, limit)?;
        assert_eq!(rt;
            outcome,
            outcome_of(sizes, end),
            "piece {piece}, limit {limit}"
        );
    }
    Ok(())
}

#[test]
fn a_call_that_fails_ends_a_batch(rt: HostRuntime) -> Result<(), Fail> {
    for call in 1..=67 {
        let want = if call <= 66 {
            outcome_of(&[], End::Fault(ReaderFault::ReadFault))
        } else {
            outcome_of(&[4], End::Ended)
        };
        let outcome = read_all(rt.alloc(), FOUR_EVENTS, 1, &[call], INPUT_BYTES)?;
        assert_eq!(rt; outcome, want, "at call {call}");
    }
    Ok(())
}

/// A timestamp that comes again after its batch, in 26 bytes.
const LATE: &[u8] = b"D 5 0 0 1 1\nP\nD 5 0 0 1 1\n";

#[test]
fn pieces_change_nothing(rt: HostRuntime) -> Result<(), Fail> {
    let want = outcome_of(&[1], End::Refused(3, Cause::Late));
    for piece in 1..=26 {
        let outcome = read_all(rt.alloc(), LATE, piece, &[], INPUT_BYTES)?;
        assert_eq!(rt; outcome, want, "in pieces of {piece}");
    }
    Ok(())
}

#[test]
fn a_front_is_an_input(rt: HostRuntime) -> Result<(), Fail> {
    for front in 0..=LATE.len() {
        let want = match front {
            0 => outcome_of(&[], End::Ended),
            1..=10 => outcome_of(&[], End::Refused(1, Cause::Form)),
            11..=14 => outcome_of(&[1], End::Ended),
            15..=24 => outcome_of(&[1], End::Refused(3, Cause::Form)),
            _ => outcome_of(&[1], End::Refused(3, Cause::Late)),
        };
        let outcome = read_all(rt.alloc(), &LATE[..front], 4_096, &[], INPUT_BYTES)?;
        assert_eq!(rt; outcome, want, "at a front of {front} bytes");
    }
    Ok(())
}

/// The operations of a transfer of `a` from account 1 to 2, which has to leave `floor` on account 1, and of 5 from
/// asset 3 to 4.
fn moved(version: Version, a: u64, floor: u64) -> [Op; 4] {
    let (src, dst) = (Key::of(ACCOUNTS, 1), Key::of(ACCOUNTS, 2));
    let (asrc, adst) = (Key::of(ASSETS, 3), Key::of(ASSETS, 4));
    let high = version.greatest();
    [
        Op::new(Func::Sub, src, &[], a).limited(floor, high),
        Op::new(Func::Sub, asrc, &[], 5).limited(0, high),
        Op::new(Func::MoveIn, dst, &[src], a).limited(floor, high),
        Op::new(Func::MoveIn, adst, &[asrc], 5).limited(0, high),
    ]
}

#[test]
fn words_give_the_operations_of_their_line(rt: HostRuntime) {
    let (one, two) = (Version::One, Version::Two);
    let deposited = [
        Op::new(Func::Add, Key::of(ACCOUNTS, 0), &[], 100),
        Op::new(Func::Add, Key::of(ASSETS, 7), &[], 5),
    ];
    let first = moved(one, 60, 0);
    let (second, floored) = (moved(two, 10_000_000_000_000, 0), moved(two, 60, 7));
    let rows: [(&[u8], Version, u64, &[Op]); 4] = [
        (b"D 1 0 7 100 5", one, 1, &deposited),
        (b"X 4 1 2 3 4 60 5", one, 4, &first),
        (b"X 4 1 2 3 4 10000000000000 5", two, 4, &second),
        (b"X 5 1 2 3 4 60 5 7", two, 5, &floored),
    ];
    for (line, version, ts, ops) in rows {
        let want = Some((ts, ops.len(), true));
        assert_eq!(rt;
            told(rt.alloc(), &Ledger, line, 10_000, version, ops),
            want,
            "at {line:?}"
        );
    }
}

#[test]
fn tables_have_their_names(rt: HostRuntime) {
    let names = (Ledger.table_name(ACCOUNTS), Ledger.table_name(ASSETS));
    assert_eq!(rt; (Ledger.tables(), names), (2, ("acct", "asset")));
}

/// An amount is paid to each account that is named, and all of that comes from one.
#[test]
fn a_payout_pays_each_account(rt: HostRuntime) {
    let account = |id| Key::of(ACCOUNTS, id);
    let high = Version::Two.greatest();
    let paid = |id| Op::new(Func::MoveIn, account(id), &[account(9)], 30).limited(0, high);
    let whole = Op::new(Func::Sub, account(9), &[], 90).limited(0, high);
    let ops = [whole, paid(1), paid(3), paid(2)];
    let line = b"M 2 9 30 1 3 2";
    assert_eq!(rt;
        told(rt.alloc(), &Ledger, line, 10_000, Version::Two, &ops),
        Some((2, 4, true))
    );
    let widest = b"M 1 0 666666666666 1 2 3 4 5 6 7 8 9 10 11 12 13 14 15";
    assert_eq!(rt;
        told(rt.alloc(), &Ledger, widest, 10_000, Version::Two, &[]),
        Some((1, 16, false))
    );
}

/// Lines, their version, and why they are refused.
static REFUSED: [(&[u8], Version, Cause); 18] = [
    (b"M 1 0 5 1", Version::One, Cause::Form),
    (b"M 1 0 5", Version::Two, Cause::Form),
    (
        b"M 1 0 5 1 2 3 4 5 6 7 8 9 10 11 12 13 14 15 16",
        Version::Two,
        Cause::Form,
    ),
    (b"M 1 0 5 1 1", Version::Two, Cause::Same),
    (b"M 1 1 5 2 1", Version::Two, Cause::Same),
    (b"M 1 0 5000000000000 1 2 3", Version::Two, Cause::Range),
    (b"M 1 0 5000000000000 1 1 2", Version::Two, Cause::Range),
    (b"M 1 0 10000000000001 1", Version::Two, Cause::Range),
    (b"M 1 0 5 10000", Version::Two, Cause::Range),
    (
        b"M 1 0 666666666667 1 2 3 4 5 6 7 8 9 10 11 12 13 14 15",
        Version::Two,
        Cause::Range,
    ),
    (b"D 1 0 0 10000000000000 0", Version::One, Cause::Range),
    (b"D 1 0 0 10000000000001 0", Version::Two, Cause::Range),
    (b"X 1 0 1 0 1 1 1 0", Version::One, Cause::Form),
    (
        b"X 1 0 1 0 1 1 1 10000000000001",
        Version::Two,
        Cause::Range,
    ),
    (b"X 1 0 1 0 1 1 1 x", Version::Two, Cause::Form),
    (b"X 1 0 1 0 1 1 1 0 0", Version::Two, Cause::Form),
    (b"D 1000000000001 0 0 1 1", Version::Two, Cause::Range),
    (b"X 1 0 0 0 1 1 1 1", Version::Two, Cause::Same),
];

/// A number above the greatest of its version, a number too many, and a timestamp, which has one range in both.
#[test]
fn a_line_is_read_by_its_version(rt: HostRuntime) {
    check_refused(&rt, rt.alloc(), &Ledger, 10_000, &REFUSED);
}

/// A seed, how many ids a table has, and the first line of the text.
static GENERATED: [(u64, u32, &[u8]); 4] = [
    (0, 10_000, b"X 1 6424 1937 5236 125 891 184"),
    (0, 2, b"X 1 0 1 0 1 891 184"),
    (0, 1, b"D 1 0 0 236 125"),
    (7, 2, b"X 1 1 0 1 0 219 864"),
];

#[test]
fn lines_are_generated_by_draws_in_order(rt: HostRuntime) {
    for &(seed, size, text) in &GENERATED {
        let mut line = LineBuf::new();
        assert!(rt; size >= 1 && size <= 1_000_000);
        Ledger.generate(&mut Draws::new(seed), 1, size, &mut line);
        assert_eq!(rt; line.bytes(), text, "seed {seed} and size {size}");
    }
}

/// The bytes of a source that has less than 7,000 of them, taken by at most seven.
fn bytes_of<S: Source>(alloc: Global, source: &mut S) -> Result<Vec<u8>, Fail> {
    let mut bytes = Vec::new(alloc);
    let mut piece = [0; 7];
    'reads: for _ in 0..1_000 {
        let count = source.read(&mut piece)?;
        bytes.extend_from_slice(&piece[..count])?;
    }
    Ok(bytes)
}

/// Whether a source gives these bytes and no more.
fn gives<S: Source>(alloc: Global, source: &mut S, text: &[u8]) -> Result<bool, Fail> {
    Ok(bytes_of(alloc, source)?.as_slice() == text)
}

#[test]
fn a_text_is_generated_line_by_line(rt: HostRuntime) -> Result<(), Fail> {
    let text =
        b"X 1 6424 1937 5236 125 891 184\nX 2 1264 8139 7503 6482 382 645\nD 3 5022 745 978 931\n";
    let mut source = GenSource::new(Ledger, 0, 3, 10_000);
    assert!(rt; gives(rt.alloc(), &mut source, text)?);
    let mut source = GenSource::new(Ledger, 0, 0, 10_000);
    assert!(rt; gives(rt.alloc(), &mut source, b"")?);
    Ok(())
}

#[test]
fn a_generated_text_is_read_in_batches_of_1000(rt: HostRuntime) -> Result<(), Fail> {
    let mut source = GenSource::new(Ledger, 0, 2_500, 10_000);
    let outcome = read_batches(rt.alloc(), Ledger, &mut source, 10_000, INPUT_BYTES)?;
    assert_eq!(rt; outcome, outcome_of(&[1_000, 1_000, 500], End::Ended));
    Ok(())
}
