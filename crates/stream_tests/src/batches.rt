ghost use Rattle.std.specs.Prelude.{◌<◌, ◌≤◌};
ghost use Rattle.event_reader.specs.Limits.{input_bytes};

use crate::counter::Counter;
use crate::readings::{End, Outcome, outcome_of, read_batches, source_of};
use event_reader::{
    BatchReader, Cause, GenSource, INPUT_BYTES, LineNext, Lines, Next, ReaderFault, Version,
};
use morph_base::{Batch, List, OutOfMemory};
use morph_io::MemSource;
use std::alloc::{AllocError, Global};
use std::test::Fail;

/// Reads all batches of a text that comes in pieces. The table has `size` ids.
fn read_text(
    alloc: Global,
    text: &[u8],
    piece: usize,
    size: u32,
    limit: u64,
) -> Result<Outcome, OutOfMemory>
    requires piece { 0 < piece }
    requires some { 1 ≤ limit }
    requires limit { limit ≤ input_bytes }
{
    let mut source = source_of(alloc, text, piece, &[])?;
    read_batches(alloc, Counter, &mut source, size, limit)
}

/// Texts, the sizes of their batches, and how their reading ends.
static TEXTS: [(&[u8], &[usize], End); 20] = [
    (b"morph 2\n1\nP\n2\n", &[1, 1], End::Ended),
    (b"morph 2\r\n1\n", &[1], End::Ended),
    (b"morph 2", &[], End::Ended),
    (b"morph 2\n0\n", &[], End::Refused(2, Cause::Range)),
    (b"#\nmorph 2\n", &[], End::Refused(2, Cause::Same)),
    (b"morph 2 \n", &[], End::Refused(1, Cause::Form)),
    (b"", &[], End::Ended),
    (b"1\nP\nP\n3\n2", &[1, 2], End::Ended),
    (b"#x\r\n\r\n1\r\nP\r\n2\r", &[1, 1], End::Ended),
    (b"1\n+\n", &[], End::Refused(2, Cause::Form)),
    (b"1\nP\n02\n", &[1], End::Refused(3, Cause::Form)),
    (b" 1\n", &[], End::Refused(1, Cause::Form)),
    (b"0\n", &[], End::Refused(1, Cause::Range)),
    (b"1000000000001\n", &[], End::Refused(1, Cause::Range)),
    (b"1 1\n", &[], End::Refused(1, Cause::Same)),
    (b"5\nP\n5\n", &[1], End::Refused(3, Cause::Late)),
    (b"9\n5\nP\n7\n", &[2], End::Refused(4, Cause::Late)),
    (b"7\n7\n", &[], End::Refused(2, Cause::Twice)),
    (b"9\n7\n7\n7 7\n", &[], End::Refused(3, Cause::Twice)),
    (b"5\nP\n6\n5\n6\n", &[1], End::Refused(4, Cause::Late)),
];

#[test]
fn batches_and_refusals_come_in_pieces_of_every_size(rt: HostRuntime) -> Result<(), Fail> {
    for &(text, sizes, end) in &TEXTS {
        let want = outcome_of(sizes, end);
        for piece in 1..=20 {
            let outcome = read_text(rt.alloc(), text, piece, 1, INPUT_BYTES)?;
            assert_eq!(rt; outcome, want, "{text:?} by {piece}");
        }
    }
    Ok(())
}

/// Texts of one batch, their version, and the greatest value of its events.
static VERSIONS: [(&[u8], Version, u64); 3] = [
    (b"1\nP\n", Version::One, 1_000_000_000_000),
    (b"morph 2\n1\nP\n", Version::Two, 10_000_000_000_000),
    (b"#morph 2\n1\nP\n", Version::One, 1_000_000_000_000),
];

/// The version that a reader of a text shows before its first batch and after it, and whether all operations of that
/// batch have this greatest value; nothing if there is no batch.
fn first_version(
    alloc: Global,
    text: &[u8],
    high: u64,
) -> Result<Option<(Version, Version, bool)>, OutOfMemory> {
    let mut source = source_of(alloc, text, 3, &[])?;
    let mut reader = BatchReader::new(alloc, Counter, 1, INPUT_BYTES)?;
    let before = reader.version();
    let Ok(Next::Batch(batch)) = reader.next_batch(alloc, &mut source) else {
        return Ok(None);
    };
    Ok(Some((before, reader.version(), are_limited_by(&batch, high))))
}

/// Whether all operations of a batch have this greatest value.
fn are_limited_by(batch: &Batch, high: u64) -> bool {
    for i in 0..batch.len() {
        let event = batch.event(i);
        for o in 0..event.ops.len() {
            if event.ops.get(o).high != high {
                return false;
            }
        }
    }
    true
}

/// The version is known once the first line was read, and the events have its greatest value.
#[test]
fn the_first_line_tells_the_version(rt: HostRuntime) -> Result<(), Fail> {
    for &(text, version, high) in &VERSIONS {
        let got = first_version(rt.alloc(), text, high)?;
        assert_eq!(rt; got, Some((Version::One, version, true)), "at {text:?}");
    }
    Ok(())
}

#[test]
fn a_table_without_ids_refuses_each_event(rt: HostRuntime) -> Result<(), Fail> {
    let outcome = read_text(rt.alloc(), b"P\n1\n", 4_096, 0, INPUT_BYTES)?;
    assert_eq!(rt; outcome, outcome_of(&[], End::Refused(2, Cause::Range)));
    Ok(())
}

/// How many bytes an input may have, the sizes of the batches of one of eight bytes, and how its reading ends.
static LIMITS: [(u64, &[usize], End); 7] = [
    (9, &[1, 1], End::Ended),
    (8, &[1, 1], End::Ended),
    (7, &[1], End::Fault(ReaderFault::TooLong)),
    (6, &[1], End::Fault(ReaderFault::TooLong)),
    (4, &[1], End::Fault(ReaderFault::TooLong)),
    (3, &[], End::Fault(ReaderFault::TooLong)),
    (1, &[], End::Fault(ReaderFault::TooLong)),
];

#[test]
fn a_limit_is_reached_exactly_or_passed(rt: HostRuntime) -> Result<(), Fail> {
    for &(limit, sizes, end) in &LIMITS {
        assert!(rt; limit >= 1 && limit <= INPUT_BYTES);
        let want = outcome_of(sizes, end);
        for piece in [1, 4, 4_096] {
            let outcome = read_text(rt.alloc(), b"1\nP\n2\nP\n", piece, 1, limit)?;
            assert_eq!(rt; outcome, want, "limit {limit} by {piece}");
        }
    }
    Ok(())
}

/// The bytes of a line, how many an input may have, and the outcome.
static LONG_LINES: [(usize, u64, Result<LineNext, ReaderFault>); 5] = [
    (1_300, 1_002, Ok(LineNext::Long)),
    (1_300, 1_001, Err(ReaderFault::TooLong)),
    (1_001, 1_001, Ok(LineNext::Long)),
    (1_000, 1_000, Ok(LineNext::Line)),
    (1_000, 999, Err(ReaderFault::TooLong)),
];

#[test]
fn a_line_is_long_before_the_limit_is_passed(rt: HostRuntime) -> Result<(), Fail> {
    let alloc = rt.alloc();
    for &(count, limit, answer) in &LONG_LINES {
        assert!(rt; limit >= 1 && limit <= INPUT_BYTES);
        let mut source = MemSource::new(List::filled(alloc, count, b'x')?, 4_096, List::new(alloc));
        let mut lines = Lines::new(alloc, limit)?;
        assert_eq!(rt;
            lines.next_line(&mut source),
            answer,
            "{count} bytes, limit {limit}"
        );
    }
    Ok(())
}

/// Events at the times from 1 to `count`.
fn events(alloc: Global, count: u64) -> Result<String, AllocError> {
    let mut text = String::new(alloc);
    'lines: for ts in 1..=count {
        text.push_str(format!(in alloc; "{ts}\n")?.as_str())?;
    }
    Ok(text)
}

#[test]
fn a_batch_has_at_most_as_many_events_as_there_may_be(rt: HostRuntime) -> Result<(), Fail> {
    let rows: [(u64, &[usize], End); 2] = [
        (10_240, &[10_240], End::Ended),
        (10_241, &[], End::Refused(10_241, Cause::Full)),
    ];
    for (count, sizes, end) in rows {
        let text = events(rt.alloc(), count)?;
        let outcome = read_text(rt.alloc(), text.as_bytes(), 4_096, 1, INPUT_BYTES)?;
        assert_eq!(rt; outcome, outcome_of(sizes, end), "{count} events");
    }
    Ok(())
}

#[test]
fn a_generated_text_has_all_its_events(rt: HostRuntime) -> Result<(), Fail> {
    let mut source = GenSource::new(Counter, 7, 2_500, 1);
    let outcome = read_batches(rt.alloc(), Counter, &mut source, 1, INPUT_BYTES)?;
    assert_eq!(rt; outcome, outcome_of(&[1_000, 1_000, 500], End::Ended));
    Ok(())
}
