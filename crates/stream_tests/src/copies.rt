ghost use Rattle.std.specs.Prelude.{◌≡◌, ◌<◌, ◌≤◌, IfSome};
ghost use Rattle.morph_io.specs.Told.{behind, HasRisen, AppendsPrefix};

use crate::readings::source_of;
use morph_base::{List, OutOfMemory};
use morph_io::{
    LineBuf, MemSink, Out, ReadFailed, RepeatSource, Sink, Source, WriteFailed, write_all,
};
use std::alloc::Global;
use std::process::Abort;
use std::test::Fail;

/// How a copy ended.
#[derive(Clone, Copy, Debug, PartialEq, Eq)]
enum Copied {
    Whole,
    Part,
    ReadFailed,
    WriteFailed,
}

/// Copies what a source has left to a sink, in at most `reads` reads: generic code over the two traits, which can name
/// the bytes that it moved.
fn copy<S: Source, K: Sink>(source: &mut S, sink: &mut K, reads: u32) -> Copied
    ensures whole { result ≡ Copied.Whole
        → IfSome (S.left source.old)
        (λ bytes. K.written sink.new ≡ behind (K.written sink.old) bytes) }
    ensures prefix { IfSome (S.left source.old)
        (λ bytes. AppendsPrefix (K.written sink.old) bytes (K.written sink.new)) }
    ensures read_failed { result ≡ Copied.ReadFailed
        → HasRisen (S.faults source.old) (S.faults source.new) }
    ensures write_failed { result ≡ Copied.WriteFailed
        → HasRisen (K.faults sink.old) (K.faults sink.new) }
{
    let mut buf = [0; 16];
    'reads: for _ in 0..reads {
        let count = match source.read(&mut buf) {
            Ok(0) => return Copied::Whole,
            Ok(count) => count,
            Err(ReadFailed) => return Copied::ReadFailed,
        };
        if let Err(WriteFailed) = write_all(sink, &buf[..count]) {
            return Copied::WriteFailed;
        }
    }
    Copied::Part
}

/// Three lines of 22 bytes in all.
const TEXT: &[u8] = b"1 C 1 1\n2 A\nB 1 2 1 1\n";

/// A sink of `room` bytes that takes at most `piece` a call, and whose calls of the given numbers fail or stall.
fn sink_of(
    alloc: Global,
    room: usize,
    piece: usize,
    fail: &[u64],
    stall: &[u64],
) -> Result<MemSink, OutOfMemory>
    requires { 0 < piece }
{
    let fail = List::from_slice(alloc, fail)?;
    MemSink::new(alloc, room, piece, fail, List::from_slice(alloc, stall)?)
}

/// Copies this text from a source that gives at most `given` bytes a call to a sink that takes at most `taken`.
fn copy_pieces(alloc: Global, given: usize, taken: usize) -> Result<(Copied, bool), OutOfMemory>
    requires given { 0 < given }
    requires taken { 0 < taken }
{
    let mut source = source_of(alloc, TEXT, given, &[])?;
    copy_text(alloc, &mut source, taken, TEXT)
}

/// Copies a source to a sink that takes at most `taken` bytes a call, and returns how that ended, and whether the sink
/// has this text then.
fn copy_text<S: Source>(
    alloc: Global,
    source: &mut S,
    taken: usize,
    text: &[u8],
) -> Result<(Copied, bool), OutOfMemory>
    requires { 0 < taken }
{
    let mut sink = sink_of(alloc, 50, taken, &[], &[])?;
    let copied = copy(source, &mut sink, 100);
    Ok((copied, sink.bytes() == text))
}

#[test]
fn a_source_is_copied_to_a_sink(rt: HostRuntime) -> Result<(), Fail> {
    for (given, taken) in [(1, 1), (3, 50), (50, 3), (50, 50)] {
        assert!(rt; given > 0 && taken > 0);
        let got = copy_pieces(rt.alloc(), given, taken)?;
        assert_eq!(rt;
            got,
            (Copied::Whole, true),
            "in pieces of {given} and {taken}"
        );
    }
    Ok(())
}

/// The outcome of one read for `room` bytes, at most five. The bytes are at the front of `buf`.
fn read_some<S: Source>(source: &mut S, buf: &mut [u8; 5], room: usize) -> Option<usize> {
    let room = room.clamp(1, 5);
    source.read(&mut buf[..room]).ok()
}

/// How many bytes are asked for, and what is read of `abcdefgh` in pieces of three, if the second and the fourth call
/// fail.
static READS: [(usize, Option<&[u8]>); 7] = [
    (5, Some(b"abc")),
    (5, None),
    (2, Some(b"de")),
    (5, None),
    (5, Some(b"fgh")),
    (5, Some(b"")),
    (5, Some(b"")),
];

#[test]
fn a_source_is_cut_in_pieces_and_fails_at_its_calls(rt: HostRuntime) -> Result<(), Fail> {
    let mut source = source_of(rt.alloc(), b"abcdefgh", 3, &[2, 4])?;
    let mut buf = [b'.'; 5];
    for &(room, given) in &READS {
        let count = read_some(&mut source, &mut buf, room);
        let got = count.map(|count| &buf[..count.min(5)]);
        assert_eq!(rt; got, given);
    }
    Ok(())
}

/// A line, how many of its bytes a source repeats it for, and what that source has.
static REPEATED: [(&[u8], u64, &[u8]); 4] = [
    (
        b"# a comment\n",
        3,
        b"# a comment\n# a comment\n# a comment\n",
    ),
    (b"P", 5, b"PPPPP"),
    (b"P", 0, b""),
    (b"", 5, b""),
];

#[test]
fn a_line_is_repeated_to_its_end(rt: HostRuntime) -> Result<(), Fail> {
    for &(line, times, bytes) in &REPEATED {
        let mut source = RepeatSource::new(List::from_slice(rt.alloc(), line)?, times);
        let got = copy_text(rt.alloc(), &mut source, 50, bytes)?;
        assert_eq!(rt; got, (Copied::Whole, true), "{line:?} {times} times");
    }
    Ok(())
}

/// One write of some bytes, or nothing if there are none.
fn write_some<K: Sink>(sink: &mut K, piece: &[u8]) -> Result<usize, WriteFailed> {
    if piece.is_empty() {
        return Ok(0);
    }
    sink.write(piece)
}

/// Pieces that are written to a sink of ten bytes, and the answers, if a call takes four bytes, the second fails and
/// the third stalls.
static WRITES: [(&[u8], Result<usize, WriteFailed>); 8] = [
    (b"abcdef", Ok(4)),
    (b"gh", Err(WriteFailed)),
    (b"gh", Err(WriteFailed)),
    (b"gh", Ok(2)),
    (b"ij", Ok(2)),
    (b"klmn", Ok(2)),
    (b"mn", Err(WriteFailed)),
    (b"mn", Err(WriteFailed)),
];

#[test]
fn a_sink_has_room_pieces_failures_and_stalls(rt: HostRuntime) -> Result<(), Fail> {
    let mut sink = sink_of(rt.alloc(), 10, 4, &[2], &[3])?;
    for &(piece, answer) in &WRITES {
        assert_eq!(rt; write_some(&mut sink, piece), answer, "of {piece:?}");
    }
    assert_eq!(rt; sink.bytes(), b"abcdghijkl".as_slice());
    Ok(())
}

/// The three lines of [`TEXT`], which are put one by one.
static PARTS: [&[u8]; 3] = [b"1 C 1 1\n", b"2 A\n", b"B 1 2 1 1\n"];

/// A line of at most 400 bytes.
fn line_of(bytes: &[u8]) -> LineBuf {
    let mut line = LineBuf::new();
    line.word(&bytes[..bytes.len().min(400)]);
    line
}

/// Puts the parts of the text and flushes, and returns whether all went well.
fn put_lines<K: Sink>(alloc: Global, sink: &mut K) -> Result<Result<(), WriteFailed>, OutOfMemory> {
    let mut out = Out::new(alloc)?;
    for part in &PARTS {
        if let Err(failed) = out.put(sink, &line_of(part)) {
            return Ok(Err(failed));
        }
    }
    Ok(out.flush(sink))
}

/// Puts the parts into a sink of one byte a call, whose calls of the given numbers fail or stall. Returns the outcome,
/// and whether the sink then has the first `count` bytes of the text.
fn put_by_bytes(
    alloc: Global,
    fail: &[u64],
    stall: &[u64],
    count: usize,
) -> Result<(Result<(), WriteFailed>, bool), OutOfMemory> {
    let mut sink = sink_of(alloc, 22, 1, fail, stall)?;
    let put = put_lines(alloc, &mut sink)?;
    Ok((put, sink.bytes() == &TEXT[..count.min(TEXT.len())]))
}

#[test]
fn a_buffer_writes_through_a_sink_of_one_byte_a_call(rt: HostRuntime) -> Result<(), Fail> {
    assert_eq!(rt; put_by_bytes(rt.alloc(), &[], &[], 22)?, (Ok(()), true));
    Ok(())
}

#[test]
fn a_buffer_over_a_sink_that_fails_at_each_call_in_turn(rt: HostRuntime) -> Result<(), Fail> {
    for k in 1..23u64 {
        let written = (k - 1) as usize;
        let failed = put_by_bytes(rt.alloc(), &[k], &[], written)?;
        let stalled = put_by_bytes(rt.alloc(), &[], &[k], written)?;
        let want = (Err(WriteFailed), true);
        assert_eq!(rt; (failed, stalled), (want, want), "at call {k}");
    }
    Ok(())
}

/// Puts a line, and returns whether that went well, and how many bytes the sink has then.
fn put(out: &mut Out, sink: &mut MemSink, line: &LineBuf) -> (bool, usize) {
    let put = out.put(sink, line);
    (put.is_ok(), sink.bytes().len())
}

/// Flushes, and returns whether that went well, and how many bytes the sink has then.
fn flush(out: &mut Out, sink: &mut MemSink) -> (bool, usize) {
    let flushed = out.flush(sink);
    (flushed.is_ok(), sink.bytes().len())
}

/// Whether bytes are lines of 400 bytes, which are `x` up to the LF.
fn are_lines(bytes: &[u8]) -> bool {
    bytes.iter().enumerate().all(|(place, byte)| *byte
        == if place % 400 == 399 { b'\n' } else { b'x' })
}

/// Puts 21 lines of 400 bytes, and expects that all that is kept is written when the buffer is full, and nothing
/// before.
fn put_full(rt: &impl Abort, out: &mut Out, sink: &mut MemSink) {
    let mut bytes = [b'x'; 400];
    bytes[399] = b'\n';
    let line = line_of(&bytes);
    for puts in 1..22usize {
        let written = if puts * 400 < 8_192 { 0 } else { 8_192 };
        assert_eq!(rt;
            put(out, sink, &line),
            (true, written),
            "after {puts} lines"
        );
    }
}

#[test]
fn a_buffer_is_written_when_it_is_full(rt: HostRuntime) -> Result<(), Fail> {
    let mut sink = sink_of(rt.alloc(), 10_000, 10_000, &[], &[])?;
    let mut out = Out::new(rt.alloc())?;
    put_full(&rt, &mut out, &mut sink);
    let flushed = flush(&mut out, &mut sink);
    assert_eq!(rt; (flushed, are_lines(sink.bytes())), ((true, 8_400), true));
    Ok(())
}

/// Numbers, and their lines.
static NUMBERS: [(u64, &[u8]); 5] = [
    (0, b"n=0"),
    (9, b"n=9"),
    (10, b"n=10"),
    (1_000_000_000_000, b"n=1000000000000"),
    (u64::MAX, b"n=18446744073709551615"),
];

#[test]
fn a_number_is_written_in_decimal_digits(rt: HostRuntime) {
    for &(n, bytes) in &NUMBERS {
        let mut line = LineBuf::default();
        let new = line.is_empty();
        line.word(b"n=");
        line.number(n);
        let got = (new, line.bytes(), line.len());
        assert_eq!(rt; got, (true, bytes, bytes.len()));
        line.clear();
        assert!(rt; line.is_empty());
    }
}
