//! With nothing read ahead the lines of a batch are written before the next batch is read.
use super::{LEDGER, sink_of, source_of, words_of};
use morph_cli::morph;
use morph_io::{ReadFailed, Sink, Source, WriteFailed};
use std::sync::atomic::{AtomicBool, AtomicU64, Ordering};
use std::test::Fail;
use worker_gate::FreeGate;

/// What the source and the sink of a run have seen of each other.
#[derive(Drop)]
struct Seen {
    /// The bytes that the sink has taken.
    written: AtomicU64,
    /// A batch was asked for, and the lines of those before were not all written.
    early: AtomicBool,
}

/// A source that gives one batch at each read.
#[derive(Drop)]
struct Batches<'a, S> {
    source: S,
    /// The reads so far.
    reads: u64,
    /// The bytes of the lines of each batch.
    line: u64,
    seen: &'a Seen,
}

impl<S: Source> Source for Batches<'_, S> {
    ghost left = { λ batches. S.left batches.source };

    ghost faults = { λ batches. S.faults batches.source };

    ghost reads = { λ old asked answer new. S.reads old.source asked answer new.source };

    fn read(&mut self, buf: &mut [u8]) -> Result<usize, ReadFailed> {
        let due = self.reads.saturating_mul(self.line);
        if self.seen.written.load(Ordering::SeqCst) < due {
            self.seen.early.store(true, Ordering::SeqCst);
        }
        self.reads = self.reads.saturating_add(1);
        self.source.read(buf)
    }
}

/// A sink that counts the bytes that it takes.
#[derive(Drop)]
struct Counted<'a, K> {
    sink: K,
    seen: &'a Seen,
}

impl<K: Sink> Sink for Counted<'_, K> {
    ghost written = { λ counted. K.written counted.sink };

    ghost faults = { λ counted. K.faults counted.sink };

    ghost writes = { λ old piece answer new. K.writes old.sink piece answer new.sink };

    fn write(&mut self, piece: &[u8]) -> Result<usize, WriteFailed> {
        let taken = self.sink.write(piece);
        if let Ok(count) = taken {
            self.seen.written.fetch_add(count as u64, Ordering::SeqCst);
        }
        taken
    }
}

/// Three batches of 14 bytes, each of a deposit whose line has 8.
const BATCHES: &[u8] = b"D 1 0 0 1 1\nP\nD 2 0 0 1 1\nP\nD 3 0 0 1 1\nP\n";

#[test]
fn a_batch_is_written_before_the_next_is_read(rt: HostRuntime) -> Result<(), Fail> {
    let alloc = rt.alloc();
    let seen = Seen {
        written: AtomicU64::new(0),
        early: AtomicBool::new(false),
    };
    let mut source = Batches {
        source: source_of(alloc, BATCHES, 14, &[])?,
        reads: 0,
        line: 8,
        seen: &seen,
    };
    let mut sink = Counted {
        sink: sink_of(alloc, 1000, &[], &[])?,
        seen: &seen,
    };
    let mut notes = sink_of(alloc, 1000, &[], &[])?;
    let words = words_of(alloc, LEDGER)?;
    let ended = morph(
        &rt,
        alloc,
        words.as_slice(),
        &mut source,
        &mut sink,
        &mut notes,
        &FreeGate,
    );
    let early = seen.early.load(Ordering::SeqCst);
    assert_eq!(rt; (ended.status, source.reads, early), (0, 4, false));
    Ok(())
}
