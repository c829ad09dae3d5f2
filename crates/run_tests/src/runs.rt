//! Runs of the program over memory: what stands in the sink and in the notes, and the status.
mod ahead;
mod apps;
mod faults;
mod holding;
mod inputs;
pub mod lines;
mod meeting;
mod notes;
mod order;
mod places;
mod tallies;
mod units;

use morph_base::{List, OutOfMemory};
use morph_cli::{Ended, morph};
use morph_io::{MemSink, MemSource, Sink, Source};
use run_text::Tally;
use std::alloc::Global;
use std::process::Abort;
use std::sync::Wait;
use std::test::Fail;
use std::thread::Threads;
use worker_gate::{FreeGate, Gate};

/// The words that ask for the ledger.
const LEDGER: &[&[u8]] = &[b"app=ledger"];

/// A deposit and three transfers: the first asks for too much of an asset, and the second was tried on what the first
/// left.
const FOUR_EVENTS: &[u8] = b"D 1 0 0 100 5\nX 2 0 1 0 1 60 6\nX 3 0 1 0 1 60 5\nX 4 1 2 1 2 60 5\n";

/// Their text.
const FOUR: &[u8] =
    b"1 C 100 5\n2 A\n3 C 40 0 60 5\n4 C 0 0 60 5\nacct 0 40\nacct 2 60\nasset 2 5\ncommitted 3 aborted 1\n";

/// The four events, and a batch of one event behind them.
const TWO_BATCHES: &[u8] =
    b"D 1 0 0 100 5\nX 2 0 1 0 1 60 6\nX 3 0 1 0 1 60 5\nX 4 1 2 1 2 60 5\nP\nD 9 0 0 1 1\n";

/// Their text.
const TWO: &[u8] =
    b"1 C 100 5\n2 A\n3 C 40 0 60 5\n4 C 0 0 60 5\n9 C 41 1\nacct 0 41\nacct 2 60\nasset 0 1\nasset 2 5\ncommitted 4 aborted 1\n";

const NOTHING: &[u8] = b"";

/// What a run left.
#[derive(Drop)]
struct Ran {
    status: u8,
    tally: Tally,
    sink: MemSink,
    notes: MemSink,
}

/// A list of lists.
fn words_of(alloc: Global, words: &[&[u8]]) -> Result<List<List<u8>>, OutOfMemory> {
    let mut list = List::new(alloc);
    for word in words {
        list.push(List::from_slice(alloc, word)?)?;
    }
    Ok(list)
}

/// A source of these bytes in pieces of at most `piece`, at least 1, whose calls of the given numbers fail.
fn source_of(
    alloc: Global,
    input: &[u8],
    piece: usize,
    fail: &[u64],
) -> Result<MemSource, OutOfMemory> {
    let input = List::from_slice(alloc, input)?;
    let fail = List::from_slice(alloc, fail)?;
    Ok(MemSource::new(input, piece.max(1), fail))
}

/// A sink that takes at most `piece` bytes a call, at least 1, and whose calls of the given numbers fail or stall.
fn sink_of(
    alloc: Global,
    piece: usize,
    fail: &[u64],
    stall: &[u64],
) -> Result<MemSink, OutOfMemory> {
    let fail = List::from_slice(alloc, fail)?;
    let stall = List::from_slice(alloc, stall)?;
    MemSink::new(alloc, 1_500_000, piece.max(1), fail, stall)
}

/// Runs the program.
fn ended<R: Threads + Wait + Sync, S: Source + Send, K: Sink, N: Sink>(
    rt: &R,
    alloc: Global,
    words: &[List<u8>],
    source: &mut S,
    sink: &mut K,
    notes: &mut N,
) -> Ended {
    morph(rt, alloc, words, source, sink, notes, &FreeGate)
}

/// Runs the program with these words, sink and notes, and returns what it left.
fn run_noted<R: Threads + Wait + Sync>(
    rt: &R,
    alloc: Global,
    words: &[&[u8]],
    source: &mut MemSource,
    mut sink: MemSink,
    mut notes: MemSink,
) -> Result<Ran, OutOfMemory> {
    let words = words_of(alloc, words)?;
    let ended = ended(rt, alloc, words.as_slice(), source, &mut sink, &mut notes);
    Ok(Ran {
        status: ended.status,
        tally: ended.tally,
        sink,
        notes,
    })
}

/// Runs the program with these words and this sink, and with notes that take all.
fn run_with<R: Threads + Wait + Sync>(
    rt: &R,
    alloc: Global,
    words: &[&[u8]],
    source: &mut MemSource,
    sink: MemSink,
) -> Result<Ran, OutOfMemory> {
    let notes = sink_of(alloc, 1000, &[], &[])?;
    run_noted(rt, alloc, words, source, sink, notes)
}

/// Runs the program with these words on an input that comes in pieces of a thousand bytes.
fn run_words<R: Threads + Wait + Sync>(
    rt: &R,
    alloc: Global,
    words: &[&[u8]],
    input: &[u8],
) -> Result<Ran, OutOfMemory> {
    let mut source = source_of(alloc, input, 1000, &[])?;
    run_with(
        rt,
        alloc,
        words,
        &mut source,
        sink_of(alloc, 100_000, &[], &[])?,
    )
}

/// Runs the program with these words on an input, under a gate.
fn run_gated<R: Threads + Wait + Sync, G: Gate>(
    rt: &R,
    alloc: Global,
    words: &[&[u8]],
    input: &[u8],
    gate: &G,
) -> Result<Ran, OutOfMemory> {
    let words = words_of(alloc, words)?;
    let mut source = source_of(alloc, input, 1000, &[])?;
    let mut sink = sink_of(alloc, 100_000, &[], &[])?;
    let mut notes = sink_of(alloc, 1000, &[], &[])?;
    let ended = morph(
        rt,
        alloc,
        words.as_slice(),
        &mut source,
        &mut sink,
        &mut notes,
        gate,
    );
    Ok(Ran {
        status: ended.status,
        tally: ended.tally,
        sink,
        notes,
    })
}

/// Runs the program with these words over each input, and expects this status and text, and no notes.
fn expect(
    rt: &(impl Threads + Wait + Sync + Abort + Alloc<A = Global>),
    words: &[&[u8]],
    runs: &[(&[u8], u8, &[u8])],
) -> Result<(), Fail> {
    for (input, status, text) in runs {
        let ran = run_words(rt, rt.alloc(), words, input)?;
        let wanted: (u8, &[u8], &[u8]) = (*status, text, NOTHING);
        assert_eq!(rt; (ran.status, ran.sink.bytes(), ran.notes.bytes()), wanted);
    }
    Ok(())
}
