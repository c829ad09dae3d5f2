//! Refused words, and failing reads and writes.
use super::{LEDGER, NOTHING, Ran, run_with, sink_of, source_of};
use morph_base::OutOfMemory;
use morph_io::Source;
use std::alloc::Global;
use std::process::Abort;
use std::sync::Wait;
use std::test::Fail;
use std::thread::Threads;

/// What stands in the notes if the words are no settings.
const USAGE: &[u8] = b"usage: morph app=ledger|grep|toll [name=value ...]\n";

/// Runs the program with these words on one line, and returns what it left and how many bytes of the line.
fn run_unread<R: Threads + Wait + Sync>(
    rt: &R,
    alloc: Global,
    words: &[&[u8]],
) -> Result<(Ran, usize), OutOfMemory> {
    let mut source = source_of(alloc, b"P\n", 50, &[])?;
    let ran = run_with(rt, alloc, words, &mut source, sink_of(alloc, 50, &[], &[])?)?;
    let mut rest = [0; 4];
    let left = source.read(&mut rest).unwrap_or(0);
    Ok((ran, left))
}

/// Runs the program with each of these words, and expects that nothing but the usage is written, and nothing read.
fn expect_usage(
    rt: &(impl Threads + Wait + Sync + Abort + Alloc<A = Global>),
    refused: &[&[&[u8]]],
) -> Result<(), Fail> {
    for words in refused {
        let (ran, left) = run_unread(rt, rt.alloc(), words)?;
        let wanted = (2, NOTHING, USAGE, 2);
        assert_eq!(rt;
            (ran.status, ran.sink.bytes(), ran.notes.bytes(), left),
            wanted
        );
    }
    Ok(())
}

/// Words that are no settings.
static REFUSED: [&[&[u8]]; 40] = [
    &[],
    &[b"app=", b"size=1"],
    &[b"app=ledger", b"colour=1"],
    &[b"app=ledger", b"workers"],
    &[b"app=ledger", b"workers=0"],
    &[b"app=ledger", b"workers=17"],
    &[b"app=ledger", b"size=0"],
    &[b"app=ledger", b"size=1000001"],
    &[b"app=ledger", b"size=07"],
    &[b"app=ledger", b"app=ledger"],
    &[b"app=ledger", b"self=ledger"],
    &[b"app=ledger", b"seed=1"],
    &[b"app=ledger", b"events=1"],
    &[b"self=ledger", b"events=1000001"],
    &[b"self=ledger", b"seed=1000000000001"],
    &[b"workers=2", b"size=5"],
    &[b"app=ledger", b"workers=2", b"workers=2"],
    &[b"app=ledger", b"unit=chain", b"unit=op"],
    &[b"app=ledger", b"unit=chains"],
    &[b"app=ledger", b"explore=nothing"],
    &[b"app=ledger", b"explore=steal", b"explore=strata"],
    &[b"app=ledger", b"explore=steal", b"explore=steal"],
    &[b"app=ledger", b"abort=late"],
    &[b"app=ledger", b"plan=chosen"],
    &[b"app=ledger", b"plan=auto", b"unit=op"],
    &[b"app=ledger", b"plan=auto", b"explore=strata"],
    &[b"app=ledger", b"abort=eager", b"plan=auto"],
    &[b"app=ledger", b"ahead=3"],
    &[b"app=ledger", b"ahead=1", b"ahead=1"],
    &[b"app=ledger", b"watch=yes"],
    &[b"app=ledger", b"watch=off", b"watch=off"],
    &[b"app=ledger", b"watch=on", b"ahead=1"],
    &[b"app=ledger", b"ahead=2", b"watch=on"],
    &[b"app=ledger", b"check=yes"],
    &[b"app=ledger", b"check=off", b"check=off"],
    &[b"app=ledger", b"check=on", b"watch=on"],
    &[b"app=ledger", b"ahead=1", b"check=text"],
    &[b"app=ledger", b"check=on", b"workers=2"],
    &[b"app=ledger", b"abort=eager", b"check=on"],
    &[b"app=ledger", b"check=text", b"plan=auto"],
];

#[test]
fn words_that_are_no_settings(rt: HostRuntime) -> Result<(), Fail> {
    expect_usage(&rt, &REFUSED)
}

/// Which calls of the source and of the sink fail, and how many bytes each takes at most.
#[derive(Clone, Copy)]
struct Faults {
    piece: usize,
    reads: &'static [u64],
    taken: usize,
    writes: &'static [u64],
    stalls: &'static [u64],
}

/// Runs the ledger on an input with these faults, with this many batches ahead.
fn run_failing<R: Threads + Wait + Sync>(
    rt: &R,
    alloc: Global,
    ahead: &[u8],
    input: &[u8],
    faults: &Faults,
) -> Result<Ran, OutOfMemory> {
    let mut source = source_of(alloc, input, faults.piece, faults.reads)?;
    let sink = sink_of(alloc, faults.taken, faults.writes, faults.stalls)?;
    let words = [b"app=ledger".as_slice(), ahead];
    run_with(rt, alloc, &words, &mut source, sink)
}

/// An input, the faults, and the status, the text and the notes of a run with them.
static FAULTS: [(&[u8], Faults, (u8, &[u8], &[u8])); 3] = [
    (
        b"D 1 0 0 1 1\nP\nD 2 0 0 1 1\n",
        Faults {
            piece: 14,
            reads: &[2],
            taken: 50,
            writes: &[],
            stalls: &[],
        },
        (4, b"1 C 1 1\n", b"morph: read failed\n"),
    ),
    (
        b"D 1 0 0 100 5\n",
        Faults {
            piece: 50,
            reads: &[],
            taken: 3,
            writes: &[2],
            stalls: &[],
        },
        (5, b"1 C", b"morph: write failed\n"),
    ),
    (
        b"D 1 0 0 100 5\n",
        Faults {
            piece: 50,
            reads: &[],
            taken: 3,
            writes: &[],
            stalls: &[2],
        },
        (5, b"1 C", b"morph: write failed\n"),
    ),
];

#[test]
fn a_read_or_a_write_fails(rt: HostRuntime) -> Result<(), Fail> {
    for (input, faults, left) in &FAULTS {
        for ahead in [b"ahead=0", b"ahead=2"] {
            let ran = run_failing(&rt, rt.alloc(), ahead, input, faults)?;
            assert_eq!(rt; (ran.status, ran.sink.bytes(), ran.notes.bytes()), *left);
        }
    }
    Ok(())
}
