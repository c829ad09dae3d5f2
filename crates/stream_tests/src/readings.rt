//! All batches that a source gives to an application.
ghost use Rattle.std.specs.Prelude.{◌<◌, ◌≤◌};
ghost use Rattle.event_reader.specs.Limits.{input_bytes};

use event_reader::{BatchReader, Cause, EventApp, Next, ReaderFault};
use morph_base::{List, OutOfMemory};
use morph_io::{MemSource, Source};
use std::alloc::Global;

/// How a reading ended.
#[derive(Clone, Copy, Debug, PartialEq, Eq)]
pub(crate) enum End {
    Ended,
    Refused(u64, Cause),
    Fault(ReaderFault),
    Unfinished,
}

/// How many batches were given, the number of events of each of the first three, and how the reading ended.
#[derive(Clone, Copy, Debug, PartialEq, Eq)]
pub(crate) struct Outcome {
    batches: usize,
    sizes: [usize; 3],
    end: End,
}

/// The outcome of a reading that gives batches of these sizes, at most three.
pub(crate) fn outcome_of(given: &[usize], end: End) -> Outcome {
    let mut sizes = [0; 3];
    for (size, events) in sizes.iter_mut().zip(given) {
        *size = *events;
    }
    Outcome {
        batches: given.len(),
        sizes,
        end,
    }
}

/// A source of this text, which gives it in pieces and fails at the given calls.
pub(crate) fn source_of(
    alloc: Global,
    text: &[u8],
    piece: usize,
    fail: &[u64],
) -> Result<MemSource, OutOfMemory>
    requires piece { 0 < piece }
{
    let bytes = List::from_slice(alloc, text)?;
    Ok(MemSource::new(bytes, piece, List::from_slice(alloc, fail)?))
}

/// Reads all batches that a source gives to an application whose tables have `size` ids each, of an input of at most
/// `limit` bytes.
pub(crate) fn read_batches<A: EventApp + Drop, S: Source>(
    alloc: Global,
    app: A,
    source: &mut S,
    size: u32,
    limit: u64,
) -> Result<Outcome, OutOfMemory>
    requires some { 1 ≤ limit }
    requires limit { limit ≤ input_bytes }
{
    let mut reader = BatchReader::new(alloc, app, size, limit)?;
    let mut sizes = [0; 3];
    'batches: for batches in 0..100 {
        let end = match reader.next_batch(alloc, source) {
            Ok(Next::Batch(batch)) => {
                if batches < sizes.len() {
                    sizes[batches] = batch.len();
                }
                continue;
            }
            Ok(Next::End) => End::Ended,
            Ok(Next::Refused { line, cause }) => End::Refused(line, cause),
            Err(fault) => End::Fault(fault),
        };
        return Ok(Outcome {
            batches,
            sizes,
            end,
        });
    }
    Ok(Outcome {
        batches: 100,
        sizes,
        end: End::Unfinished,
    })
}
