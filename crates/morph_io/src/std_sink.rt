ghost use Rattle.std.specs.Prelude.{◌≡◌, ◌<◌, ◌≤◌, length, None, IfSome, IfOk, OnOk, OnErr};
ghost use Rattle.morph_io.specs.InMemory.{counted};

use crate::calls::next_count;
use crate::retries::{MAX_RETRIES, spends_retry};
use crate::sink::{Sink, WriteFailed};
use std::io::Write;
use std::marker::Model;

/// Standard output, standard error or another writer of std's, as a [`Sink`] that reveals nothing of its bytes.
///
/// Contracts see it as its count of faults.
///
/// The writer is flushed after each write. A call that is interrupted is tried again, at most [`MAX_RETRIES`] times in
/// one write. The next interruption counts as a fault, and so does a write that takes none of the bytes.
#[derive(Debug, Drop)]
pub struct StdSink<W> {
    writer: W,
    faults: u64,
}

impl<W> Model for StdSink<W> {
    ghost use Rattle.std.specs.Prelude.{ℕ};

    ghost Value = { ℕ };

    ghost view = { λ s. s.faults };
}

/// One write, tried again if it is interrupted. `None` is a fault; it is one if no byte was taken.
fn write_retrying<W: Write>(writer: &mut W, piece: &[u8], retries: &mut u32) -> Option<usize>
    ensures some { IfSome result (λ n. 0 < n) }
    ensures bound { IfSome result (λ n. n ≤ length piece.now) }
{
    'tries: loop {
        match writer.write(piece) {
            Ok(0) => return None,
            Ok(count) => return Some(count),
            Err(error) => {
                if !spends_retry(retries, &error) {
                    return None;
                }
            }
        }
    }
}

/// One flush, tried again if it is interrupted; `None` is a fault.
fn flush_retrying<W: Write>(writer: &mut W, retries: &mut u32) -> Option<()> {
    'tries: loop {
        match writer.flush() {
            Ok(()) => return Some(()),
            Err(error) => {
                if !spends_retry(retries, &error) {
                    return None;
                }
            }
        }
    }
}

/// One write and a flush; `None` is a fault.
fn write_and_flush<W: Write>(writer: &mut W, piece: &[u8]) -> Option<usize>
    ensures some { IfSome result (λ n. 0 < n) }
    ensures bound { IfSome result (λ n. n ≤ length piece.now) }
{
    let mut retries = MAX_RETRIES;
    let count = write_retrying(writer, piece, &mut retries)?;
    flush_retrying(writer, &mut retries)?;
    Some(count)
}

impl<W: Write> StdSink<W> {
    /// A sink that writes to `writer`.
    pub fn new(writer: W) -> Self
        ensures { result ≡ 0 }
    {
        StdSink { writer, faults: 0 }
    }
}

impl<W: Write> Sink for StdSink<W> {
    ghost written = { λ _. None };

    ghost faults = { λ s. s };

    ghost writes = { λ _ _ _ _. Unit {0} };

    fn write(&mut self, piece: &[u8]) -> Result<usize, WriteFailed>
        ensures some { IfOk result (λ n. 0 < n) }
        ensures bound { IfOk result (λ n. n ≤ length piece.now) }
        ensures ok { OnOk result (self.new ≡ self.old) }
        ensures failed { OnErr result (self.new ≡ counted self.old) }
    {
        match write_and_flush(&mut self.writer, piece) {
            Some(count) => Ok(count),
            None => {
                self.faults = next_count(self.faults);
                Err(WriteFailed)
            }
        }
    }
}
