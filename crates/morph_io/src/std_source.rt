ghost use Rattle.std.specs.Prelude.{◌≡◌, ◌<◌, ◌≤◌, length, None, IfSome, IfOk, OnOk, OnErr};
ghost use Rattle.morph_io.specs.InMemory.{counted};

use crate::calls::next_count;
use crate::retries::{MAX_RETRIES, spends_retry};
use crate::source::{ReadFailed, Source};
use std::io::{Read, Stdin};
use std::marker::Model;

/// Standard input, or another reader of std's, as a [`Source`] that reveals nothing of its bytes.
///
/// Contracts see it as its count of faults.
///
/// A read that is interrupted is tried again, at most [`MAX_RETRIES`] times in one call; the next interruption counts
/// as a fault.
#[derive(Debug, Drop)]
pub struct StdSource<R = Stdin> {
    reader: R,
    faults: u64,
}

impl<R> Model for StdSource<R> {
    ghost use Rattle.std.specs.Prelude.{ℕ};

    ghost Value = { ℕ };

    ghost view = { λ s. s.faults };
}

/// One read, tried again if it is interrupted; `None` is a fault.
fn read_retrying<R: Read>(reader: &mut R, buf: &mut [u8]) -> Option<usize>
    ensures bound { IfSome result (λ n. n ≤ length buf.new) }
{
    let mut retries = MAX_RETRIES;
    'tries: loop {
        match reader.read(buf) {
            Ok(count) => return Some(count),
            Err(error) => {
                if !spends_retry(&mut retries, &error) {
                    return None;
                }
            }
        }
    }
}

impl<R: Read> StdSource<R> {
    /// A source that reads from `reader`.
    pub fn new(reader: R) -> Self
        ensures { result ≡ 0 }
    {
        StdSource { reader, faults: 0 }
    }
}

impl<R: Read> Source for StdSource<R> {
    ghost left = { λ _. None };

    ghost faults = { λ s. s };

    ghost reads = { λ _ _ _ _. Unit {0} };

    fn read(&mut self, buf: &mut [u8]) -> Result<usize, ReadFailed>
        ensures bound { IfOk result (λ n. n ≤ length buf.new) }
        ensures ok { OnOk result (self.new ≡ self.old) }
        ensures failed { OnErr result (self.new ≡ counted self.old) }
    {
        match read_retrying(&mut self.reader, buf) {
            Some(count) => Ok(count),
            None => {
                self.faults = next_count(self.faults);
                Err(ReadFailed)
            }
        }
    }
}
