ghost use Rattle.std.specs.Prelude.{◌≡◌, ◌<◌, ◌≤◌, [], ◌++◌, length, take, Some, IsOk, IfOk};
ghost use Rattle.morph_io.specs.InMemory.{GivesBytes, repeated, left_from};

use crate::copy::copy_to;
use crate::source::{ReadFailed, Source};
use morph_base::List;
use std::marker::Model;

/// A source that gives one line again and again, and never fails. Contracts see it as the list of the bytes left.
#[derive(Debug, Drop)]
pub struct RepeatSource {
    line: List<u8>,
    // The place in the line that is being given, and how many lines come after it.
    at: usize,
    times: u64,
}

impl Model for RepeatSource {
    ghost use Rattle.std.specs.Prelude.{ℕ, ◌≤◌, List, length};
    ghost use Rattle.morph_io.specs.InMemory.{left_from};

    ghost Value = { List ℕ };

    ghost view = { λ s. left_from s.line.items s.at s.times };

    ghost invariant = { λ s. s.at ≤ length s.line.items };
}

/// The place of the next bytes, and how many repetitions come after it: at the line's end the next one begins.
fn next_place(line: &[u8], at: usize, times: u64) -> (usize, u64)
    requires { at ≤ length line.now }
    ensures within { result.0 ≤ length line.now }
    ensures same { left_from line.now result.0 result.1 ≡ left_from line.now at times }
    ensures last { result.0 ≡ length line.now → left_from line.now result.0 result.1 ≡ [] }
{
    if at == line.len() && times > 0 {
        (0, times - 1)
    } else {
        (at, times)
    }
}

impl RepeatSource {
    /// A source that gives `line` `times` times.
    pub fn new(line: List<u8>, times: u64) -> Self
        ensures { result ≡ repeated times line.items }
    {
        let at = line.len();
        RepeatSource { line, at, times }
    }
}

impl Source for RepeatSource {
    ghost left = { λ s. Some s };

    ghost faults = { λ _. 0 };

    ghost reads = { GivesBytes };

    /// Gives as much of one line as the buffer has room for. It never fails.
    fn read(&mut self, buf: &mut [u8]) -> Result<usize, ReadFailed>
        requires { 0 < length buf.old }
        ensures ok { IsOk result }
        ensures bound { IfOk result (λ n. n ≤ length buf.new) }
        ensures bytes { IfOk result (λ n. self.old ≡ take n buf.new ++ self.new) }
        ensures end { IfOk result (λ n. n ≡ 0 → self.new ≡ []) }
    {
        let (at, times) = next_place(self.line.as_slice(), self.at, self.times);
        self.times = times;
        let left = &self.line.as_slice()[at..];
        let count = left.len().min(buf.len());
        copy_to(buf, 0, &left[..count]);
        self.at = at + count;
        Ok(count)
    }
}
