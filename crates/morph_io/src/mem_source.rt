ghost use Rattle.std.specs.Prelude.{◌≡◌, ◌+◌, ◌<◌, ◌↔◌, min, List, [], ◌++◌, length, take, drop, Some};
ghost use Rattle.std.specs.Prelude.{Contains, IsErr, IfOk, OnErr};
ghost use Rattle.morph_io.specs.InMemory.{Supply, SupplyReads, counted};

use crate::calls::{is_next_call_among, next_count};
use crate::copy::copy_to;
use crate::source::{ReadFailed, Source};
use morph_base::List;
use std::marker::Model;

/// A source of bytes in memory, which gives them in pieces and fails at chosen calls.
///
/// Contracts see it as a `Supply`: the bytes left, the greatest piece, the numbers of the calls that fail, and the
/// calls and faults so far.
#[derive(Debug)]
pub struct MemSource {
    bytes: List<u8>,
    piece: usize,
    fail: List<u64>,
    at: usize,
    calls: u64,
    faults: u64,
}

// Not derived: see "What costs" in docs/CONTRIBUTING.md.
impl Drop for MemSource {
    fn drop(self) {
        let MemSource {
            bytes: _,
            piece: _,
            fail: _,
            at: _,
            calls: _,
            faults: _,
        } = self;
    }
}

impl Model for MemSource {
    ghost use Rattle.std.specs.Prelude.{◌<◌, ◌≤◌, length, drop};
    ghost use Rattle.morph_io.specs.InMemory.{Supply};

    ghost Value = { Supply };

    ghost view = { λ s. record {
      left = drop s.at s.bytes.items;
      piece = s.piece;
      fail = s.fail.items;
      calls = s.calls;
      faults = s.faults;
    } };

    ghost invariant = { λ s. (0 < s.piece) × (s.at ≤ length s.bytes.items) };
}

impl MemSource {
    /// A source of `bytes`. A call gives at most `piece` of them. The calls whose number, from 1, is in `fail` fail.
    pub fn new(bytes: List<u8>, piece: usize, fail: List<u64>) -> Self
        requires { 0 < piece }
        ensures { result ≡ record
            { left = bytes.items; piece = piece; fail = fail.items; calls = 0; faults = 0 } }
    {
        MemSource {
            bytes,
            piece,
            fail,
            at: 0,
            calls: 0,
            faults: 0,
        }
    }
}

impl Source for MemSource {
    ghost left = { λ s. Some s.left };

    ghost faults = { λ s. s.faults };

    ghost reads = { SupplyReads };

    /// Gives as many bytes as `piece`, the buffer and the bytes left allow. Fails if the number of the call is among
    /// the chosen ones.
    fn read(&mut self, buf: &mut [u8]) -> Result<usize, ReadFailed>
        requires { 0 < length buf.old }
        ensures fails { IsErr result ↔ Contains self.old.fail (self.old.calls + 1) }
        ensures failed { OnErr result
            (self.new ≡ record self.old
            { calls = counted self.old.calls; faults = counted self.old.faults }) }

        ensures count { IfOk result
            (λ n. n ≡ min (min (length self.old.left) self.old.piece) (length buf.new)) }
        ensures bytes { IfOk result (λ n. buf.new ≡ take n self.old.left ++ drop n buf.old) }
        ensures given { IfOk result (λ n.
            self.new ≡ record self.old
            { left = drop n self.old.left; calls = counted self.old.calls }) }
        ensures end { IfOk result (λ n. n ≡ 0 → self.new.left ≡ []) }
    {
        let fails = is_next_call_among(self.fail.as_slice(), self.calls);
        self.calls = next_count(self.calls);
        if fails {
            self.faults = next_count(self.faults);
            return Err(ReadFailed);
        }
        let left = &self.bytes.as_slice()[self.at..];
        let count = left.len().min(self.piece).min(buf.len());
        copy_to(buf, 0, &left[..count]);
        self.at += count;
        Ok(count)
    }
}
