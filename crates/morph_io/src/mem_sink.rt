ghost use Rattle.std.specs.Prelude.{◌≡◌, ◌-◌, ◌<◌, ◌≤◌, ◌↔◌, min, [], ◌++◌, length, take, Some, IsErr, IfOk, OnErr};
ghost use Rattle.morph_io.specs.InMemory.{Store, StoreWrites, counted, IsRefused};

use crate::calls::{is_next_call_among, next_count};
use crate::copy::append;
use crate::sink::{Sink, WriteFailed};
use morph_base::{List, OutOfMemory};
use std::alloc::Global;
use std::marker::Model;

/// A sink that keeps the bytes in memory, takes them in pieces, and fails at chosen calls or when its room ends.
///
/// Contracts see it as a `Store`: the bytes written, the room left, the greatest piece, the numbers of the calls
/// that fail and of those that stall, and the calls and faults so far.
#[derive(Debug)]
pub struct MemSink {
    bytes: Vec<u8>,
    room: usize,
    piece: usize,
    fail: List<u64>,
    stall: List<u64>,
    calls: u64,
    faults: u64,
}

// Not derived: see "What costs" in docs/CONTRIBUTING.md.
impl Drop for MemSink {
    fn drop(self) {
        let MemSink {
            bytes: _,
            room: _,
            piece: _,
            fail: _,
            stall: _,
            calls: _,
            faults: _,
        } = self;
    }
}

impl Model for MemSink {
    ghost use Rattle.std.specs.Prelude.{◌+◌, ◌<◌, ◌≤◌, vec_len, vec_capacity};
    ghost use Rattle.morph_io.specs.InMemory.{Store};

    ghost Value = { Store };

    ghost view = { λ s. record {
      written = s.bytes.items;
      room = s.room;
      piece = s.piece;
      fail = s.fail.items;
      stall = s.stall.items;
      calls = s.calls;
      faults = s.faults;
    } };

    ghost invariant = { λ s. (0 < s.piece) × (vec_len s.bytes + s.room ≤ vec_capacity s.bytes) };
}

impl MemSink {
    /// An empty sink with memory for `room` bytes. A call takes at most `piece` of them. The calls whose number, from
    /// 1, is in `fail` or in `stall` append nothing and fail.
    pub fn new(
        alloc: Global,
        room: usize,
        piece: usize,
        fail: List<u64>,
        stall: List<u64>,
    ) -> Result<Self, OutOfMemory>
        requires { 0 < piece }
        ensures { IfOk result (λ sink. sink ≡ record {
          written = [];
          room = room;
          piece = piece;
          fail = fail.items;
          stall = stall.items;
          calls = 0;
          faults = 0;
        }) }
    {
        Ok(MemSink {
            bytes: Vec::with_capacity(alloc, room)?,
            room,
            piece,
            fail,
            stall,
            calls: 0,
            faults: 0,
        })
    }

    /// The bytes that were written.
    pub fn bytes(&self) -> &[u8]
        ensures { result.now ≡ self.now.written }
    {
        self.bytes.as_slice()
    }
}

impl Sink for MemSink {
    ghost written = { λ s. Some s.written };

    ghost faults = { λ s. s.faults };

    ghost writes = { StoreWrites };

    /// Takes as many bytes as `piece` and the room allow. Fails if there is no room or the number of the call is among
    /// the chosen ones.
    fn write(&mut self, piece: &[u8]) -> Result<usize, WriteFailed>
        requires { 0 < length piece.now }
        ensures fails { IsErr result ↔ IsRefused self.old }
        ensures failed { OnErr result
            (self.new ≡ record self.old
            { calls = counted self.old.calls; faults = counted self.old.faults }) }

        ensures some { IfOk result (λ n. 0 < n) }
        ensures count { IfOk result
            (λ n. n ≡ min (min (length piece.now) self.old.piece) self.old.room) }
        ensures taken { IfOk result (λ n. self.new ≡ record self.old {
          written = self.old.written ++ take n piece.now;
          room = self.old.room - n;
          calls = counted self.old.calls;
        }) }
    {
        let fails = is_next_call_among(self.fail.as_slice(), self.calls);
        let stalls = is_next_call_among(self.stall.as_slice(), self.calls);
        self.calls = next_count(self.calls);
        if self.room == 0 || fails || stalls {
            self.faults = next_count(self.faults);
            return Err(WriteFailed);
        }
        let count = piece.len().min(self.piece).min(self.room);
        append(&mut self.bytes, &piece[..count]);
        self.room -= count;
        Ok(count)
    }
}
