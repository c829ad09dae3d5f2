ghost use Rattle.std.specs.Prelude.{◌≡◌, ◌<◌, ◌++◌, [], ◌∷◌, false, true, length, slice_index_or};
ghost use Rattle.op_eval.specs.Bursts.{BurstView};
ghost use Rattle.op_eval.specs.declared.burst.TheConstants.{BURST};

use std::marker::Model;

/// The most numbers that a burst has.
pub const BURST: usize = 16;

/// Numbers that a runner took from a counter, one after another, before it tries what the first of them names.
///
/// Contracts see those that name places, in the order in which they were taken, and whether one more was taken that is
/// past the last place.
#[derive(Debug, Drop)]
pub struct Burst {
    numbers: [u32; BURST],
    count: usize,
    over: bool,
}

impl Model for Burst {
    ghost use Rattle.std.specs.Prelude.{◌≤◌, take};
    ghost use Rattle.op_eval.specs.Bursts.{BurstView};
    ghost use Rattle.op_eval.specs.declared.burst.TheConstants.{BURST};

    ghost Value = { BurstView };

    ghost view = { λ burst. record { numbers = take burst.count burst.numbers; over = burst.over } };

    ghost invariant = { λ burst. burst.count ≤ BURST };
}

impl Burst {
    /// No numbers.
    pub(crate) fn new() -> Self
        ensures { result ≡ record { numbers = []; over = false } }
    {
        Burst {
            numbers: [0; BURST],
            count: 0,
            over: false,
        }
    }

    /// Adds the number of a place.
    pub(crate) fn add(&mut self, number: u32)
        requires { length self.old.numbers < BURST }
        ensures { self.new ≡ record self.old { numbers = self.old.numbers ++ number ∷ [] } }
    {
        self.numbers[self.count] = number;
        self.count += 1;
    }

    /// Notes that a number past the last place was taken.
    pub(crate) fn end(&mut self)
        ensures { self.new ≡ record self.old { over = true } }
    {
        self.over = true;
    }

    /// How many numbers name places: at most [`BURST`].
    pub fn len(&self) -> usize
        ensures { result ≡ length self.now.numbers }
    {
        self.count
    }

    /// The number that was taken as the one before was, counted from 0, among those that name places.
    pub fn number(&self, i: usize) -> usize
        requires { i < length self.now.numbers }
        ensures { result ≡ slice_index_or self.now.numbers i 0 }
    {
        let numbers = &self.numbers[..self.count];
        numbers[i] as usize
    }

    /// Whether a number past the last place was taken, so that no place is left.
    pub fn is_over(&self) -> bool
        ensures { result ≡ self.now.over }
    {
        self.over
    }
}
