ghost use Rattle.std.specs.Prelude.{◌≡◌, ◌<◌};
ghost use Rattle.event_reader.specs.Draws.{next_state, drawn};

use std::marker::Model;

/// The multiplier and the increment of the generator, those of Knuth's MMIX.
const MULTIPLIER: u64 = 6_364_136_223_846_793_005;

const INCREMENT: u64 = 1_442_695_040_888_963_407;

/// A linear congruential generator modulo 2^64, which contracts see as its state.
#[derive(Debug, Drop)]
pub struct Draws {
    state: u64,
}

impl Model for Draws {
    ghost use Rattle.std.specs.Prelude.{ℕ};

    ghost Value = { ℕ };

    ghost view = { λ draws. draws.state };
}

impl Draws {
    /// A generator that begins at `seed`.
    pub fn new(seed: u64) -> Self
        ensures { result ≡ seed }
    {
        Draws { state: seed }
    }

    /// Draws a number below `n`, by the upper 31 bits of the next state.
    #[tactic(auto, unfolding(crate::specs::Draws::next_state, crate::specs::Draws::drawn))]
    pub fn draw(&mut self, n: u64) -> u64
        requires { 0 < n }
        ensures state { self.new ≡ next_state self.old }
        ensures number { result ≡ drawn self.new n }
        ensures bound { result < n }
    {
        self.state = self.state.wrapping_mul(MULTIPLIER).wrapping_add(INCREMENT);
        (self.state >> 33) % n
    }
}
