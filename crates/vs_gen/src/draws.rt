//! Numbers that are drawn one after the other.

ghost use Rattle.std.specs.Prelude.{◌≡◌};
ghost use Rattle.vs_gen.specs.Draws.{draw, state_after};

use std::marker::Model;

/// A linear congruential generator of 64 bits. The upper 31 bits are the number that is drawn.
#[derive(Drop)]
pub struct Draws {
    state: u64,
}

impl Model for Draws {
    ghost use Rattle.std.specs.Prelude.{ℕ};

    ghost Value = { ℕ };

    ghost view = { λ d. d.state };
}

impl Draws {
    const FACTOR: u64 = 6_364_136_223_846_793_005;

    const SUMMAND: u64 = 1_442_695_040_888_963_407;

    /// The draws of this number.
    pub fn of(number: u32) -> Draws
        ensures { result ≡ number }
    {
        Draws {
            state: u64::from(number),
        }
    }

    /// The next number, below 2^31.
    pub fn next(&mut self) -> u32
        ensures value { result ≡ draw self.old 1 }
        ensures state { self.new ≡ state_after self.old 1 }
    {
        self.state = self
            .state
            .wrapping_mul(Self::FACTOR)
            .wrapping_add(Self::SUMMAND);
        (self.state >> 33) as u32
    }
}
