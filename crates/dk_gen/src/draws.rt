//! The numbers that are drawn, one after the other, from a first one.
ghost use Rattle.std.specs.Prelude.{◌≡◌, ◌<◌};
ghost use Rattle.dk_gen.specs.Draws.{draw, state};

use std::marker::Model;

/// The multiplier and the increment of a step of the state, modulo 2^64. They are those of Knuth's MMIX.
const MULTIPLIER: u64 = 6364136223846793005;

const INCREMENT: u64 = 1442695040888963407;

/// The generator: a linear congruence of 64 bits. It is seen as its state, which at first is the
/// number that it is made of.
#[derive(Drop)]
pub struct Draws {
    state: u64,
}

impl Model for Draws {
    ghost use Rattle.std.specs.Prelude.{ℕ};

    ghost Value = { ℕ };

    ghost view = { λ d. d.state };
}

impl Draws {
    /// Those that begin at this number.
    pub fn new(number: u64) -> Draws
        ensures { result ≡ number }
    {
        Draws { state: number }
    }

    /// A number below `below`: takes the state one step on, and then the remainder of its high 31 bits.
    pub fn draw(&mut self, below: u32) -> u32
        requires { 0 < below }
        ensures drawn { result ≡ draw self.old 0 below }
        ensures inside { result < below }
        ensures next { self.new ≡ state self.old 1 }
    {
        self.state = self.state.wrapping_mul(MULTIPLIER).wrapping_add(INCREMENT);
        (self.state >> 33) as u32 % below
    }
}
