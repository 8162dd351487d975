//! Draws of numbers.
ghost use Rattle.std.specs.Prelude.{◌≡◌, ◌≤◌, ◌%◌};
ghost use Rattle.net_gen.specs.Draws.{next_draw_state, seed_state};

use std::marker::Model;

/// A linear congruential generator (Knuth, The Art of Computer Programming 2, section 3.2.1), with the
/// multiplier 75, the increment 74 and the modulus 65,537. Its state is below the modulus.
#[derive(Drop)]
pub struct Draws {
    state: u32,
}

impl Model for Draws {
    ghost use Rattle.std.specs.Prelude.{ℕ, ◌≤◌};

    ghost Value = { ℕ };

    ghost view = { λ d. d.state };

    ghost invariant = { λ d. d.state ≤ 65536 };
}

impl Draws {
    /// The generator at the first state of a seed.
    pub fn new(seed: u64) -> Draws
        ensures { result ≡ seed_state seed }
    {
        Draws {
            state: (seed % 65_536) as u32,
        }
    }

    /// A number below `n`, by the next state.
    pub fn draw(&mut self, n: u32) -> u32
        requires { 1 ≤ n }
        ensures state { self.new ≡ next_draw_state self.old }
        ensures drawn { result ≡ self.new % n }
    {
        self.state = (75 * self.state + 74) % 65_537;
        self.state % n
    }
}
