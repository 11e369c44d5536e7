ghost use Rattle.std.specs.Prelude.{◌≡◌, ◌+◌, ◌%◌, ◌<◌};
ghost use Rattle.drill.specs.Draws.{next_state, state_after};

use std::marker::Model;

const MODULUS: u64 = 65537;

/// A generator of numbers: each is `(75 x + 74) mod 65537` of the one before.
#[derive(Debug, Drop)]
pub(crate) struct Draws {
    state: u64,
}

impl Model for Draws {
    ghost use Rattle.std.specs.Prelude.{ℕ, ◌<◌};

    ghost Value = { ℕ };

    ghost view = { λ draws. draws.state };

    ghost invariant = { λ draws. draws.state < 65537 };
}

impl Draws {
    /// The generator of a seed.
    pub(crate) fn new(seed: u64) -> Draws
        ensures { result ≡ state_after seed 0 }
    {
        Draws {
            state: seed % MODULUS,
        }
    }

    /// Draws one of the first `n` numbers.
    pub(crate) fn draw(&mut self, n: u64) -> u64
        requires { 0 < n }
        ensures state { self.new ≡ next_state self.old }
        ensures drawn { result ≡ next_state self.old % n }
    {
        self.step();
        self.state % n
    }

    /// Goes one draw on.
    pub(crate) fn step(&mut self)
        ensures { self.new ≡ next_state self.old }
    {
        self.state = (75 * self.state + 74) % MODULUS;
    }
}
