ghost use Rattle.std.specs.Prelude.{◌≡◌, ◌<◌};
ghost use Rattle.dali_gen.specs.Draws.{state_count, next_state, given};

use std::marker::Model;

/// How many states there are. A state is a number below this one.
const STATE_COUNT: u64 = 2_147_483_648;

/// A source of draws, which contracts see as its state, 0 to 2,147,483,647.
#[derive(Drop)]
pub(crate) struct Draws {
    state: u64,
}

impl Model for Draws {
    ghost use Rattle.std.specs.Prelude.{ℕ, ◌<◌};
    ghost use Rattle.dali_gen.specs.Draws.{state_count};

    ghost Value = { ℕ };

    ghost view = { λ d. d.state };

    ghost invariant = { λ d. d.state < state_count };
}

impl Draws {
    /// A source that starts at this state.
    pub(crate) fn from(state: u32) -> Draws
        requires { state < state_count }
        ensures { result ≡ state }
    {
        Draws {
            state: u64::from(state),
        }
    }

    /// The next draw, of the numbers below `below`. The draws are defined in `specs/Draws.antt`.
    pub(crate) fn draw(&mut self, below: u32) -> u32
        requires { 0 < below }
        ensures state { self.new ≡ next_state self.old }
        ensures given { result ≡ given self.new below }
    {
        let word = 1_103_515_245 * self.state + 12_345;
        self.state = word % STATE_COUNT;
        (self.state / 65_536) as u32 % below
    }
}
