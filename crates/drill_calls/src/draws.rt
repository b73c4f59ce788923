//! The draws of a drill.

ghost use Rattle.std.specs.Prelude.{◌≡◌, ℕ, ◌<◌, ◌≤◌};
ghost use Rattle.drill_calls.specs.Draws.{behind_draw, behind_draws, nth_draw};
ghost use Rattle.drill_calls.specs.declared.limits.TheConstants.{START_MAX};

use std::marker::Model;

/// What the next draws depend on.
#[derive(Drop)]
pub struct Draws {
    x: u32,
}

impl Model for Draws {
    ghost Value = { ℕ };

    ghost view = { λ draws. draws.x };
}

impl Draws {
    /// The draws from a start on.
    pub fn new(start: u64) -> Draws
        requires { start ≤ START_MAX }
        ensures { result ≡ start }
    {
        Draws { x: start as u32 }
    }

    /// Draws one of the numbers below n.
    #[tactic(auto, unfolding(crate::specs::Draws::behind_draw, crate::specs::Draws::behind_draws, crate::specs::Draws::nth_draw))]
    pub fn draw(&mut self, n: u64) -> u64
        requires { 0 < n }
        ensures drawn { self.new ≡ behind_draws self.old 1 }
        ensures number { result ≡ nth_draw self.old 1 n }
        ensures below { result < n }
    {
        let x = (u64::from(self.x) * 1_103_515_245 + 12_345) % 2_147_483_648;
        self.x = x as u32;
        x / 65_536 % n
    }
}
