//! For how many ticks the coordinator waits, once no build is left.

ghost use Rattle.std.specs.Prelude.{◌≡◌};
ghost use Rattle.bm_coordinator.specs.TickWaits.{is_over, left_after};

use std::marker::Model;

/// A wait for something that may never come, which ends after so many ticks.
#[derive(Drop)]
pub struct TickWait {
    left: u64,
}

impl Model for TickWait {
    ghost use Rattle.std.specs.Prelude.{ℕ};

    ghost Value = { ℕ };

    ghost view = { λ w. w.left };
}

impl TickWait {
    /// A wait that begins, for so many ticks at the most.
    pub fn new(ticks: u64) -> TickWait
        ensures { result ≡ ticks }
    {
        TickWait { left: ticks }
    }

    /// A tick has passed.
    pub fn tick(&mut self)
        ensures { self.new ≡ left_after self.old }
    {
        self.left = self.left.saturating_sub(1);
    }

    /// Whether nothing is waited for any more. `is_awaited`: it may still come.
    pub fn is_over(&self, is_awaited: bool) -> bool
        ensures { result ≡ is_over self.now is_awaited }
    {
        !is_awaited || self.left == 0
    }
}
