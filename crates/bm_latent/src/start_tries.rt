//! For how long a start is tried that the system refuses for want of threads, processes or memory.

ghost use Rattle.std.specs.Prelude.{◌≡◌};
ghost use Rattle.bm_latent.specs.StartTries.{is_given_up, tries_after};

use std::marker::Model;

/// For how many ticks of 10 milliseconds a start is tried again: a minute. A machine that is short
/// of threads, processes or memory for a moment so costs no build.
const MOST_TICKS: u32 = 6_000;

/// Counts the ticks for which a start is tried. It is that of a build's thread, of a worker's
/// program, or of a step for which its lane wants memory. Contracts see them.
#[derive(Drop)]
pub struct StartTries {
    ticks: u32,
}

impl Model for StartTries {
    ghost use Rattle.std.specs.Prelude.{ℕ};

    ghost Value = { ℕ };

    ghost view = { λ t. t.ticks };
}

impl StartTries {
    /// No tick has passed since the first try, if there was one.
    pub fn new() -> StartTries
        ensures { result ≡ 0 }
    {
        StartTries { ticks: 0 }
    }

    /// A tick has passed.
    pub fn tick(&mut self)
        ensures { self.new ≡ tries_after self.old }
    {
        self.ticks = self.ticks.saturating_add(1);
    }

    /// Whether it isn't tried again. What is cancelled meanwhile is over at once.
    pub fn is_given_up(&self, is_cancelled: bool) -> bool
        ensures { result ≡ is_given_up self.now is_cancelled }
    {
        is_cancelled || self.ticks >= MOST_TICKS
    }
}
