//! How a process that is to end is ended.

ghost use Rattle.std.specs.Prelude.{◌≡◌, None};
ghost use Rattle.bm_latent.specs.Deadline.{act_at, after_tick, begun};

use std::marker::Model;

/// How many ticks a process has that is to end, before it is asked to.
const ASK_AFTER_TICKS: u32 = 200;

/// How many ticks it has until it is killed.
const KILL_AFTER_TICKS: u32 = 1_000;

/// What is to be done with a process that is to end.
#[derive(Clone, Copy, PartialEq, Eq)]
pub enum EndAct {
    /// Its time hasn't come, or was acted on.
    None,
    /// Send it SIGTERM.
    Ask,
    /// Send it SIGKILL.
    Kill,
}

/// Counts the ticks since a process is to end. It has two seconds to do so by itself, is asked
/// then, and killed ten seconds after the beginning. A tick is `TICK_MS`.
#[derive(Drop)]
pub struct Deadline {
    ticks: Option<u32>,
}

impl Model for Deadline {
    ghost use Rattle.std.specs.Prelude.{ℕ, Option};

    ghost Value = { Option ℕ };

    ghost view = { λ d. d.ticks };
}

impl Deadline {
    /// No process is to end.
    pub fn new() -> Deadline
        ensures { result ≡ None }
    {
        Deadline { ticks: None }
    }

    /// The process is to end from now on, or since an earlier call.
    pub fn begin(&mut self)
        ensures { self.new ≡ begun self.old }
    {
        if self.ticks.is_none() {
            self.ticks = Some(0);
        }
    }

    /// The process has ended, or was started anew.
    pub fn stop(&mut self)
        ensures { self.new ≡ None }
    {
        self.ticks = None;
    }

    /// A tick has passed: what is to be done now.
    pub fn tick(&mut self) -> EndAct
        ensures act { result ≡ act_at self.new }
        ensures ticks { self.new ≡ after_tick self.old }
    {
        let Some(ticks) = self.ticks else {
            return EndAct::None;
        };
        let ticks = ticks.saturating_add(1);
        self.ticks = Some(ticks);
        if ticks >= KILL_AFTER_TICKS {
            EndAct::Kill
        } else if ticks == ASK_AFTER_TICKS {
            EndAct::Ask
        } else {
            EndAct::None
        }
    }
}
