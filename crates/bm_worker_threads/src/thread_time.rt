//! The time that a machine is told.

ghost use Rattle.std.specs.Prelude.{◌≡◌, ◌≤◌, ◌+◌, ◌-◌, ◌^◌, IfSome, None, Some, min};

use crate::elapsed::whole_millis;
use std::time::{Clock, Instant};

/// A thread's time since its beginning. Where the clock fails, it goes on by the pauses that the
/// thread has slept.
#[derive(Drop)]
pub(crate) struct ThreadTime {
    begun: Option<Instant>,
    last_ms: u64,
}

impl ThreadTime {
    /// It has not begun.
    pub(crate) fn new() -> ThreadTime
        ensures { result ≡ record { begun = None; last_ms = 0 } }
    {
        ThreadTime {
            begun: None,
            last_ms: 0,
        }
    }

    /// How many milliseconds have passed.
    pub(crate) fn now<R: Clock>(&mut self, rt: &R) -> u64
        ensures shown { result ≡ self.new.last_ms }
        ensures grows { self.old.last_ms ≤ result }
        ensures begun { IfSome self.old.begun (λ begun. self.new.begun ≡ Some begun) }
    {
        let Ok(now) = Instant::now(rt) else {
            return self.last_ms;
        };
        match self.begun {
            Some(begun) => {
                let passed_ms = whole_millis(now.duration_since(begun));
                self.last_ms = self.last_ms.max(passed_ms);
            }
            None => self.begun = Some(now),
        }
        self.last_ms
    }

    /// The thread has slept for so many milliseconds.
    pub(crate) fn slept(&mut self, pause_ms: u64)
        ensures { self.new ≡ record self.old {
          last_ms = min (self.old.last_ms + pause_ms) (2 ^ 64 - 1);
        } }
    {
        self.last_ms = self.last_ms.saturating_add(pause_ms);
    }
}
