//! Ticks as a clock shows them.

ghost use Rattle.std.specs.Prelude.{◌≡◌, ◌≤◌, ◌-◌, ◌/◌, ◌^◌, min};
ghost use Rattle.std.specs.Duration.{as_nanos};
ghost use Rattle.bm_latent.specs.TickCounter.{after_count, after_telling, ended, told_at};

use std::marker::Model;
use std::time::Duration;

/// How long a tick is, in milliseconds: of the master's threads, and of the counts of ticks in its
/// configuration.
/// It is a number, and no `Duration`: the conditions of `TickCounter` are facts on numbers. The
/// worker has a tick of its own, since it stands on no crate of the master.
pub const TICK_MS: u64 = 10;

/// How many ticks are told of at once at the most, where who tells was late.
const MOST_TICKS: u64 = 100;

/// How many whole milliseconds these are, as far as a number has room for them.
pub fn millis(passed: Duration) -> u64
    ensures { result ≡ min (as_nanos passed / 1_000_000) (2 ^ 64 - 1) }
{
    match u64::try_from(passed.as_millis()) {
        Ok(count) => count,
        Err(_) => u64::MAX,
    }
}

/// Counts whole ticks by a clock, for a thread that doesn't wake at each of them: none is lost and
/// none counted twice. Times are in milliseconds since some moment.
#[derive(Drop)]
pub struct TickCounter {
    /// How long a tick is.
    tick: u64,
    /// The moment up to which ticks were counted.
    last: u64,
}

impl Model for TickCounter {
    ghost use Rattle.std.specs.Prelude.{◌≤◌};
    ghost use Rattle.bm_latent.specs.TickCounter.{CounterView};

    ghost Value = { CounterView };

    ghost view = { λ p. record { tick = p.tick; last = p.last } };

    ghost invariant = { λ p. 1 ≤ p.tick };
}

impl TickCounter {
    /// Ticks of `tick` milliseconds, the first of which begins now.
    pub fn new(tick: u64, now: u64) -> TickCounter
        requires { 1 ≤ tick }
        ensures { result ≡ record { tick = tick; last = now } }
    {
        TickCounter { tick, last: now }
    }

    /// How many ticks have ended since the last call. What has passed of the next one counts later.
    /// A clock that stands before the last tick's end gives none.
    pub fn ticks(&mut self, now: u64) -> u64
        ensures ticks { result ≡ ended self.old now }
        ensures left { self.new ≡ after_count self.old now }
    {
        let ticks = now.saturating_sub(self.last) / self.tick;
        self.last += ticks * self.tick;
        ticks
    }

    /// How many ticks are told of now: those that have ended since the last call, but at most a
    /// hundred. Where there are more, the rest is left out. One is told where the clock failed,
    /// which counts none.
    pub fn told(&mut self, now: Option<u64>) -> u64
        ensures ticks { result ≡ told_at self.old now }
        ensures left { self.new ≡ after_telling self.old now }
    {
        match now {
            Some(now) => self.ticks(now).min(MOST_TICKS),
            None => 1,
        }
    }
}
