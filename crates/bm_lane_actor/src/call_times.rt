//! How long the calls of a worker's connection may take, and have taken.

ghost use Rattle.std.specs.Prelude.{◌≡◌, None};
ghost use Rattle.bm_lane_actor.specs.CallTimes.{clock_at, is_late, is_spent, is_read_over, is_turn_over, spent_after, started, times_at, turn_after, write_ms};

use std::marker::Model;
use std::time::{Duration, Instant};

/// How long a login may take, in milliseconds.
pub const LOGIN_MS: u64 = 10_000;

/// How long a turn may read, in milliseconds, whatever comes: the reads since the last that met
/// nothing, or since the last write. A bound in the link would need a clock there.
const TURN_MS: u64 = 50;

/// How long the writes between two reads may take together, in milliseconds.
pub(crate) const WRITE_MS: u64 = 5_000;

/// How long they may take once the master ends, in milliseconds.
const LAST_WRITE_MS: u64 = 100;

/// How many nanoseconds a millisecond has.
const NANOS: u128 = 1_000_000;

/// How long the calls of a connection may take. It is told what the clock showed: None where it
/// failed, and then no time is left.
#[derive(Drop)]
pub(crate) struct CallTimes {
    /// When the time for its login is over. Where the clock failed it is over at once.
    login_ends: Option<Instant>,
    /// When the turn's first read was made.
    turn_began: Option<Instant>,
    /// How long its writes have taken since its last read.
    spent: Duration,
}

impl Model for CallTimes {
    ghost use Rattle.std.specs.Duration.{as_nanos};
    ghost use Rattle.bm_lane_actor.specs.CallTimes.{TimesView, clock_at};

    ghost Value = { TimesView };

    ghost view = { λ t. record {
      login_ends = clock_at t.login_ends;
      turn_began = clock_at t.turn_began;
      spent = as_nanos t.spent;
    } };
}

/// How long the writes between two reads may take, in milliseconds.
fn write_ms(is_over: bool) -> u64
    ensures { result ≡ write_ms is_over }
{
    if is_over { LAST_WRITE_MS } else { WRITE_MS }
}

impl CallTimes {
    /// Those of a connection that has just come.
    pub fn new(now: Option<Instant>) -> CallTimes
        ensures { result ≡ started (clock_at now) }
    {
        let login_ends = match now {
            Some(now) => now.checked_add(Duration::from_millis(LOGIN_MS)),
            None => None,
        };
        CallTimes {
            login_ends,
            turn_began: None,
            spent: Duration::from_secs(0),
        }
    }

    /// Whether the time for a login is over.
    fn is_late(&self, now: Option<Instant>) -> bool
        ensures { result ≡ is_late (clock_at now) self.now }
    {
        match (now, self.login_ends) {
            (Some(now), Some(until)) => now.checked_duration_since(until).is_some(),
            _ => true,
        }
    }

    /// Whether the turn has read for as long as it may. Its first read begins it.
    fn is_turn_over(&mut self, now: Option<Instant>) -> bool
        ensures over { result ≡ is_turn_over (clock_at now) self.old }
        ensures turn { self.new ≡ turn_after (clock_at now) self.old }
    {
        match (self.turn_began, now) {
            (Some(began), Some(now)) => {
                now.duration_since(began).as_nanos() >= u128::from(TURN_MS) * NANOS
            }
            (Some(_), None) => true,
            (None, now) => {
                self.turn_began = now;
                false
            }
        }
    }

    /// Whether a read is made no more, since its time is over: that of the login, and after it that
    /// of the turn.
    pub fn is_read_over(&mut self, is_logged_in: bool, now: Option<Instant>) -> bool
        ensures over { result ≡ is_read_over is_logged_in (clock_at now) self.old }
        ensures times { self.new ≡ times_at is_logged_in (clock_at now) self.old }
    {
        if is_logged_in {
            self.is_turn_over(now)
        } else {
            self.is_late(now)
        }
    }

    /// The next read begins another turn.
    pub fn end_turn(&mut self)
        ensures { self.new ≡ record self.old { turn_began = None } }
    {
        self.turn_began = None;
    }

    /// A read is made: the writes after it have their whole time.
    pub fn begin_read(&mut self)
        ensures { self.new ≡ record self.old { spent = 0 } }
    {
        self.spent = Duration::from_secs(0);
    }

    /// A write began and ended at these times.
    pub fn wrote(&mut self, began: Option<Instant>, ended: Option<Instant>)
        ensures { self.new ≡ record self.old {
          spent = spent_after (clock_at began) (clock_at ended) self.old.spent;
        } }
    {
        self.spent = match (began, ended) {
            (Some(began), Some(ended)) => self.spent.saturating_add(ended.duration_since(began)),
            _ => Duration::from_millis(WRITE_MS),
        };
    }

    /// Whether the writes since the last read have taken as long as they may.
    pub fn is_spent(&self, is_over: bool) -> bool
        ensures { result ≡ is_spent is_over self.now }
    {
        self.spent.as_nanos() >= u128::from(write_ms(is_over)) * NANOS
    }
}
