//! When it is told that something waits.

ghost use Rattle.std.specs.Prelude.{◌≡◌};
ghost use Rattle.bm_operator.specs.WaitNotice.{is_due, is_pending, no_notice, notice_after};

use std::marker::Model;

/// How long something waits before that is told.
const WAIT_MS: u64 = 1_000;

/// Says once of each wait that it lasts, a second after its begin. The time is that of some clock
/// in milliseconds.
#[derive(Drop)]
pub struct WaitNotice {
    /// Since when something waits, in milliseconds of the clock. None while nothing does.
    since: Option<u64>,
    /// Whether this wait was told.
    is_told: bool,
}

impl Model for WaitNotice {
    ghost use Rattle.bm_operator.specs.WaitNotice.{Notice};

    ghost Value = { Notice };

    ghost view = { λ n. record { since = n.since; is_told = n.is_told } };
}

impl WaitNotice {
    /// Nothing waits.
    pub fn new() -> WaitNotice
        ensures { result ≡ no_notice }
    {
        WaitNotice {
            since: None,
            is_told: false,
        }
    }

    /// Something waits now, or nothing does: whether that is to be told.
    pub fn look(&mut self, now: u64, waits: bool) -> bool
        ensures due { result ≡ is_due self.old now waits }
        ensures notice { self.new ≡ notice_after self.old now waits }
    {
        if !waits {
            self.since = None;
            self.is_told = false;
            return false;
        }
        let since = self.since.unwrap_or(now);
        let is_due = !self.is_told && now >= since.saturating_add(WAIT_MS);
        self.since = Some(since);
        self.is_told = self.is_told || is_due;
        is_due
    }

    /// Whether something waits that wasn't told: it is to be looked again soon.
    pub fn is_pending(&self) -> bool
        ensures { result ≡ is_pending self.now }
    {
        self.since.is_some() && !self.is_told
    }
}
