//! How often a thing is told.

ghost use Rattle.std.specs.Prelude.{◌≡◌, ◌==◌, ◌<◌, if◌then◌else◌};
ghost use Rattle.bm_operator.specs.RateLimit.{allowance, is_allowed, is_left_out, left_out_after, left_out_before, limit_after, limit_at};

use std::marker::Model;

/// Lets so many things through in each second, and counts the others. A second is named by its
/// number on some clock.
#[derive(Drop)]
pub struct RateLimit {
    most: u32,
    /// The second in which the last thing happened.
    second: u64,
    /// How many were let through in that second.
    allowed: u32,
    /// How many were left out since that count was last taken.
    left_out: u64,
}

impl Model for RateLimit {
    ghost use Rattle.bm_operator.specs.RateLimit.{Allowance};

    ghost Value = { Allowance };

    ghost view = { λ l. record {
      most = l.most;
      second = l.second;
      allowed = l.allowed;
      left_out = l.left_out;
    } };
}

impl RateLimit {
    /// Lets `most` things through in each second.
    pub fn new(most: u32) -> RateLimit
        ensures { result ≡ allowance most }
    {
        RateLimit {
            most,
            second: 0,
            allowed: 0,
            left_out: 0,
        }
    }

    /// A thing happens in this second: whether it is let through. Where it isn't, it is counted, up
    /// to 2^64-1.
    pub fn allows(&mut self, second: u64) -> bool
        ensures result { result ≡ is_allowed self.old second }
        ensures limit { self.new ≡ limit_after self.old second }
    {
        self.begin(second);
        if self.allowed < self.most {
            self.allowed += 1;
            true
        } else {
            self.left_out = self.left_out.saturating_add(1);
            false
        }
    }

    /// A thing happens in this second that is left out, however few there were: it is counted, up
    /// to 2^64-1.
    pub fn leave_out(&mut self, second: u64)
        ensures { self.new ≡ left_out_after self.old second }
    {
        self.begin(second);
        self.left_out = self.left_out.saturating_add(1);
    }

    /// Counts anew where this second is another one than that of the last thing.
    fn begin(&mut self, second: u64)
        ensures { self.new ≡ limit_at self.old second }
    {
        if self.second != second {
            self.second = second;
            self.allowed = 0;
        }
    }

    /// Whether the last thing happened in this second.
    pub(crate) fn is_in(&self, second: u64) -> bool
        ensures { result ≡ (self.now.second == second) }
    {
        self.second == second
    }

    /// How many were not let through in seconds before this one, each counted once.
    pub fn take_left_out(&mut self, second: u64) -> u64
        ensures count { result ≡ left_out_before self.old second }
        ensures limit { self.new ≡ record {
          most = self.old.most;
          second = self.old.second;
          allowed = self.old.allowed;
          left_out = (if self.old.second == second then self.old.left_out else 0);
        } }
    {
        if self.second == second {
            return 0;
        }
        let count = self.left_out;
        self.left_out = 0;
        count
    }

    /// Whether there is a count of things left out that wasn't taken yet.
    pub fn is_left_out(&self) -> bool
        ensures { result ≡ is_left_out self.now }
    {
        self.left_out > 0
    }
}
