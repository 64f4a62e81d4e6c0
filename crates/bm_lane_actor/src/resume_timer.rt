//! When a lane whose connection was cut is given up.

ghost use Rattle.std.specs.Prelude.{◌≡◌};
ghost use Rattle.bm_lane_actor.specs.ResumeTimer.{begun, cut_off, dismissed, is_over, kept, passed};

use std::marker::Model;

/// How long a lane whose connection was cut waits for its worker to resume the session. A lane is
/// given up once as many ticks have passed since the cut as its worker may take. Where nobody is
/// awaited it is given up at once: the worker was told to shut down, or its process ended.
#[derive(Drop)]
pub struct ResumeTimer {
    limit: u32,
    cut: Option<u32>,
    dismissed: bool,
}

impl Model for ResumeTimer {
    ghost use Rattle.std.specs.Prelude.{◌≤◌, IfSome};
    ghost use Rattle.bm_lane_actor.specs.ResumeTimer.{TimerView};

    ghost Value = { TimerView };

    ghost view = { λ t. record { limit = t.limit; cut = t.cut; dismissed = t.dismissed } };

    ghost invariant = { λ t. IfSome t.cut (λ ticks. ticks ≤ t.limit) };
}

impl ResumeTimer {
    /// That of a lane which is not cut, and whose worker may take `limit` ticks to come back.
    pub fn new(limit: u32) -> ResumeTimer
        ensures { result ≡ kept limit }
    {
        ResumeTimer {
            limit,
            cut: None,
            dismissed: false,
        }
    }

    /// A connection was attached to the lane, with its session or a new one, or the lane was given
    /// up. Nothing is counted any more, and the worker is awaited again after the next cut.
    pub fn begin(&mut self)
        ensures { self.new ≡ begun self.old }
    {
        self.cut = None;
        self.dismissed = false;
    }

    /// The lane's connection was cut: the count begins, unless it runs already.
    pub fn cut(&mut self)
        ensures { self.new ≡ cut_off self.old }
    {
        if self.cut.is_none() {
            self.cut = Some(0);
        }
    }

    /// Nobody is awaited: the worker was told to shut down, or its process ended. A lane that is
    /// cut is over at once, another one at its cut.
    pub fn dismiss(&mut self)
        ensures { self.new ≡ dismissed self.old }
    {
        self.dismissed = true;
    }

    /// A tick passed. Answers whether the lane is to be given up now; that stays so until a
    /// connection is attached or the lane was given up.
    pub fn tick(&mut self) -> bool
        ensures term { self.new ≡ passed self.old }
        ensures over { result ≡ is_over (passed self.old) }
    {
        if let Some(ticks) = self.cut {
            if ticks < self.limit {
                self.cut = Some(ticks + 1);
            }
        }
        self.is_over()
    }

    /// Whether the lane is to be given up now.
    pub fn is_over(&self) -> bool
        ensures { result ≡ is_over self.now }
    {
        match self.cut {
            Some(ticks) => self.dismissed || self.limit <= ticks,
            None => false,
        }
    }
}
