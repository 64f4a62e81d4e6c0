//! The limits of a step.

ghost use Rattle.std.specs.Prelude.{◌≡◌, None, is_some};
ghost use Rattle.bm_lane_actor.specs.StepMeter.{cancelled_after, fresh, given_up_result, is_given_up, meter_after, outcome_of, reached_at, silence_after};

use bm_operator::StepLimit;
use bm_session::Results;
use std::marker::Model;

/// How many ticks the end of a command is waited for that was interrupted, by a limit or a cancel.
const MOST_WAIT_TICKS: u32 = 1_000;

/// Counts the ticks of a step's command, and tells when it has reached a limit. A limit of 0 is
/// none. It counts while the lane is cut too: no worker is asked, since one that hangs would not
/// answer.
#[derive(Drop)]
pub struct StepMeter {
    max_bytes: u32,
    timeout_ticks: u32,
    silent_ticks: u32,
    /// How many bytes its updates had carried by the last tick.
    bytes: u64,
    /// For how many ticks they have carried nothing.
    silence: u32,
    /// How many ticks have passed: until a limit was reached, and since.
    ticks: u32,
    reached: Option<StepLimit>,
    /// How many ticks have passed since its build's cancel was seen.
    cancelled: Option<u32>,
}

impl Model for StepMeter {
    ghost use Rattle.bm_lane_actor.specs.StepMeter.{MeterView};

    ghost Value = { MeterView };

    ghost view = { λ m. record {
      max_bytes = m.max_bytes;
      timeout_ticks = m.timeout_ticks;
      silent_ticks = m.silent_ticks;
      ticks = m.ticks;
      bytes = m.bytes;
      silence = m.silence;
      reached = m.reached;
      cancelled = m.cancelled;
    } };
}

/// How many ticks have passed since a cancel was seen, a tick later.
fn cancelled_after(before: Option<u32>, is_cancelled: bool) -> Option<u32>
    ensures { result ≡ cancelled_after before is_cancelled }
{
    match before {
        Some(ticks) => Some(ticks.saturating_add(1)),
        None if is_cancelled => Some(0),
        None => None,
    }
}

impl StepMeter {
    /// The meter of a command that was just started.
    pub fn new(max_bytes: u32, timeout_ticks: u32, silent_ticks: u32) -> StepMeter
        ensures { result ≡ fresh max_bytes timeout_ticks silent_ticks }
    {
        StepMeter {
            max_bytes,
            timeout_ticks,
            silent_ticks,
            bytes: 0,
            silence: 0,
            ticks: 0,
            reached: None,
            cancelled: None,
        }
    }

    /// For how many ticks the command's updates have carried nothing, where they have carried so
    /// many bytes by now, a tick later.
    fn silence_after(&self, bytes: u64) -> u32
        ensures { result ≡ silence_after self.now bytes }
    {
        if bytes == self.bytes {
            self.silence.saturating_add(1)
        } else {
            0
        }
    }

    /// A tick has passed, and the command's updates have carried so many bytes by now.
    /// `is_cancelled`: its build is to be cancelled. The result is the limit that it thereby
    /// reaches; none where it had reached one before.
    pub fn tick(&mut self, bytes: u64, is_cancelled: bool) -> Option<StepLimit>
        ensures limit { result ≡ reached_at self.old bytes }
        ensures meter { self.new ≡ meter_after self.old bytes is_cancelled }
    {
        self.cancelled = cancelled_after(self.cancelled, is_cancelled);
        self.ticks = self.ticks.saturating_add(1);
        self.silence = self.silence_after(bytes);
        self.bytes = bytes;
        if self.reached.is_some() {
            return None;
        }
        let reached = if self.max_bytes > 0 && bytes > u64::from(self.max_bytes) {
            Some(StepLimit::Bytes)
        } else if self.timeout_ticks > 0 && self.ticks >= self.timeout_ticks {
            Some(StepLimit::Ticks)
        } else if self.silent_ticks > 0 && self.silence >= self.silent_ticks {
            Some(StepLimit::Silence)
        } else {
            None
        };
        if reached.is_some() {
            self.ticks = 0;
        }
        self.reached = reached;
        reached
    }

    /// Whether a limit was reached.
    pub fn has_reached(&self) -> bool
        ensures { result ≡ is_some self.now.reached }
    {
        self.reached.is_some()
    }

    /// Whether the end of a command that was interrupted isn't waited for any more.
    pub fn is_given_up(&self) -> bool
        ensures { result ≡ is_given_up self.now }
    {
        let is_late = match self.cancelled {
            Some(ticks) => ticks >= MOST_WAIT_TICKS,
            None => false,
        };
        is_late || self.reached.is_some() && self.ticks >= MOST_WAIT_TICKS
    }

    /// How the step ends whose command's end isn't waited for any more.
    pub fn given_up_result(&self) -> Results
        ensures { result ≡ given_up_result self.now }
    {
        if self.reached.is_some() {
            Results::Exception
        } else {
            Results::Cancelled
        }
    }

    /// How the step ends whose command ended so: EXCEPTION where it reached a limit, unless its
    /// session was given up.
    pub fn outcome(&self, ended: Results) -> Results
        ensures { result ≡ outcome_of self.now ended }
    {
        match ended {
            Results::Retry => ended,
            _ if self.reached.is_some() => Results::Exception,
            _ => ended,
        }
    }
}
