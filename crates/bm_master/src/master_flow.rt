//! What a master does next, how long it waits for its next event, and when its work is over.

ghost use Rattle.std.specs.Prelude.{◌≡◌};
ghost use Rattle.bm_master.specs.Flow.{begun_flow, flow_after, next_wait, step_of, taken};

use std::marker::Model;

/// What comes to the flow of a master's work.
#[derive(Clone, Copy, PartialEq, Eq)]
pub enum FlowInput {
    /// Builds may be started, or be over, that weren't before.
    Changed,
    /// Standard input has ended.
    InputEnded,
    /// What can be started was. `is_over`: each build has its result.
    Started { is_over: bool },
}

/// What a master does next.
#[derive(Clone, Copy, PartialEq, Eq)]
pub enum FlowStep {
    /// It starts the builds that can be started.
    Start,
    /// It writes the results of all builds.
    Report,
    /// It waits for its next event.
    Wait,
    /// It leaves.
    Leave,
}

/// The flow of a master's work.
#[derive(Drop)]
pub struct MasterFlow {
    /// Whether the queue is to be looked at, since builds may be started that weren't before.
    is_stale: bool,
    /// Whether standard input has ended.
    is_closed: bool,
    /// Whether each build has its result.
    is_over: bool,
    has_reported: bool,
}

impl Model for MasterFlow {
    ghost use Rattle.bm_master.specs.Flow.{FlowView};

    ghost Value = { FlowView };

    ghost view = { λ f. record {
      stale = f.is_stale;
      closed = f.is_closed;
      over = f.is_over;
      reported = f.has_reported;
    } };
}

impl MasterFlow {
    /// Nothing was started, and nothing is reported.
    pub fn new() -> MasterFlow
        ensures { result ≡ begun_flow }
    {
        MasterFlow {
            is_stale: true,
            is_closed: false,
            is_over: false,
            has_reported: false,
        }
    }

    /// Something came.
    pub fn hears(&mut self, input: FlowInput)
        ensures { self.new ≡ flow_after input self.old }
    {
        match input {
            FlowInput::Changed => self.is_stale = true,
            FlowInput::InputEnded => self.is_closed = true,
            FlowInput::Started { is_over } => self.is_over = is_over,
        }
    }

    /// What is to be done next. Who asks does it.
    pub fn take(&mut self) -> FlowStep
        ensures step { result ≡ step_of self.old }
        ensures taken { self.new ≡ taken (step_of self.old) self.old }
    {
        if self.is_stale {
            self.is_stale = false;
            return FlowStep::Start;
        }
        if self.is_over && !self.has_reported {
            self.has_reported = true;
            return FlowStep::Report;
        }
        if self.is_closed && self.has_reported {
            return FlowStep::Leave;
        }
        FlowStep::Wait
    }
}

/// For how long the next event is waited for.
#[derive(Clone, Copy, PartialEq, Eq)]
pub enum NextWait {
    /// For a tick at most: ticks count.
    Tick,
    /// For a second at most: something is told once a second has passed.
    Second,
    /// However long it takes.
    Event,
}

/// How long it waits. `is_timed`: ticks count. `is_counted`: something is told once a second has
/// passed.
pub fn next_wait(is_timed: bool, is_counted: bool) -> NextWait
    ensures { result ≡ next_wait is_timed is_counted }
{
    match (is_timed, is_counted) {
        (true, _) => NextWait::Tick,
        (false, true) => NextWait::Second,
        (false, false) => NextWait::Event,
    }
}
