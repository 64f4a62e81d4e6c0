//! What a build does with its steps, one after the other. It says which is left out, and what is
//! told of cancels and limits. It says when a command is interrupted, and how a step ends.

ghost use Rattle.std.specs.Prelude.{◌≡◌};
ghost use Rattle.bm_lane_actor.specs.CancelPolicy.{cancel_acts, cancel_after, does_nothing};
ghost use Rattle.bm_lane_actor.specs.StepMachine.{ended, heard, heard_acts, is_failure, is_loss, is_lost, limit_seen, limited, only_says, step_acts, step_after, tick_acts, tick_after, ticked, unstarted, uses_up};
ghost use Rattle.bm_lane_actor.specs.declared.step_machine.StepInput.TheVariants as step;
ghost use Rattle.bm_runner.specs.declared.port.Polled.TheVariants as said;

use crate::cancel_policy::{CancelActs, CancelInput, CancelPolicy, does_nothing};
use crate::step_meter::StepMeter;
use bm_operator::{StartRefusal, StepLimit};
use bm_runner::Polled;
use bm_session::Results;
use std::marker::Model;

/// What comes to the machine of a build's steps.
#[derive(Clone, Copy)]
pub enum StepInput {
    /// The next step comes.
    Next {
        always_run: bool,
    },
    /// Its command was started, with these limits. `is_set`: it always runs, and a cancel was taken
    /// back for it.
    Started {
        max_bytes: u32,
        timeout_ticks: u32,
        silent_ticks: u32,
        is_set: bool,
    },
    /// The lane didn't start it.
    Refused(StartRefusal),
    /// Its command was seen so, before the tick was over.
    Seen(Polled),
    /// Its command was seen so when the tick was over, or it has ended. Its updates have carried so
    /// many bytes.
    Ticked(Polled, u64),
    /// The build's runner interrupts the command.
    Interrupt,
    /// The lane's actor was handed the order to interrupt it. `is_kept`: there was memory for that.
    Ordered {
        is_kept: bool,
    },
}

/// What is then to be done.
#[derive(Clone, Copy)]
pub struct StepActs {
    /// What is done about a cancel. It comes behind what is told of a limit.
    pub cancel: CancelActs,
    /// The command has reached this limit just now: that is told.
    pub limit: Option<StepLimit>,
    /// How the step does, where its command was seen.
    pub said: Polled,
    /// The step has failed without a limit: that is told before its end.
    pub is_failure: bool,
    /// Its command ended by the loss of its worker: that is to be told before its end.
    pub is_loss: bool,
}

/// The machine of a build's steps.
#[derive(Drop)]
pub struct StepMachine {
    /// What is done about cancels, and what is interrupted.
    cancels: CancelPolicy,
    /// The limits of the last step that was started.
    meter: StepMeter,
    /// Whether the last step has no command, since its build was cancelled before.
    is_none: bool,
}

impl Model for StepMachine {
    ghost use Rattle.bm_lane_actor.specs.StepMachine.{StepView};

    ghost Value = { StepView };

    ghost view = { λ m. record { cancels = m.cancels; meter = m.meter; none = m.is_none } };
}

// Whether a command that ended so did by the loss of its lane.
fn is_lost(outcome: Results) -> bool
    ensures { result ≡ is_lost outcome }
{
    outcome == Results::Retry
}

fn only_says(said: Polled, cancel: CancelActs) -> StepActs
    ensures { result ≡ only_says said cancel }
{
    StepActs {
        cancel,
        limit: None,
        said,
        is_failure: false,
        is_loss: false,
    }
}

// Whether the step ended by the loss of its lane.
fn is_loss(said: Polled) -> bool
    ensures { result ≡ is_loss said }
{
    match said {
        Polled::Ended(outcome) => is_lost(outcome),
        _ => false,
    }
}

impl StepMachine {
    /// Nothing was started, and no cancel came.
    pub fn new() -> StepMachine
        ensures { result ≡ unstarted }
    {
        StepMachine {
            cancels: CancelPolicy::new(),
            meter: StepMeter::new(0, 0, 0),
            is_none: false,
        }
    }

    /// Whether the last step has no command: its build was cancelled before it was started, and so
    /// it ended CANCELLED.
    pub fn has_no_command(&self) -> bool
        ensures { result ≡ self.now.none }
    {
        self.is_none
    }

    /// Takes an input, and answers what is to be done.
    pub fn step(&mut self, input: StepInput) -> StepActs
        ensures machine { self.new ≡ step_after input self.old }
        ensures acts { result ≡ step_acts input self.old }
    {
        match input {
            StepInput::Next { always_run } => self.next(always_run),
            StepInput::Started {
                max_bytes,
                timeout_ticks,
                silent_ticks,
                is_set,
            } => {
                self.meter = StepMeter::new(max_bytes, timeout_ticks, silent_ticks);
                self.is_none = false;
                self.follows(CancelInput::Started { is_set })
            }
            StepInput::Refused(why) => self.refused(why),
            StepInput::Seen(said) => only_says(said, self.hears(said, false)),
            StepInput::Ticked(said, bytes) => self.tick(said, bytes),
            StepInput::Interrupt => self.follows(CancelInput::Asked),
            StepInput::Ordered { is_kept } => self.follows(CancelInput::Ordered { is_kept }),
        }
    }

    // An input comes to the policy of cancels alone.
    fn follows(&mut self, input: CancelInput) -> StepActs
        ensures machine { self.new ≡ record self.old { cancels = cancel_after input self.old.cancels } }
        ensures acts { result ≡ only_says said.Running (cancel_acts input self.old.cancels) }
    {
        only_says(Polled::Running, self.cancels.step(input))
    }

    // The next step has no command where it is left out for a cancel that is held.
    fn next(&mut self, always_run: bool) -> StepActs
        ensures machine { self.new ≡ step_after (step.Next always_run) self.old }
        ensures acts { result ≡ step_acts (step.Next always_run) self.old }
    {
        self.is_none = self.cancels.leaves_out(always_run);
        if self.is_none {
            self.cancels.step(CancelInput::LeftOut);
        }
        only_says(Polled::Running, does_nothing())
    }

    // A step that the lane didn't start for a cancel has no command.
    fn refused(&mut self, why: StartRefusal) -> StepActs
        ensures machine { self.new ≡ step_after (step.Refused why) self.old }
        ensures acts { result ≡ step_acts (step.Refused why) self.old }
    {
        self.is_none = why == StartRefusal::Cancelled;
        let acts = if self.is_none {
            self.cancels.step(CancelInput::Refused)
        } else {
            does_nothing()
        };
        only_says(Polled::Running, acts)
    }

    // The policy of cancels hears how the command is seen to do, and whether it has just reached a
    // limit.
    fn hears(&mut self, seen: Polled, is_over: bool) -> CancelActs
        ensures machine { self.new ≡ record self.old { cancels = heard seen is_over self.old.cancels } }
        ensures acts { result ≡ heard_acts seen is_over self.old.cancels }
    {
        match seen {
            Polled::Ended(_) => does_nothing(),
            _ => self.cancels.step(CancelInput::Runs {
                is_cancelled: seen == Polled::Cancel,
                is_over,
            }),
        }
    }

    // The limit that the command reaches by this tick.
    fn limit(&mut self, seen: Polled, bytes: u64) -> Option<StepLimit>
        ensures machine { self.new ≡ record self.old { meter = ticked self.old.meter bytes seen } }
        ensures limit { result ≡ limit_seen self.old.meter bytes seen }
    {
        match seen {
            Polled::Ended(_) => None,
            _ => self.meter.tick(bytes, seen == Polled::Cancel),
        }
    }

    // What the limits make of how the command is seen to do.
    fn at_limits(&self, seen: Polled) -> Polled
        ensures { result ≡ limited self.now.meter seen }
    {
        match seen {
            Polled::Ended(outcome) => Polled::Ended(self.meter.outcome(outcome)),
            _ if self.meter.is_given_up() => Polled::Ended(self.meter.given_up_result()),
            _ => seen,
        }
    }

    // The policy of cancels hears that the step has ended, if it has. The answer is whether that
    // uses up a cancel.
    fn ends(&mut self, said: Polled) -> bool
        ensures machine { self.new ≡ record self.old { cancels = ended said self.old.cancels } }
        ensures used_up { result ≡ uses_up said }
    {
        let Polled::Ended(outcome) = said else {
            return false;
        };
        let by_cancel = outcome == Results::Cancelled;
        self.cancels.step(CancelInput::Ended { by_cancel }).uses_up
    }

    // Whether the step has failed without a limit.
    fn is_failure(&self, said: Polled) -> bool
        ensures { result ≡ is_failure self.now.meter said }
    {
        match said {
            Polled::Ended(Results::Exception) => !self.meter.has_reached(),
            _ => false,
        }
    }

    // A tick is over, or the command has ended. A step that has ended uses up the cancel that ended
    // it.
    fn tick(&mut self, seen: Polled, bytes: u64) -> StepActs
        ensures machine { self.new ≡ tick_after seen bytes self.old }
        ensures acts { result ≡ tick_acts seen bytes self.old }
    {
        let limit = self.limit(seen, bytes);
        let mut cancel = self.hears(seen, limit.is_some());
        let said = self.at_limits(seen);
        cancel.uses_up = self.ends(said);
        StepActs {
            cancel,
            limit,
            said,
            is_failure: self.is_failure(said),
            is_loss: is_loss(said),
        }
    }
}
