//! What a build does about cancels of it: which step one ends, what is told, and what is
//! interrupted.

ghost use Rattle.std.specs.Prelude.{◌≡◌};
ghost use Rattle.bm_lane_actor.specs.CancelPolicy.{cancel_acts, cancel_after, does_nothing, is_left_out, is_to_order, uncancelled};

use std::marker::Model;

/// What comes to the policy of a build's cancels.
#[derive(Clone, Copy)]
pub enum CancelInput {
    /// A step was started. `is_set`: it always runs, and a cancel was taken back for it.
    Started { is_set: bool },
    /// A step is left out for the cancel that is held.
    LeftOut,
    /// The lane refused a step, since the build's flag was set.
    Refused,
    /// The step's command runs. `is_cancelled`: the build's flag is set. `is_over`: it has reached
    /// a limit of its step.
    Runs { is_cancelled: bool, is_over: bool },
    /// Its interruption was asked for once more, by the build's runner.
    Asked,
    /// The lane's actor was handed the order to interrupt it. `is_kept`: there was memory for that.
    Ordered { is_kept: bool },
    /// The step has ended. `by_cancel`: CANCELLED.
    Ended { by_cancel: bool },
}

/// What is then to be done.
#[derive(Clone, Copy)]
pub struct CancelActs {
    /// It is told that the build obeys a cancel.
    pub tells: bool,
    /// The lane's actor gets the order to interrupt the command.
    pub interrupts: bool,
    /// The cancel is used up: the build's flag is taken back.
    pub uses_up: bool,
}

/// How far the interruption of a command has come.
#[derive(Clone, Copy)]
pub(crate) enum Interruption {
    NotWanted,
    /// It is to be ordered: memory was wanting for that.
    Wanted,
    Ordered,
}

/// The policy of a build's cancels. A cancel ends one step. Where that one always runs and isn't
/// running yet, it is the next that doesn't always run.
#[derive(Drop)]
pub struct CancelPolicy {
    /// Whether a cancel came before a step that always runs: it waits for one that doesn't.
    is_held: bool,
    /// Whether the cancel that the flag holds was told.
    is_told: bool,
    interruption: Interruption,
}

impl Model for CancelPolicy {
    ghost use Rattle.bm_lane_actor.specs.CancelPolicy.{CancelView};

    ghost Value = { CancelView };

    ghost view = { λ c. record {
      held = c.is_held;
      told = c.is_told;
      interruption = c.interruption;
    } };
}

// Nothing is to be done about a cancel.
pub(crate) fn does_nothing() -> CancelActs
    ensures { result ≡ does_nothing }
{
    CancelActs {
        tells: false,
        interrupts: false,
        uses_up: false,
    }
}

impl CancelPolicy {
    /// No cancel came.
    pub fn new() -> CancelPolicy
        ensures { result ≡ uncancelled }
    {
        CancelPolicy {
            is_held: false,
            is_told: false,
            interruption: Interruption::NotWanted,
        }
    }

    /// Whether a step is left out, for a cancel that is held.
    pub fn leaves_out(&self, always_run: bool) -> bool
        ensures { result ≡ is_left_out self.now.held always_run }
    {
        self.is_held && !always_run
    }

    /// Takes an input, and answers what is to be done.
    pub fn step(&mut self, input: CancelInput) -> CancelActs
        ensures policy { self.new ≡ cancel_after input self.old }
        ensures acts { result ≡ cancel_acts input self.old }
    {
        let is_told = self.is_told;
        let mut acts = does_nothing();
        match input {
            CancelInput::Started { is_set } => {
                acts.tells = is_set && !is_told;
                self.is_held = self.is_held || is_set;
                self.is_told = is_told && !is_set;
                self.interruption = Interruption::NotWanted;
            }
            CancelInput::LeftOut => self.is_held = false,
            CancelInput::Refused => {
                acts.tells = !is_told;
                acts.uses_up = true;
                self.is_told = false;
            }
            CancelInput::Runs {
                is_cancelled,
                is_over,
            } => {
                acts.tells = is_cancelled && !is_told;
                acts.interrupts = self.is_to_order(is_cancelled || is_over);
                self.is_told = is_told || is_cancelled;
            }
            CancelInput::Asked => acts.interrupts = self.is_to_order(true),
            CancelInput::Ordered { is_kept } => {
                self.interruption = if is_kept {
                    Interruption::Ordered
                } else {
                    Interruption::Wanted
                };
            }
            CancelInput::Ended { by_cancel } => {
                acts.uses_up = by_cancel;
                self.is_told = is_told && !by_cancel;
            }
        }
        acts
    }

    // Whether the order to interrupt the command is given now: it is wanted, and wasn't given.
    fn is_to_order(&self, is_wanted: bool) -> bool
        ensures { result ≡ is_to_order is_wanted self.now.interruption }
    {
        match self.interruption {
            Interruption::NotWanted => is_wanted,
            Interruption::Wanted => true,
            Interruption::Ordered => false,
        }
    }
}
