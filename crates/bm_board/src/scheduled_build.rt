//! A build on the board: where it stands and what each call does to it.

ghost use Rattle.std.specs.Prelude.{◌≡◌, ◌+◌, length, replicate, take, [], true, false, Ok};
ghost use Rattle.bm_board.specs.Steps.{next_of};
ghost use Rattle.bm_board.specs.ScheduledBuild.{IsSameHolder, answer_of, cancel, finish, first_of, give_up, is_holding, is_unreleased, is_waiting, job_after, phase_of, release, result_in, started, waiting, waits_for};

use crate::outcomes::Outcomes;
use crate::plan::{Build, LockUse};
use crate::refusal::BoardRefusal;
use crate::steps::{Next, next_step};
use bm_session::Results;
use std::alloc::Global;
use std::marker::Model;

/// Where a build stands.
#[derive(Clone, Copy)]
pub enum Phase {
    /// It was not started.
    Waiting,
    /// The step runs. Where the build was cancelled meanwhile, the step will count as CANCELLED.
    Running { step: usize, cancelled: bool },
    /// It has its result, and holds its slot and its locks or gave them back.
    Over { result: Results, holds: bool },
}

/// A build that was started: where it runs, and its first step.
#[derive(Clone, Copy, PartialEq, Eq)]
pub struct Started {
    /// The worker's place on the board.
    pub worker: usize,
    pub next: Next,
}

/// A build, with where it stands and the outcomes of its steps so far.
#[derive(Drop)]
pub struct ScheduledBuild {
    build: Build,
    phase: Phase,
    outcomes: Outcomes,
}

impl Model for ScheduledBuild {
    ghost use Rattle.std.specs.Prelude.{IsTrue, length};
    ghost use Rattle.bm_board.specs.ScheduledBuild.{BuildState, is_sound};

    ghost Value = { BuildState };

    ghost view = { λ j. record { build = j.build; phase = j.phase; outcomes = j.outcomes } };

    ghost invariant = { λ j. IsTrue (is_sound j.phase (length j.build.steps) (length j.outcomes)) };
}

impl ScheduledBuild {
    /// A build that waits.
    pub fn new(alloc: Global, build: Build) -> ScheduledBuild
        ensures { result ≡ waiting build }
    {
        ScheduledBuild {
            build,
            phase: Phase::Waiting,
            outcomes: Outcomes::new(alloc),
        }
    }

    /// The build as it was added: its worker, its locks and its steps.
    pub fn build(&self) -> &Build
        ensures { result.now ≡ self.now.build }
    {
        &self.build
    }

    /// The build as it was added, by value.
    pub fn into_build(self) -> Build
        ensures { result ≡ self.build }
    {
        self.build
    }

    /// Whether it waits: it was not started, and has no result.
    pub fn is_waiting(&self) -> bool
        ensures { result ≡ is_waiting self.now.phase }
    {
        matches!(self.phase, Phase::Waiting)
    }

    /// Whether it waits, and for this worker.
    pub fn is_waiting_for(&self, worker: usize) -> bool
        ensures { result ≡ waits_for worker self.now }
    {
        self.is_waiting() && self.build.worker == worker
    }

    /// The result of a build that is over.
    pub fn result(&self) -> Option<Results>
        ensures { result ≡ result_in self.now.phase }
    {
        match self.phase {
            Phase::Over { result, .. } => Some(result),
            _ => None,
        }
    }

    /// Starts the build, with an outcome for each step.
    pub fn start(&mut self, outcomes: Outcomes) -> Next
        requires { outcomes ≡ replicate (length self.old.build.steps) Results.Skipped }
        ensures next { result ≡ first_of self.old }
        ensures job { self.new ≡ started self.old }
    {
        let next = next_step(self.build.steps.as_slice(), &[]);
        self.outcomes = outcomes;
        self.phase = phase_of(next);
        next
    }

    /// The step that runs ends so.
    pub fn finish(&mut self, outcome: Results) -> Result<Next, BoardRefusal>
        ensures answer { result ≡ answer_of (finish outcome self.old) }
        ensures job { self.new ≡ job_after self.old (finish outcome self.old) }
        ensures holder { IsSameHolder self.old self.new }
        ensures waits { is_waiting self.new.phase ≡ is_waiting self.old.phase }
    {
        let Phase::Running { step, cancelled } = self.phase else {
            return Err(BoardRefusal::NotRunning);
        };
        let counts = if cancelled {
            Results::Cancelled
        } else {
            outcome
        };
        self.outcomes.set(step, counts);
        let next = next_step(
            self.build.steps.as_slice(),
            &self.outcomes.as_slice()[..step + 1],
        );
        self.phase = phase_of(next);
        Ok(next)
    }

    /// Cancels the build, and tells whether it runs.
    pub fn cancel(&mut self) -> Result<bool, BoardRefusal>
        ensures answer { result ≡ answer_of (cancel self.old) }
        ensures job { self.new ≡ job_after self.old (cancel self.old) }
        ensures holder { IsSameHolder self.old self.new }
        ensures waits { is_waiting self.new.phase ≡ false }
    {
        match self.phase {
            Phase::Waiting => {
                self.phase = Phase::Over {
                    result: Results::Cancelled,
                    holds: false,
                };
                Ok(false)
            }
            Phase::Running { step, .. } => {
                self.phase = Phase::Running {
                    step,
                    cancelled: true,
                };
                Ok(true)
            }
            Phase::Over { .. } => Err(BoardRefusal::NotRunning),
        }
    }

    /// Gives a waiting build up.
    pub fn give_up(&mut self) -> Result<(), BoardRefusal>
        ensures answer { result ≡ answer_of (give_up self.old) }
        ensures job { self.new ≡ job_after self.old (give_up self.old) }
        ensures holder { IsSameHolder self.old self.new }
        ensures waits { is_waiting self.new.phase ≡ false }
    {
        if !self.is_waiting() {
            return Err(BoardRefusal::NotWaiting);
        }
        self.phase = Phase::Over {
            result: Results::Retry,
            holds: false,
        };
        Ok(())
    }

    /// Whether the build is over and holds its slot and its locks.
    pub fn is_unreleased(&self) -> bool
        ensures { result ≡ is_unreleased self.now.phase }
    {
        matches!(self.phase, Phase::Over { holds: true, .. })
    }

    /// Gives back what a build that is over holds.
    pub fn release(&mut self)
        requires { is_unreleased self.old.phase ≡ true }
        ensures job { release self.old ≡ Ok (self.new, tt) }
        ensures build { self.new.build ≡ self.old.build }
        ensures before { is_holding self.old.phase ≡ true }
        ensures after { is_holding self.new.phase ≡ false }
        ensures waits { is_waiting self.new.phase ≡ is_waiting self.old.phase }
    {
        if let Phase::Over { result, .. } = self.phase {
            self.phase = Phase::Over {
                result,
                holds: false,
            };
        }
    }
}

// The phase of a started build that goes on so.
fn phase_of(next: Next) -> Phase
    ensures { result ≡ phase_of next }
{
    match next {
        Next::Step(step) => Phase::Running {
            step,
            cancelled: false,
        },
        Next::Ended(result) => Phase::Over {
            result,
            holds: true,
        },
    }
}
