//! A build's steps, run one after the other.

ghost use Rattle.std.specs.Prelude.{◌≡◌, ◌<◌, false, length, IfOk, OnErr};
ghost use Rattle.bm_runner.specs.Run.{IsRun, IsStepRun, counted, runs_at};

use crate::port::{Polled, Port};
use bm_board::{Build, Next, Outcomes, StepPlan, next_step};
use bm_session::Results;
use std::alloc::{AllocError, Global};

/// How a build's steps ended, and the build.
#[derive(Drop)]
pub struct Report {
    /// One outcome for each step.
    pub outcomes: Outcomes,
    pub result: Results,
}

impl Report {
    /// An equal report.
    pub fn copy(&self) -> Result<Report, AllocError>
        ensures { IfOk result (λ r. r ≡ self.now) }
    {
        Ok(Report {
            outcomes: self.outcomes.copy()?,
            result: self.result,
        })
    }
}

/// Runs the build's steps one after the other. A step whose start is refused is RETRY. A command
/// that ended SKIPPED is EXCEPTION. So is one that has no end after `turns` polls, which is
/// interrupted. A command is interrupted when its port first says that the build is cancelled.
/// Errors: want of memory, before anything was started.
pub fn run_build<P: Port>(
    alloc: Global,
    build: &Build,
    port: &mut P,
    turns: u64,
) -> Result<Report, AllocError>
    requires { P.refused port.old ≡ false }
    ensures run { IfOk result
        (IsRun build.now.steps turns (P.told port.old) (P.told port.new) (P.refused port.new)) }
    ensures unchanged { OnErr result (port.new ≡ port.old) }
{
    let steps = build.steps.as_slice();
    let mut outcomes = Outcomes::skipped(alloc, steps.len())?;
    for place in 0..steps.len() {
        if runs_at(steps, outcomes.as_slice(), place) {
            outcomes.set(place, run_step(&steps[place], port, turns));
        }
    }
    match next_step(steps, outcomes.as_slice()) {
        Next::Ended(result) => Ok(Report { outcomes, result }),
        Next::Step(_) => unreachable!(),
    }
}

// Whether the step at the place runs after the outcomes before it.
fn runs_at(steps: &[StepPlan], outcomes: &[Results], place: usize) -> bool
    requires step { place < length steps.now }
    requires outcome { place < length outcomes.now }
    ensures { result ≡ runs_at steps.now outcomes.now place }
{
    match next_step(steps, &outcomes[..place]) {
        Next::Step(next) => next == place,
        Next::Ended(_) => false,
    }
}

// Runs one step to its end.
fn run_step<P: Port>(step: &StepPlan, port: &mut P, turns: u64) -> Results
    requires { P.refused port.old ≡ false }
    ensures { IsStepRun turns (P.told port.old) (P.told port.new) (P.refused port.new) result }
{
    let Some(k) = port.start(step) else {
        return Results::Retry;
    };
    let mut interrupted = false;
    for _ in 0..turns {
        match port.poll(k) {
            Polled::Running => {}
            Polled::Cancel => {
                if !interrupted {
                    port.interrupt(k);
                    interrupted = true;
                }
            }
            Polled::Ended(outcome) => return counted(outcome),
        }
    }
    port.interrupt(k);
    Results::Exception
}

// The outcome of a step whose command ended so.
fn counted(outcome: Results) -> Results
    ensures { result ≡ counted outcome }
{
    match outcome {
        Results::Skipped => Results::Exception,
        _ => outcome,
    }
}
