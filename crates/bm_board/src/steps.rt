//! Which step of a build is next, and its result.

ghost use Rattle.std.specs.Prelude.{◌≡◌, ℕ, ◌<◌, ◌≤◌, length, position, drop, fold};
ghost use Rattle.std.specs.List.{list_any, zip};
ghost use Rattle.bm_board.specs.Steps.{contribution, halts, is_halted, is_over, next_of, rank, result_of, runs, worse};

use crate::plan::StepPlan;
use bm_session::Results;

/// What follows in a build.
#[derive(Clone, Copy, Debug, PartialEq, Eq)]
pub enum Next {
    /// The step at this place runs next.
    Step(usize),
    /// No further step runs: the build has this result.
    Ended(Results),
}

/// What follows after these outcomes of the first steps, those of skipped steps too.
pub fn next_step(steps: &[StepPlan], outcomes: &[Results]) -> Next
    requires { length outcomes.now ≤ length steps.now }
    ensures { result ≡ next_of steps.now outcomes.now }
{
    let over = is_over(outcomes);
    let halted = is_halted(steps, outcomes);
    match find_running(&steps[outcomes.len()..], over, halted) {
        Some(after) => Next::Step(outcomes.len() + after),
        None => Next::Ended(result_of(steps, outcomes)),
    }
}

// The place of the first of these steps that runs.
fn find_running(steps: &[StepPlan], over: bool, halted: bool) -> Option<usize>
    ensures { result ≡ position (runs over halted) steps.now }
{
    steps.iter().position(|step| runs(over, halted, step))
}

fn runs(over: bool, halted: bool, step: &StepPlan) -> bool
    ensures { result ≡ runs over halted step.now }
{
    !over && (!halted || step.always_run)
}

// Whether a step ended RETRY.
fn is_over(outcomes: &[Results]) -> bool
    ensures { result ≡ is_over outcomes.now }
{
    outcomes.contains(&Results::Retry)
}

// Whether a step halted the build.
fn is_halted(steps: &[StepPlan], outcomes: &[Results]) -> bool
    ensures { result ≡ is_halted steps.now outcomes.now }
{
    steps
        .iter()
        .zip(outcomes)
        .any(|(step, outcome)| halts(step, *outcome))
}

fn halts(step: &StepPlan, outcome: Results) -> bool
    ensures { result ≡ halts step.now outcome }
{
    match outcome {
        Results::Failure => step.halt_on_failure,
        Results::Exception | Results::Cancelled => true,
        _ => false,
    }
}

// The result of a build whose steps ended so.
fn result_of(steps: &[StepPlan], outcomes: &[Results]) -> Results
    ensures { result ≡ result_of steps.now outcomes.now }
{
    steps
        .iter()
        .zip(outcomes)
        .fold(Results::Success, |worst, (step, outcome)| {
            worse(worst, contribution(step, *outcome))
        })
}

fn contribution(step: &StepPlan, outcome: Results) -> Results
    ensures { result ≡ contribution step.now outcome }
{
    match outcome {
        Results::Failure if !step.flunk_on_failure => Results::Success,
        _ => outcome,
    }
}

fn worse(a: Results, b: Results) -> Results
    ensures { result ≡ worse a b }
{
    if rank(a) < rank(b) { b } else { a }
}

// The place of an outcome from best to worst.
fn rank(outcome: Results) -> u8
    ensures { result ≡ rank outcome }
{
    match outcome {
        Results::Skipped => 0,
        Results::Success => 1,
        Results::Warnings => 2,
        Results::Failure => 3,
        Results::Exception => 4,
        Results::Retry => 5,
        Results::Cancelled => 6,
    }
}
