//! Which place a step has among those of its build.

ghost use Rattle.std.specs.Prelude.{◌≡◌, position};
ghost use Rattle.bm_runner.specs.StepPlaces.{is_alike, place_of};

use bm_board::StepPlan;

fn is_alike(always_run: bool, step: &StepPlan) -> bool
    ensures { result ≡ is_alike always_run step.now }
{
    if always_run {
        step.always_run
    } else {
        !step.always_run
    }
}

// The place of the first of these steps that always runs, or that doesn't.
fn find_alike(steps: &[StepPlan], always_run: bool) -> Option<usize>
    ensures { result ≡ position (is_alike always_run) steps.now }
{
    steps.iter().position(|step| is_alike(always_run, step))
}

/// The place of the step that a port is given, where `behind` steps of the build were run or left
/// out. Once one step is left out, only steps that always run are still run. So it is the first
/// step to come that always runs, where this one does, and else the first that doesn't.
pub fn place_of(steps: &[StepPlan], behind: usize, always_run: bool) -> Option<usize>
    ensures { result ≡ place_of steps.now behind always_run }
{
    if behind > steps.len() {
        return None;
    }
    match find_alike(&steps[behind..], always_run) {
        Some(after) => Some(behind + after),
        None => None,
    }
}
