//! Callers of the runner of a build's steps.

ghost use Rattle.std.specs.Prelude.{◌≡◌, ◌≢◌, ◌<◌, ◌++◌, ◌∷◌, [], true, false, length, IfOk, OnOk, Some};
ghost use Rattle.bm_board.specs.declared.plan.StepPlan.{StepPlan};
ghost use Rattle.bm_runner.specs.declared.port.Told.{Told};
ghost use Rattle.bm_session.specs.declared.results.Results.TheVariants.{Failure};

use bm_board::Build;
use bm_runner::{Port, Report, run_build};
use std::alloc::{AllocError, Global};

/// Of a build that has steps one is started, unless that start is refused. Which one it is, a port
/// doesn't tell.
pub fn some_step_is_started<P: Port>(
    alloc: Global,
    build: &Build,
    port: &mut P,
    turns: u64,
) -> Result<Report, AllocError>
    requires some_step { 0 < length build.now.steps }
    requires accepts { P.refused port.old ≡ false }
    ensures { OnOk result
        (P.refused port.new ≡ false → P.told port.new ≢ P.told port.old) }
{
    run_build(alloc, build, port, turns)
}

/// Where the command of a build's only step fails, and that is to fail the build, the report says
/// so of both.
pub fn failure_is_reported<P: Port>(
    alloc: Global,
    build: &Build,
    port: &mut P,
    turns: u64,
) -> Result<Report, AllocError>
    requires one_step { (step : StepPlan) × (build.now.steps ≡ step ∷ [])
        × (step.flunk_on_failure ≡ true) }
    requires accepts { P.refused port.old ≡ false }
    ensures { IfOk result (λ r. (entry : Told) → P.told port.new ≡ P.told port.old ++ entry ∷ []
        → entry.ended ≡ Some Failure → (r.outcomes ≡ Failure ∷ []) × (r.result ≡ Failure)) }
{
    run_build(alloc, build, port, turns)
}
