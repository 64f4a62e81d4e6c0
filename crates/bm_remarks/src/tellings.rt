//! Which remark is told of what happens. It is a choice over what a configuration has, and takes
//! no memory.

ghost use Rattle.std.specs.Prelude.{◌≡◌, [], codes};
ghost use Rattle.bm_operator.specs.Remark.{told};
ghost use Rattle.bm_remarks.specs.Tellings.{key_told, lane_at, master_told, name_at, step_told, text_or};

use crate::reports::ReportedStep;
use bm_board::Build;
use bm_config::{UnknownKey, WorkerConfig};
use bm_lines::Text;
use bm_master::MasterRemark;
use bm_operator::{Remark, StepAt};

/// The name of the worker at this place, empty where there is none.
pub fn name_at(workers: &[WorkerConfig], at: usize) -> &str
    ensures { result.now ≡ name_at workers.now at }
{
    match workers.get(at) {
        Some(worker) => worker.name.as_str(),
        None => "",
    }
}

// The place of the worker of this build, 0 where there is no such build.
fn lane_at(builds: &[Build], number: u64) -> u64
    ensures { result ≡ lane_at builds.now number }
{
    match builds.get(number as usize) {
        Some(build) => build.worker as u64,
        None => 0,
    }
}

/// What is told of what the master's machine says.
pub fn master_remark(remark: MasterRemark, workers: &[WorkerConfig]) -> Remark<'_>
    ensures { told result ≡ master_told workers.now remark }
{
    match remark {
        MasterRemark::BuildStarted { build, worker } => Remark::BuildStarted {
            build,
            worker: name_at(workers, worker),
        },
        MasterRemark::BuildUnstarted { build } => Remark::BuildUnstarted { build },
        MasterRemark::BuildWaits { build, worker } => Remark::BuildWaits {
            build,
            worker: name_at(workers, worker),
        },
        MasterRemark::BuildEnded { build, result } => Remark::BuildEnded { build, result },
        MasterRemark::BuildMissing { build } => Remark::BuildMissing { build },
        MasterRemark::ProgramStarted { worker } => Remark::ProgramStarted {
            worker: name_at(workers, worker),
        },
        MasterRemark::ProgramFailed { worker, why } => Remark::ProgramFailed {
            worker: name_at(workers, worker),
            why,
        },
        MasterRemark::ProgramEnded { worker } => Remark::ProgramEnded {
            worker: name_at(workers, worker),
        },
    }
}

// The text, or this one where it is wanting.
fn text_or<'a>(text: &'a Option<Text>, other: &'a str) -> &'a str
    ensures { result.now ≡ text_or other.now text.now }
{
    match text {
        Some(text) => text.as_str(),
        None => other,
    }
}

/// The step of a report, by its place and its name.
pub fn step_at(reported: &ReportedStep) -> StepAt<'_>
    ensures place { result.place ≡ reported.now.place }
    ensures name { result.name.now ≡ text_or [] reported.now.name }
{
    StepAt {
        place: reported.place,
        name: text_or(&reported.name, ""),
    }
}

// What the worker said last of the step. Of a command without an exit code it may not say why.
fn said_in(reported: &ReportedStep) -> &str
    ensures { result.now ≡ text_or (codes "no exit code") reported.now.said }
{
    text_or(&reported.said, "no exit code")
}

/// What is told of what happened to this step of a build.
pub fn step_remark<'a>(
    reported: &'a ReportedStep,
    step: StepAt<'a>,
    builds: &[Build],
    workers: &'a [WorkerConfig],
) -> Remark<'a>
    ensures { told result ≡ step_told workers.now builds.now reported.now step.entry }
{
    let lane = lane_at(builds, reported.build);
    let worker = name_at(workers, lane as usize);
    let said = said_in(reported);
    let (build, lanes) = (reported.build, workers.len() as u64);
    reported
        .event
        .remark(build, lane, lanes, worker, step, said)
}

/// What is told of a key that nobody reads, whose place has this text.
pub fn key_remark<'a>(place: &'a str, unknown: &'a UnknownKey) -> Remark<'a>
    ensures { told result ≡ key_told place.now unknown.now.key unknown.now.near }
{
    let key = unknown.key.as_str();
    match unknown.near {
        Some(near) => {
            let near = near.name();
            Remark::MisspeltKey { place, key, near }
        }
        None => Remark::UnknownKey { place, key },
    }
}
