//! What remarks of builds and their steps say.

ghost use Rattle.std.specs.Prelude.{◌≡◌, IfOk, string_bytes};
ghost use Rattle.bm_operator.specs.Remark.{build_cancelled, build_ended, build_missing, build_started, build_unstarted, build_waits, log_number, step_ended, step_failed, step_refused, step_started, step_stopped};
ghost use Rattle.bm_operator.specs.Told.{shaped};

use crate::field::{RemarkField, Shape, shaped};
use crate::log_id::LogId;
use crate::reasons::{StartRefusal, StepLimit};
use crate::step_at::StepAt;
use bm_session::Results;
use std::alloc::{AllocError, Global};

pub(crate) fn build_missing(alloc: Global, shape: Shape, build: u64) -> Result<String, AllocError>
    ensures { IfOk result (λ s. string_bytes s ≡ shaped shape (build_missing build)) }
{
    shaped(
        alloc,
        shape,
        "build_not_there",
        &[RemarkField::Number("build ", "build", u128::from(build))],
        " is not there",
    )
}

pub(crate) fn build_waits(
    alloc: Global,
    shape: Shape,
    build: u64,
    worker: &str,
) -> Result<String, AllocError>
    ensures { IfOk result (λ s. string_bytes s ≡ shaped shape (build_waits build worker.now)) }
{
    shaped(
        alloc,
        shape,
        "build_waits",
        &[
            RemarkField::Number("build ", "build", u128::from(build)),
            RemarkField::Name(" waits for ", "worker", worker),
        ],
        "",
    )
}

// A build that waits for its thread.
pub(crate) fn build_unstarted(alloc: Global, shape: Shape, build: u64) -> Result<String, AllocError>
    ensures { IfOk result (λ s. string_bytes s ≡ shaped shape (build_unstarted build)) }
{
    shaped(
        alloc,
        shape,
        "build_waits_for_thread",
        &[RemarkField::Number("build ", "build", u128::from(build))],
        " waits for a thread",
    )
}

pub(crate) fn build_started(
    alloc: Global,
    shape: Shape,
    build: u64,
    worker: &str,
) -> Result<String, AllocError>
    ensures { IfOk result (λ s. string_bytes s ≡ shaped shape (build_started build worker.now)) }
{
    shaped(
        alloc,
        shape,
        "build_started",
        &[
            RemarkField::Number("build ", "build", u128::from(build)),
            RemarkField::Name(" started on ", "worker", worker),
        ],
        "",
    )
}

pub(crate) fn build_ended(
    alloc: Global,
    shape: Shape,
    build: u64,
    how: Results,
) -> Result<String, AllocError>
    ensures { IfOk result (λ s. string_bytes s ≡ shaped shape (build_ended build how)) }
{
    shaped(
        alloc,
        shape,
        "build_ended",
        &[
            RemarkField::Number("build ", "build", u128::from(build)),
            RemarkField::Word(" ended ", "result", how.name()),
        ],
        "",
    )
}

// A build that is to be cancelled.
pub(crate) fn build_cancelled(alloc: Global, shape: Shape, build: u64) -> Result<String, AllocError>
    ensures { IfOk result (λ s. string_bytes s ≡ shaped shape (build_cancelled build)) }
{
    shaped(
        alloc,
        shape,
        "build_cancelled",
        &[RemarkField::Number("build ", "build", u128::from(build))],
        " to be cancelled",
    )
}

pub(crate) fn step_started(
    alloc: Global,
    shape: Shape,
    build: u64,
    log: LogId,
    step: StepAt<'_>,
) -> Result<String, AllocError>
    ensures { IfOk result (λ s. string_bytes s ≡ shaped shape (step_started build (log_number log) step.entry)) }
{
    shaped(
        alloc,
        shape,
        "step_started",
        &[
            RemarkField::Number("build ", "build", u128::from(build)),
            RemarkField::Number(" step started, log ", "log", log.number()),
            RemarkField::Member("place", step.place),
            RemarkField::Name(": ", "step", step.name),
        ],
        "",
    )
}

pub(crate) fn step_refused(
    alloc: Global,
    shape: Shape,
    build: u64,
    why: StartRefusal,
    step: StepAt<'_>,
) -> Result<String, AllocError>
    ensures { IfOk result (λ s. string_bytes s ≡ shaped shape (step_refused build why step.entry)) }
{
    shaped(
        alloc,
        shape,
        "step_not_started",
        &[
            RemarkField::Number("build ", "build", u128::from(build)),
            RemarkField::Word(" step not started, ", "cause", why.text()),
            RemarkField::Member("place", step.place),
            RemarkField::Name(": ", "step", step.name),
        ],
        "",
    )
}

// A step that reached a limit.
pub(crate) fn step_stopped(
    alloc: Global,
    shape: Shape,
    build: u64,
    log: LogId,
    limit: StepLimit,
    step: StepAt<'_>,
) -> Result<String, AllocError>
    ensures { IfOk result (λ s. string_bytes s ≡ shaped shape (step_stopped build (log_number log) limit step.entry)) }
{
    shaped(
        alloc,
        shape,
        "step_stopped",
        &[
            RemarkField::Number("build ", "build", u128::from(build)),
            RemarkField::Word(" step stopped, ", "cause", limit.text()),
            RemarkField::Number(", log ", "log", log.number()),
            RemarkField::Member("place", step.place),
            RemarkField::Name(": ", "step", step.name),
        ],
        "",
    )
}

// A step whose command has no exit code.
pub(crate) fn step_failed<'a>(
    alloc: Global,
    shape: Shape,
    build: u64,
    log: LogId,
    worker: &'a str,
    said: &'a str,
    step: StepAt<'a>,
) -> Result<String, AllocError>
    ensures { IfOk result (λ s. string_bytes s ≡ shaped shape (step_failed build (log_number log) worker.now said.now step.entry)) }
{
    shaped(
        alloc,
        shape,
        "step_failed",
        &[
            RemarkField::Number("build ", "build", u128::from(build)),
            RemarkField::Name(" step failed on ", "worker", worker),
            RemarkField::Name(", ", "cause", said),
            RemarkField::Number(", log ", "log", log.number()),
            RemarkField::Member("place", step.place),
            RemarkField::Name(": ", "step", step.name),
        ],
        "",
    )
}

pub(crate) fn step_ended(
    alloc: Global,
    shape: Shape,
    build: u64,
    log: LogId,
    how: Results,
    step: StepAt<'_>,
) -> Result<String, AllocError>
    ensures { IfOk result (λ s. string_bytes s ≡ shaped shape (step_ended build (log_number log) how step.entry)) }
{
    shaped(
        alloc,
        shape,
        "step_ended",
        &[
            RemarkField::Number("build ", "build", u128::from(build)),
            RemarkField::Word(" step ended ", "result", how.name()),
            RemarkField::Number(", log ", "log", log.number()),
            RemarkField::Member("place", step.place),
            RemarkField::Name(": ", "step", step.name),
        ],
        "",
    )
}
