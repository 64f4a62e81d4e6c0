//! What remarks of workers and their programs say.

ghost use Rattle.std.specs.Prelude.{◌≡◌, IfOk, string_bytes};
ghost use Rattle.bm_operator.specs.Remark.{dismissed, filled, logged_in, program_ended, program_failed, program_started, resumed, shut_down, worker_cut, worker_lost};
ghost use Rattle.bm_operator.specs.Told.{shaped};

use crate::field::{RemarkField, Shape, shaped};
use crate::reasons::{LossCause, ProgramRefusal};
use std::alloc::{AllocError, Global};

pub(crate) fn logged_in(alloc: Global, shape: Shape, worker: &str) -> Result<String, AllocError>
    ensures { IfOk result (λ s. string_bytes s ≡ shaped shape (logged_in worker.now)) }
{
    shaped(
        alloc,
        shape,
        "worker_logged_in",
        &[RemarkField::Name("worker ", "worker", worker)],
        " logged in",
    )
}

pub(crate) fn resumed(alloc: Global, shape: Shape, worker: &str) -> Result<String, AllocError>
    ensures { IfOk result (λ s. string_bytes s ≡ shaped shape (resumed worker.now)) }
{
    shaped(
        alloc,
        shape,
        "worker_resumed",
        &[RemarkField::Name("worker ", "worker", worker)],
        " resumed",
    )
}

pub(crate) fn worker_cut(
    alloc: Global,
    shape: Shape,
    worker: &str,
    cause: LossCause,
) -> Result<String, AllocError>
    ensures { IfOk result (λ s. string_bytes s ≡ shaped shape (worker_cut worker.now cause)) }
{
    shaped(
        alloc,
        shape,
        "worker_cut",
        &[
            RemarkField::Name("worker ", "worker", worker),
            RemarkField::Word(" cut, ", "cause", cause.text()),
        ],
        "",
    )
}

// A worker's session ended.
pub(crate) fn worker_lost(
    alloc: Global,
    shape: Shape,
    worker: &str,
    cause: LossCause,
) -> Result<String, AllocError>
    ensures { IfOk result (λ s. string_bytes s ≡ shaped shape (worker_lost worker.now cause)) }
{
    shaped(
        alloc,
        shape,
        "worker_lost",
        &[
            RemarkField::Name("worker ", "worker", worker),
            RemarkField::Word(" lost, ", "cause", cause.text()),
        ],
        "",
    )
}

// A worker was told to shut down.
pub(crate) fn dismissed(alloc: Global, shape: Shape, worker: &str) -> Result<String, AllocError>
    ensures { IfOk result (λ s. string_bytes s ≡ shaped shape (dismissed worker.now)) }
{
    shaped(
        alloc,
        shape,
        "worker_told_to_shut_down",
        &[RemarkField::Name("worker ", "worker", worker)],
        " told to shut down",
    )
}

// A worker that was told to shut down is gone.
pub(crate) fn shut_down(alloc: Global, shape: Shape, worker: &str) -> Result<String, AllocError>
    ensures { IfOk result (λ s. string_bytes s ≡ shaped shape (shut_down worker.now)) }
{
    shaped(
        alloc,
        shape,
        "worker_shut_down",
        &[RemarkField::Name("worker ", "worker", worker)],
        " shut down",
    )
}

// A worker's lane takes nothing any more.
pub(crate) fn filled(alloc: Global, shape: Shape, worker: &str) -> Result<String, AllocError>
    ensures { IfOk result (λ s. string_bytes s ≡ shaped shape (filled worker.now)) }
{
    shaped(
        alloc,
        shape,
        "worker_full",
        &[RemarkField::Name("worker ", "worker", worker)],
        " full",
    )
}

pub(crate) fn program_started(
    alloc: Global,
    shape: Shape,
    worker: &str,
) -> Result<String, AllocError>
    ensures { IfOk result (λ s. string_bytes s ≡ shaped shape (program_started worker.now)) }
{
    shaped(
        alloc,
        shape,
        "program_started",
        &[RemarkField::Name("program of ", "worker", worker)],
        " started",
    )
}

pub(crate) fn program_failed(
    alloc: Global,
    shape: Shape,
    worker: &str,
    why: ProgramRefusal,
) -> Result<String, AllocError>
    ensures { IfOk result (λ s. string_bytes s ≡ shaped shape (program_failed worker.now why)) }
{
    shaped(
        alloc,
        shape,
        "program_not_started",
        &[
            RemarkField::Name("program of ", "worker", worker),
            RemarkField::Word(" not started, ", "cause", why.text()),
        ],
        "",
    )
}

pub(crate) fn program_ended(alloc: Global, shape: Shape, worker: &str) -> Result<String, AllocError>
    ensures { IfOk result (λ s. string_bytes s ≡ shaped shape (program_ended worker.now)) }
{
    shaped(
        alloc,
        shape,
        "program_ended",
        &[RemarkField::Name("program of ", "worker", worker)],
        " ended",
    )
}
