//! What each remark says, in both of its forms.

ghost use Rattle.std.specs.Prelude.{◌≡◌, IfOk, string_bytes};
ghost use Rattle.bm_operator.specs.Remark.{remark_line, remark_object, told};
ghost use Rattle.bm_operator.specs.Told.{shaped};

use crate::build_parts::{
    build_cancelled, build_ended, build_missing, build_started, build_unstarted, build_waits,
    step_ended, step_failed, step_refused, step_started, step_stopped,
};
use crate::field::Shape;
use crate::remark::Remark;
use crate::remark_parts::{
    connection_refused, counted, input_unknown, login_refused, misspelt_key, more_refused,
    not_told, paused, unknown_key,
};
use crate::worker_parts::{
    dismissed, filled, logged_in, program_ended, program_failed, program_started, resumed,
    shut_down, worker_cut, worker_lost,
};
use std::alloc::{AllocError, Global};
use std::io;
use std::io::Write;

impl Remark<'_> {
    /// The line, with its line end: the only one in it.
    pub fn line(&self, alloc: Global) -> Result<String, AllocError>
        ensures { IfOk result (λ s. string_bytes s ≡ remark_line self.now) }
    {
        self.told(alloc, Shape::Line)
    }

    /// The object of JSON for programs, on one line with its line end, so many milliseconds after
    /// the master's start.
    pub fn object(&self, alloc: Global, ms: u64) -> Result<String, AllocError>
        ensures { IfOk result (λ s. string_bytes s ≡ remark_object ms self.now) }
    {
        self.told(alloc, Shape::Object(ms))
    }

    /// Writes the line by one `write_all`. Where memory was wanting nothing is written.
    pub fn write<W: Write>(&self, alloc: Global, output: &mut W) -> io::Result<()> {
        let line = self.line(alloc)?;
        output.write_all(line.as_bytes())
    }

    // The remark in this form. The table of cases is one function: a part of it would need a
    // condition that says which remarks come to it.
    fn told(&self, a: Global, shape: Shape) -> Result<String, AllocError>
        ensures { IfOk result (λ s. string_bytes s ≡ shaped shape (told self.now)) }
    {
        match *self {
            Remark::LoggedIn { worker } => logged_in(a, shape, worker),
            Remark::Resumed { worker } => resumed(a, shape, worker),
            Remark::Cut { worker, cause } => worker_cut(a, shape, worker, cause),
            Remark::Lost { worker, cause } => worker_lost(a, shape, worker, cause),
            Remark::Dismissed { worker } => dismissed(a, shape, worker),
            Remark::ShutDown { worker } => shut_down(a, shape, worker),
            Remark::Filled { worker } => filled(a, shape, worker),
            Remark::LoginRefused { name, from, why } => login_refused(a, shape, name, from, why),
            Remark::ConnectionRefused { from, why } => connection_refused(a, shape, from, why),
            Remark::MoreRefused { count } => more_refused(a, shape, count),
            Remark::NotTold { count } => not_told(a, shape, count),
            Remark::AcceptingPaused => paused(a, shape),
            Remark::Counted {
                workers,
                builds,
                steps,
            } => counted(a, shape, workers, builds, steps),
            Remark::UnknownKey { place, key } => unknown_key(a, shape, place, key),
            Remark::MisspeltKey { place, key, near } => misspelt_key(a, shape, place, key, near),
            Remark::InputUnknown => input_unknown(a, shape),
            Remark::BuildMissing { build } => build_missing(a, shape, build),
            Remark::BuildWaits { build, worker } => build_waits(a, shape, build, worker),
            Remark::BuildUnstarted { build } => build_unstarted(a, shape, build),
            Remark::BuildStarted { build, worker } => build_started(a, shape, build, worker),
            Remark::BuildEnded { build, result } => build_ended(a, shape, build, result),
            Remark::BuildCancelled { build } => build_cancelled(a, shape, build),
            Remark::StepStarted { build, log, step } => step_started(a, shape, build, log, step),
            Remark::StepRefused { build, why, step } => step_refused(a, shape, build, why, step),
            Remark::StepStopped {
                build,
                log,
                limit,
                step,
            } => step_stopped(a, shape, build, log, limit, step),
            Remark::StepFailed {
                build,
                log,
                worker,
                said,
                step,
            } => step_failed(a, shape, build, log, worker, said, step),
            Remark::StepEnded {
                build,
                log,
                result,
                step,
            } => step_ended(a, shape, build, log, result, step),
            Remark::ProgramStarted { worker } => program_started(a, shape, worker),
            Remark::ProgramFailed { worker, why } => program_failed(a, shape, worker, why),
            Remark::ProgramEnded { worker } => program_ended(a, shape, worker),
        }
    }
}
