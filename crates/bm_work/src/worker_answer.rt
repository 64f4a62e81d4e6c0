//! Answers of a worker to the requests of its master.

ghost use Rattle.std.specs.Prelude.{◌≡◌, ◌≢◌, ℕ, ◌<◌, ◌^◌, length, IfOk, IfSome};
ghost use Rattle.std.specs.Option.{option_copied};
ghost use Rattle.bm_value.specs.View.{tree};
ghost use Rattle.bm_msg.specs.Meaning.{response};
ghost use Rattle.bm_msg.specs.Trees.{answer as nil_or_exception};
ghost use Rattle.bm_work.specs.WorkerAnswers.{result_of, is_done, is_exception, info};

use bm_value::{Pair, Pairs, Value};
use std::alloc::{AllocError, Global};

/// What a worker answers to a request.
#[derive(Clone, Copy, PartialEq, Eq)]
pub enum WorkerAnswer {
    /// The request is taken: nil.
    Done,
    /// What the worker tells of itself.
    Info,
    BadArguments,
    NoSuchCommandName,
    AlreadyRuns,
    TooManyCommands,
    NoSuchCommand,
    NoSuchOperation,
}

impl WorkerAnswer {
    pub(crate) fn is_done(self) -> bool
        ensures { result ≡ is_done self }
    {
        matches!(self, WorkerAnswer::Done)
    }

    /// The text of the exception that is the response, or None where the response is nil.
    pub(crate) fn exception(self) -> Option<&'static str>
        requires { self ≢ WorkerAnswer.Info }
        ensures response { (n : ℕ) → nil_or_exception n (option_copied result)
            ≡ response n (result_of self) (is_exception self) }
        ensures short { IfSome result (λ text. length text.now < 2 ^ 32) }
    {
        match self {
            WorkerAnswer::Done => None,
            WorkerAnswer::Info => unreachable!("told in a map"),
            WorkerAnswer::BadArguments => Some("bad arguments"),
            WorkerAnswer::NoSuchCommandName => Some("no such command name"),
            WorkerAnswer::AlreadyRuns => Some("command already runs"),
            WorkerAnswer::TooManyCommands => Some("too many commands"),
            WorkerAnswer::NoSuchCommand => Some("no such command"),
            WorkerAnswer::NoSuchOperation => Some("no such operation"),
        }
    }
}

/// What the worker tells of itself.
pub(crate) fn info(alloc: Global) -> Result<Value<Global>, AllocError>
    ensures { IfOk result (λ v. tree v ≡ info) }
{
    let mut vec = Vec::new(alloc);
    vec.push(Pair {
        key: Value::from_str(alloc, "version")?,
        value: Value::from_str(alloc, "buildworker 1")?,
    })?;
    Ok(Value::Map(Pairs { vec }))
}
