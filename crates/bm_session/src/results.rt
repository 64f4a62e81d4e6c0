//! How commands, steps and builds end.

ghost use Rattle.std.specs.Prelude.{◌≡◌};
ghost use Rattle.bm_session.specs.Texts.{result_name};

use std::fmt;

/// How a command, a step or a build ended: the result codes of the Buildbot manual.
/// It stands here, where its definition is. A crate of its own would only spare the board and the
/// configuration this library.
#[derive(Clone, Copy, Debug, PartialEq, Eq)]
pub enum Results {
    Success,
    Warnings,
    Failure,
    Skipped,
    Exception,
    Retry,
    Cancelled,
}

impl Results {
    /// The name as Buildbot's manual writes it, in capitals.
    pub fn name(self) -> &'static str
        ensures { result.now ≡ result_name self }
    {
        match self {
            Results::Success => "SUCCESS",
            Results::Warnings => "WARNINGS",
            Results::Failure => "FAILURE",
            Results::Skipped => "SKIPPED",
            Results::Exception => "EXCEPTION",
            Results::Retry => "RETRY",
            Results::Cancelled => "CANCELLED",
        }
    }
}

impl fmt::Display for Results {
    fn fmt<W: fmt::Write>(&self, f: &mut fmt::Formatter<W>) -> fmt::Result {
        f.write_str(self.name())
    }
}
