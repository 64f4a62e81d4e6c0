//! Why a master could not begin.

ghost use Rattle.std.specs.Prelude.{◌≡◌, [], true};
ghost use Rattle.bm_operator.specs.Exit.{exit_status};

use bm_operator::status;
use thiserror::Error;

/// Why a master could not begin. Nothing of it is left then, and no build was run.
#[derive(Clone, Copy, Debug, PartialEq, Eq, Error)]
pub enum BeginFault {
    /// Each worker, and what waits for them, takes descriptors and memory.
    #[error("out of descriptors or memory")]
    Room,
    /// Where it listens can't be told, so that nobody could connect.
    #[error("standard output can't be written")]
    Output,
    /// One of its threads could not be started.
    #[error("no thread")]
    Thread,
}

impl BeginFault {
    /// The exit status of a master that could not begin.
    pub fn status(self) -> u8
        ensures { result ≡ exit_status [] true }
    {
        status(&[], true)
    }
}
