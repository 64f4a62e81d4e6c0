//! How a command ended that was started.

use crate::pipes::ExitCode;
use crate::stopping::{Leftover, StopCause};

/// How a command ended that was started.
#[derive(Clone, Copy)]
pub enum CommandEnd {
    /// By itself: its pipes gave this exit code.
    Code(ExitCode),
    /// By itself, and its pipes gave this exit code. One of them was held open, and is waited for
    /// no more.
    Held(ExitCode),
    /// Its worker ended it for this reason, and this may go on of it.
    Stopped(StopCause, Leftover),
}
