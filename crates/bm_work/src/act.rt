//! What a worker is to do, and what it refuses.

ghost use Rattle.std.specs.Prelude.{◌≡◌, IfOk};
ghost use Rattle.bm_work.specs.declared.act.WorkRefusal.TheVariants.{Mem};

use crate::argv::Argv;
use bm_lines::Text;
use std::alloc::{AllocError, AllocFailed};
use thiserror::Error;

/// What a message that was heard asks the worker to do.
#[derive(Drop)]
pub enum WorkAct {
    /// Start the command.
    Run { command: u64, argv: Argv },
    /// Stop the command with this number.
    Interrupt(u64),
    /// Show the text.
    Print(Text),
    /// Nothing more: the worker tells of itself.
    Info,
    /// End the worker.
    Shutdown,
    /// Nothing: the request with this number has its answer.
    Answered(u64),
    Nothing,
}

impl WorkAct {
    /// An equal act.
    pub fn copy(&self) -> Result<WorkAct, AllocError>
        ensures { IfOk result (λ act. act ≡ self.now) }
    {
        match self {
            WorkAct::Run { command, argv } => Ok(WorkAct::Run {
                command: *command,
                argv: argv.copy()?,
            }),
            WorkAct::Interrupt(command) => Ok(WorkAct::Interrupt(*command)),
            WorkAct::Print(text) => Ok(WorkAct::Print(text.copy()?)),
            WorkAct::Info => Ok(WorkAct::Info),
            WorkAct::Shutdown => Ok(WorkAct::Shutdown),
            WorkAct::Answered(seq) => Ok(WorkAct::Answered(*seq)),
            WorkAct::Nothing => Ok(WorkAct::Nothing),
        }
    }
}

/// Why a call was refused.
#[derive(Clone, Copy, Debug, PartialEq, Eq, Error)]
pub enum WorkRefusal {
    /// The command doesn't run.
    #[error("no such command")]
    NoSuchCommand,
    /// The window, or the numbers below 2^63, lack the places.
    #[error("window full")]
    Window,
    /// The allocator refused a request.
    #[error("out of memory")]
    Mem,
}

impl From<AllocError> for WorkRefusal {
    ghost from_gives = { λ _ e. e ≡ Mem };

    fn from(_e: AllocError) -> WorkRefusal {
        WorkRefusal::Mem
    }
}

impl<T: Drop> From<AllocFailed<T>> for WorkRefusal {
    ghost from_gives = { λ _ e. e ≡ Mem };

    fn from(_e: AllocFailed<T>) -> WorkRefusal {
        WorkRefusal::Mem
    }
}
