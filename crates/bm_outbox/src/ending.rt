//! How a command ended.

ghost use Rattle.std.specs.Prelude.{◌≡◌, IfOk};
ghost use Rattle.bm_outbox.specs.OutboxEntries.{finish_of};

use crate::pipes::ExitCode;
use bm_lines::Text;
use bm_work::Finish;
use std::alloc::{AllocError, Global};

/// How a command ended.
#[derive(Drop)]
pub enum Ending {
    /// Its process gave this exit code; -1 stands for none.
    Code(ExitCode),
    /// Its process couldn't be started.
    CannotStart,
    /// The master asked for its end.
    Interrupted,
    /// Memory is wanting for what it printed.
    NoMemory,
}

impl Ending {
    /// What a master is told of it: the exit code, or the text of a fault.
    pub fn finish(&self, alloc: Global) -> Result<Finish, AllocError>
        ensures { IfOk result (λ f. f ≡ finish_of self.now) }
    {
        match self {
            Ending::Code(code) => Ok(Finish::Rc(code.get())),
            Ending::CannotStart => Ok(Finish::Fault(Text::from_str(alloc, "cannot start")?)),
            Ending::Interrupted => Ok(Finish::Fault(Text::from_str(alloc, "interrupted")?)),
            Ending::NoMemory => Ok(Finish::Fault(Text::from_str(alloc, "out of memory")?)),
        }
    }
}
