//! What a lane is asked.
ghost use Rattle.std.specs.Prelude.{◌≡◌, IfOk};

use bm_lines::Text;
use bm_session::Event;
use std::alloc::AllocError;

/// One step of a lane.
#[derive(Drop)]
pub enum Step {
    /// The reader hears an event.
    Hear(Event),
    /// The writer takes one item out of the queue into the book.
    Drain,
    /// A viewer asks for lines of the log of a command under a name: from a place on, so many at
    /// most.
    Look(u64, Text, u64, u64),
}

impl Step {
    /// An equal step. The lines of an update are shared.
    pub fn copy(&self) -> Result<Step, AllocError>
        ensures { IfOk result (λ step. step ≡ self.now) }
    {
        Ok(match self {
            Step::Hear(event) => Step::Hear(event.copy()?),
            Step::Drain => Step::Drain,
            Step::Look(k, name, offset, limit) => Step::Look(*k, name.copy()?, *offset, *limit),
        })
    }
}
