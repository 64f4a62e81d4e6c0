//! What an event does to the logs.

ghost use Rattle.std.specs.Prelude.{◌≡◌, IfOk};

use crate::results::Results;
use bm_lines::LineBatch;
use std::alloc::AllocError;

/// What an event does to the logs.
#[derive(Drop)]
pub enum Item {
    /// The command's logs are there.
    Open(u64),
    /// Lines of the command's logs, by name.
    Lines(u64, LineBatch),
    /// The command ended, with the outcome as it stands after this event. `books_have_the_logs` in
    /// `bm_store` shows that the whole trace agrees.
    End(u64, Results),
    /// The session was given up: each open command ended with `Retry`.
    Gone,
}

impl Item {
    /// An equal item. The lines are shared.
    pub fn copy(&self) -> Result<Item, AllocError>
        ensures { IfOk result (λ item. item ≡ self.now) }
    {
        Ok(match self {
            Item::Open(command) => Item::Open(*command),
            Item::Lines(command, batch) => Item::Lines(*command, batch.copy()?),
            Item::End(command, result) => Item::End(*command, *result),
            Item::Gone => Item::Gone,
        })
    }
}
