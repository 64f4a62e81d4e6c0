//! What waits to be told.

ghost use Rattle.std.specs.Prelude.{◌≡◌};
ghost use Rattle.bm_outbox.specs.OutboxEntries.{command_of};

use crate::ending::Ending;
use crate::said::Said;

/// What one step tells of a command.
#[derive(Drop)]
pub enum OutboxEntry {
    /// A part of what it printed, or a header line.
    Text { command: u64, said: Said },
    /// Its exit code, or why it has none. All its texts stand before it.
    End { command: u64, ending: Ending },
}

impl OutboxEntry {
    /// The command's number on its lane, as the master gave it.
    pub fn command(&self) -> u64
        ensures { result ≡ command_of self.now }
    {
        match self {
            OutboxEntry::Text { command, .. } => *command,
            OutboxEntry::End { command, .. } => *command,
        }
    }
}
