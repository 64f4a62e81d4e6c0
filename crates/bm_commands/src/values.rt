//! What goes into the machine of a worker's commands, what it keeps, and what comes out of it.

use bm_outbox::{CommandEnd, PipeEnd, Pipes, StopCause, Sweep};

/// How the process of a command is seen to do.
#[derive(Clone, Copy)]
pub enum ChildState {
    Runs,
    /// It has ended, and gave this exit code, if it gave one.
    Ended(Option<i32>),
}

/// What a look showed of a process, and of the sweep of what it started.
#[derive(Clone, Copy)]
pub struct ProcessLook {
    pub child: ChildState,
    pub sweep: Sweep,
}

/// What is told of a process.
#[derive(Clone, Copy)]
pub enum ProcessInput {
    /// A pipe gave a text.
    Text,
    /// A pipe came to its end.
    PipeEnded(PipeEnd),
    /// Memory is wanting for what a pipe gave.
    NoMemory,
    /// The master asks for the command's end.
    Interrupted,
    /// It was looked at.
    Looked(ProcessLook),
    /// It wasn't started.
    NotStarted,
    /// It was started, and its pipes can't be read.
    Unread,
}

/// What the worker's first thread hands in.
#[derive(Clone, Copy)]
pub enum Input {
    /// This is told of the process with this number.
    Process(u64, ProcessInput),
    /// The master asks for the end of this command.
    Interrupt(u64),
    /// A session began that isn't the one of the commands.
    SessionLost,
    /// The worker ends.
    Ends,
    /// A time has come.
    Tick,
    /// Something can be told, and texts too where that is so.
    Turn(bool),
}

/// What the worker's first thread is to do.
#[derive(Clone, Copy)]
pub enum Effect {
    Nothing,
    /// Keep the text that came.
    Keep,
    /// Kill this process, and look for what it started.
    Kill(u64),
    /// Look at this process and its sweep, and hand in what is seen.
    Look(u64),
    /// Drop all that belongs to this process.
    Forget(u64),
    /// Tell the first text that was kept of this process, of this command, and permit its pipes
    /// another one.
    TellText(u64, u64),
    /// Tell of this process that this command ended so, and drop all that belongs to it.
    TellEnd(u64, u64, CommandEnd),
    /// Kill all that the worker started.
    SweepAll,
}

/// Where a command stands.
#[derive(Clone, Copy)]
pub enum CommandPhase {
    Runs,
    /// How it ended is known, and isn't told yet.
    Over(CommandEnd),
    /// Its worker ends it, for this reason. So many milliseconds of that have counted until the
    /// last look.
    Stopping(StopCause, u64),
    /// It is to be killed, and nobody is told of it.
    Lost,
    /// It was killed, and nobody is told of it.
    Owed,
    /// All that belongs to it is to be dropped.
    Gone,
}

/// A command whose process was started.
#[derive(Clone, Copy)]
pub struct CommandRow {
    /// The number of its process, which no other process of the worker has.
    pub process: u64,
    pub pipes: Pipes,
    /// How many texts its pipes gave that aren't told yet.
    pub texts: u64,
    /// Whether a text came since the last look at its process.
    pub has_heard: bool,
    /// For how many milliseconds its pipes were held open since its process was seen to have ended.
    /// None before that.
    pub held_ms: Option<u64>,
    /// When its process was last looked at.
    pub looked_ms: u64,
    /// How many milliseconds later it is looked at again.
    pub pause_ms: u64,
    pub phase: CommandPhase,
}
