//! What comes to the machine of a worker, and what is then to be done.

use crate::deadline::EndAct;
use crate::worker_event::{WorkerAction, WorkerEvent};

/// What comes to the machine of a worker.
#[derive(Clone, Copy, PartialEq, Eq)]
pub enum WorkerInput {
    /// This happened to its lane, or a build waits for it. What happens to its program, and ticks,
    /// have inputs of their own.
    Happened(WorkerEvent),
    /// Its program was started.
    Started,
    /// The system refuses to start its program. `may_pass`: for want of processes or memory, which
    /// may come back.
    Refused { may_pass: bool },
    /// Its program has ended.
    Ended,
    /// A tick has passed. `is_wanted` says whether a build waits for the worker, `has_build`
    /// whether one ran on it, or was not released.
    Tick { is_wanted: bool, has_build: bool },
    /// The master ends, since no build is left.
    Over,
}

/// What is to be done after an input.
#[derive(Clone, Copy, PartialEq, Eq)]
pub struct WorkerEffect {
    /// What is to be done with the worker, its program's start included. Each start is answered by
    /// the input `Started` or `Refused`, and a program that was started, once, by `Ended`.
    pub action: WorkerAction,
    /// What is to be done with a program that is to end.
    pub ends: EndAct,
    /// Whether the start of its program isn't tried again, since the system refuses it.
    pub fails: bool,
}
