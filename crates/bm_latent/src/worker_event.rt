//! What happens to a worker, and what a build master then does.

/// What happens to a worker, in the words of its master.
#[derive(Clone, Copy, PartialEq, Eq)]
pub enum WorkerEvent {
    /// A build waits for it. To be told as long as one does: at each tick, and after each change.
    Wanted,
    /// Its process could be started.
    Started,
    /// Its process could not be started.
    Failed,
    /// A connection logged in and was attached to its lane, whether the session is resumed or new.
    Attached,
    /// Its connection was cut, and its session may be resumed.
    Cut,
    /// Its session was given up, or a connection ended whose session can't be resumed.
    Lost,
    /// Its process ended.
    Stopped,
    /// Its lane has had as many events as it may: it takes no connection and no command any more.
    Filled,
    /// A tick passed. `has_build` says whether a build ran on the worker, or was not released.
    Tick { has_build: bool },
}

/// What is to be done with the process of a worker.
#[derive(Clone, Copy, PartialEq, Eq)]
pub enum ProcessAction {
    /// Nothing.
    None,
    /// Start it: then tell `Started` or `Failed`, and later, once, `Stopped`.
    Start,
    /// Send `shutdown` over the worker's connection.
    Shutdown,
}

/// What is to be done after something happened to a worker.
#[derive(Clone, Copy, PartialEq, Eq)]
pub struct WorkerAction {
    /// Whether the worker takes builds from now on: the board is told so (`Board::set_ready`).
    pub ready: bool,
    /// What is to be done with its process.
    pub process: ProcessAction,
    /// Each build that waits for the worker is given up (`Board::give_up`).
    pub gives_up: bool,
}
