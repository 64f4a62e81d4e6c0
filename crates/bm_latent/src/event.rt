//! What a latent worker is, what happens to it, and what is then to be done.

/// Where a latent worker stands.
#[derive(Clone, Copy, Debug, PartialEq, Eq)]
pub enum LatentState {
    /// No process is there, and no build wants one.
    Not,
    /// The process was started and has not logged in.
    Substantiating,
    /// The worker is logged in.
    Substantiated,
    /// The worker was told to stop, and its process has not ended.
    Insubstantiating,
    /// As `Insubstantiating`, and a build waits for the next start.
    Waiting,
    /// The worker's connection is cut, and its session may be resumed.
    Held,
}

/// What happens to a latent worker.
#[derive(Clone, Copy, Debug, PartialEq, Eq)]
pub enum LatentEvent {
    /// A build wants the worker.
    Want,
    /// The process could be started.
    Started,
    /// The process could not be started.
    Failed,
    /// The worker logged in, or resumed its session.
    Attached,
    /// The worker's session was given up.
    Lost,
    /// A tick passed in which the worker has no build.
    IdleTick,
    /// The process ended.
    Stopped,
    /// The worker's connection was cut; its session may be resumed.
    Cut,
}

/// What is to be done after an event.
#[derive(Clone, Copy, Debug, PartialEq, Eq)]
pub enum Act {
    /// Nothing.
    None,
    /// Start the process.
    Start,
    /// Give the worker its builds: it is ready.
    Give,
    /// Stop the worker: it is not ready, and is told to shut down where it is attached.
    Stop,
    /// Keep the worker's builds back until its session is resumed: it is not ready.
    Hold,
}
