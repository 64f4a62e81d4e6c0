//! Why the board refuses a call.

use thiserror::Error;

/// Why the board refuses a call.
#[derive(Clone, Copy, Debug, PartialEq, Eq, Error)]
pub enum BoardRefusal {
    /// No build has that number.
    #[error("no such build")]
    NoBuild,
    /// The build was started, or is over.
    #[error("build not waiting")]
    NotWaiting,
    /// The build does not run, or has nothing to release.
    #[error("build not running")]
    NotRunning,
    /// The worker is not there, is not ready, or has no free slot.
    #[error("no worker")]
    NoWorker,
    /// A lock may not be had beside its holders.
    #[error("lock held")]
    LockHeld,
    /// A lock is not there, or is named twice.
    #[error("bad lock")]
    BadLock,
    /// The board has as many builds as it takes.
    #[error("full")]
    Full,
    /// The allocator refused a request.
    #[error("out of memory")]
    Mem,
}
