//! Why an event is not taken.

use thiserror::Error;

/// Why an event isn't taken.
#[derive(Clone, Copy, Debug, PartialEq, Eq, Error)]
pub enum Refusal {
    /// The lane isn't up.
    #[error("not up")]
    NotUp,
    /// The lane is up already.
    #[error("already up")]
    AlreadyUp,
    /// Four commands are open.
    #[error("too many open")]
    TooManyOpen,
    /// The command isn't open.
    #[error("no such command")]
    NoSuchCommand,
    /// The lane has had as many events as it may, but for its last `Down`.
    #[error("full")]
    Full,
    /// Memory is wanting: the same event may be taken later.
    #[error("out of memory")]
    Mem,
}
