//! Why a call of a lane is refused.
use bm_session::Refusal;
use thiserror::Error;

/// Why no lane is opened.
#[derive(Clone, Copy, Debug, PartialEq, Eq, Error)]
pub enum OpenError {
    /// The published copy gave no place to one of the viewers.
    #[error("no reader place")]
    NoPlace,
    /// Memory is wanting.
    #[error("out of memory")]
    Mem,
}

/// Why a reader's end doesn't take an event.
#[derive(Clone, Copy, Debug, PartialEq, Eq, Error)]
pub enum HearRefusal {
    /// The session refuses it, or has no memory for it.
    #[error(transparent)]
    Session(Refusal),
    /// The event gives an item, and the queue was full. It may be taken after a drain.
    #[error("busy")]
    Busy,
}
