//! Why a value is no message.

ghost use Rattle.std.specs.Prelude.{◌≡◌};
ghost use Rattle.bm_msg.specs.declared.fault.MsgError.TheVariants.{Mem};

use std::alloc::{AllocError, AllocFailed};
use thiserror::Error;

/// Why a value is no message: the first reason that applies.
#[derive(Clone, Copy, Debug, PartialEq, Eq, Error)]
pub enum MsgError {
    #[error("not a map")]
    NotMap,
    /// `seq_number` is missing, no integer, negative or above 2^63-1.
    #[error("no seq_number")]
    NoSeq,
    /// `op` is missing or no str.
    #[error("no op")]
    NoOp,
    /// Another key of the message with this number is missing or of another kind.
    #[error("bad arguments")]
    BadArgs(u64),
    /// The allocator refused a request.
    #[error("out of memory")]
    Mem,
}

impl From<AllocError> for MsgError {
    ghost from_gives = { λ _ e. e ≡ Mem };

    fn from(_e: AllocError) -> MsgError {
        MsgError::Mem
    }
}

impl<T: Drop> From<AllocFailed<T>> for MsgError {
    ghost from_gives = { λ _ e. e ≡ Mem };

    fn from(_e: AllocFailed<T>) -> MsgError {
        MsgError::Mem
    }
}
