//! Why bytes could not be read, and why a value could not be written.

ghost use Rattle.std.specs.Prelude.{◌≡◌};
ghost use Rattle.bm_value.specs.declared.fault.DecodeError.TheVariants.{Mem};
ghost use Rattle.bm_value.specs.declared.fault.EncodeError.TheVariants as written;

use std::alloc::{AllocError, AllocFailed};
use thiserror::Error;

/// Why bytes could not be read: the first fault from the left.
#[derive(Clone, Copy, Debug, PartialEq, Eq, Error)]
pub enum DecodeError {
    /// The bytes end before the value does.
    #[error("truncated")]
    Truncated,
    /// A value begins with `c1`, which the format never uses.
    #[error("reserved byte")]
    Reserved,
    /// A str's bytes are not UTF-8.
    #[error("bad utf-8")]
    BadUtf8,
    /// Arrays and maps nest deeper than 32.
    #[error("too deep")]
    TooDeep,
    /// More bytes stand behind the value.
    #[error("trailing bytes")]
    Trailing,
    /// The allocator refused a request.
    #[error("out of memory")]
    Mem,
}

impl From<AllocError> for DecodeError {
    ghost from_gives = { λ _ e. e ≡ Mem };

    fn from(_e: AllocError) -> DecodeError {
        DecodeError::Mem
    }
}

impl<T: Drop> From<AllocFailed<T>> for DecodeError {
    ghost from_gives = { λ _ e. e ≡ Mem };

    fn from(_e: AllocFailed<T>) -> DecodeError {
        DecodeError::Mem
    }
}

/// Why a value could not be written.
#[derive(Clone, Copy, Debug, PartialEq, Eq, Error)]
pub enum EncodeError {
    /// Arrays and maps nest deeper than 32.
    #[error("too deep")]
    TooDeep,
    /// A str, bin, ext, array or map is longer than 2^32-1.
    #[error("too long")]
    TooLong,
    /// The allocator refused a request.
    #[error("out of memory")]
    Mem,
}

impl From<AllocError> for EncodeError {
    ghost from_gives = { λ _ e. e ≡ written.Mem };

    fn from(_e: AllocError) -> EncodeError {
        EncodeError::Mem
    }
}
