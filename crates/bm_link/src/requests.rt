//! The bytes of requests.

ghost use Rattle.std.specs.Prelude.{◌≡◌, ◌≤◌, ◌<◌, ◌^◌, IfOk};
ghost use Rattle.bm_value.specs.Writing.{written};
ghost use Rattle.bm_msg.specs.Limits.{args_depth, IsShortRequest};
ghost use Rattle.bm_msg.specs.Meaning.{asked, request};
ghost use Rattle.bm_msg.specs.Trees.{tree_of};

use bm_msg::{Numbered, Request, write_request};
use bm_value::EncodeError;
use std::alloc::{AllocError, Global};

/// The bytes of the request with this number. No part of it is too long, and none nests too deep,
/// so that only memory can be wanting.
pub(crate) fn request_bytes(
    alloc: Global,
    seq: u64,
    message: Request,
) -> Result<Vec<u8>, AllocError>
    requires number { seq < 2 ^ 63 }
    requires short { IsShortRequest (asked message) }
    requires flat { args_depth (asked message) ≤ 31 }
    ensures { IfOk result (λ v. v.items ≡ written (tree_of (request seq (asked message)))) }
{
    let numbered = Numbered {
        seq,
        request: message,
    };
    match write_request(alloc, &numbered) {
        Ok(bytes) => Ok(bytes),
        Err(EncodeError::Mem) => Err(AllocError),
        Err(EncodeError::TooDeep) => unreachable!(),
        Err(EncodeError::TooLong) => unreachable!(),
    }
}
