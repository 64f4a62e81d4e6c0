//! Requests and responses as bytes.

ghost use Rattle.std.specs.Prelude.{◌≡◌, ◌<◌, ◌≤◌, ◌^◌, IfOk};
ghost use Rattle.bm_msg.specs.Meaning.{asked, request as asks};
ghost use Rattle.bm_msg.specs.Trees.{tree_of};
ghost use Rattle.bm_value.specs.Tree.{depth};
ghost use Rattle.bm_value.specs.Limits.{IsShort};
ghost use Rattle.bm_work.specs.Stream.{request_bytes};
ghost use Rattle.bm_work.specs.Replies.{reply as reply_of};

use crate::sent::Sent;
use crate::worker_answer::{WorkerAnswer, info};
use bm_msg::{Numbered, Request, write_answer, write_request, write_result};
use bm_value::{Bytes, EncodeError};
use std::alloc::{AllocError, Global};

/// The request with that number.
#[tactic(auto, unfolding(crate::specs::Stream::request_bytes))]
pub(crate) fn numbered(alloc: Global, seq: u64, request: Request) -> Result<Sent, AllocError>
    requires number { seq < 2 ^ 63 }
    requires flat { depth (tree_of (asks seq (asked request))) ≤ 32 }
    requires short { IsShort (tree_of (asks seq (asked request))) }
    ensures { IfOk result (λ s. s
        ≡ record { seq = seq; bytes = request_bytes seq (asked request) }) }
{
    match write_request(alloc, &Numbered { seq, request }) {
        Ok(bytes) => Ok(Sent {
            seq,
            bytes: Bytes::from_vec(bytes),
        }),
        Err(EncodeError::Mem) => Err(AllocError),
        Err(EncodeError::TooDeep | EncodeError::TooLong) => unreachable!("flat and short"),
    }
}

/// The bytes of the response to the request with that number.
#[tactic(auto, using(crate::proofs::Sizes::sizes), unfolding(crate::specs::Replies::reply, bm_msg::specs::Trees::answer_bytes))]
pub(crate) fn reply(alloc: Global, seq: u64, answer: WorkerAnswer) -> Result<Vec<u8>, AllocError>
    requires { seq < 2 ^ 63 }
    ensures { IfOk result (λ v. v.items ≡ reply_of seq answer) }
{
    match answer {
        WorkerAnswer::Info => {
            let map = info(alloc)?;
            write_result(alloc, seq, map, false)
        }
        _ => write_answer(alloc, seq, answer.exception()),
    }
}
