//! Answers to requests.
ghost use Rattle.std.specs.Prelude.{◌≡◌, IfOk};
ghost use Rattle.bm_http.specs.Shown.{reply_of};
ghost use Rattle.bm_http.specs.Replies.{page as page_reply, refusal as refusal_reply};
ghost use Rattle.bm_http.specs.Replies.{unavailable as unavailable_reply};

use crate::bodies;
use crate::request_refusal::RequestRefusal;
use std::alloc::{AllocError, Global};

/// What a request is answered.
#[derive(Drop)]
pub struct Answer {
    /// 200, or that of `RequestRefusal::status`; 503 where memory is wanting.
    pub status: u16,
    /// The bytes of the body: compact JSON, or nothing under 503. They are a plain list, since
    /// `hyper` takes these: a type round it would be opened at once.
    pub body: Vec<u8>,
}

impl Answer {
    pub(crate) fn page(body: Vec<u8>) -> Answer
        ensures { reply_of result ≡ page_reply body.items }
    {
        Answer { status: 200, body }
    }

    pub(crate) fn refusal(alloc: Global, refusal: RequestRefusal) -> Result<Answer, AllocError>
        ensures { IfOk result (λ a. reply_of a ≡ refusal_reply refusal) }
    {
        let body = bodies::refusal(alloc, refusal.text())?;
        Ok(Answer {
            status: refusal.status(),
            body,
        })
    }

    /// The answer that takes no memory: 503 with no body.
    pub fn unavailable(alloc: Global) -> Answer
        ensures { reply_of result ≡ unavailable_reply }
    {
        Answer {
            status: 503,
            body: Vec::new(alloc),
        }
    }
}
