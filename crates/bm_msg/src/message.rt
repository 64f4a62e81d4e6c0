//! Messages.

ghost use Rattle.std.specs.Prelude.{◌<◌, ◌^◌};

use crate::request::Request;
use bm_value::Value;
use std::alloc::{AllocError, Global};

/// A message of either end of a connection.
#[derive(Drop)]
pub enum Message {
    Request(Numbered),
    Response(Response),
}

/// A request, under the number that its response will name.
#[derive(Drop)]
pub struct Numbered {
    pub seq: u64,
    pub request: Request,
    pub ghost in_range: { seq < 2 ^ 63 },
}

/// What is answered to the request with this number: a value, or an exception.
#[derive(Drop)]
pub struct Response {
    pub seq: u64,
    pub result: Value<Global>,
    pub exception: bool,
    pub ghost in_range: { seq < 2 ^ 63 },
}

/// A message that is to be written, where its owner has it.
#[derive(Clone, Copy)]
pub enum Outgoing<'a> {
    Request(&'a Numbered),
    Response(&'a Response),
}

impl Numbered {
    ghost use Rattle.std.specs.Prelude.{◌≡◌, IfOk};
    ghost use Rattle.bm_msg.specs.Meaning.{asked};

    /// An equal request with the same number.
    pub fn copy(&self, alloc: Global) -> Result<Numbered, AllocError>
        ensures { IfOk result (λ m. (m.seq ≡ self.now.seq)
            × (asked m.request ≡ asked self.now.request)) }
    {
        Ok(Numbered {
            seq: self.seq,
            request: self.request.copy(alloc)?,
        })
    }
}

impl Response {
    ghost use Rattle.std.specs.Prelude.{◌≡◌, IfOk};
    ghost use Rattle.bm_value.specs.View.{tree};

    /// An equal response.
    pub fn copy(&self, alloc: Global) -> Result<Response, AllocError>
        ensures { IfOk result (λ m. (m.seq ≡ self.now.seq)
            × (tree m.result ≡ tree self.now.result) × (m.exception ≡ self.now.exception)) }
    {
        Ok(Response {
            seq: self.seq,
            result: self.result.copy_into(alloc)?,
            exception: self.exception,
        })
    }
}

impl Message {
    ghost use Rattle.std.specs.Prelude.{◌≡◌, IfOk};
    ghost use Rattle.bm_msg.specs.Meaning.{meaning};

    /// An equal message.
    pub fn copy(&self, alloc: Global) -> Result<Message, AllocError>
        ensures { IfOk result (λ m. meaning m ≡ meaning self.now) }
    {
        match self {
            Message::Request(request) => Ok(Message::Request(request.copy(alloc)?)),
            Message::Response(response) => Ok(Message::Response(response.copy(alloc)?)),
        }
    }
}
