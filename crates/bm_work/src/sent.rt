//! What a worker sends of its own accord.

ghost use Rattle.std.specs.Prelude.{◌≡◌, ◌∷◌, [], ◌+◌, ◌<◌, ◌≤◌, ◌^◌, length, IfOk, Some, None};
ghost use Rattle.bm_msg.specs.Meaning.{update};
ghost use Rattle.bm_work.specs.Stream.{text as text_of, sent, stream_from, request_bytes};
ghost use Rattle.bm_work.specs.Reports.{reports_of, fault_of};
ghost use Rattle.bm_value.specs.Limits.{IsShort};
ghost use Rattle.bm_msg.specs.Trees.{item_of};

use crate::text_update::text_update;
use crate::wire::numbered;
use bm_lines::{Letter, Text};
use bm_msg::{Field, Fields, Request};
use bm_value::{Bytes, Num};
use std::alloc::{AllocError, Global};

/// A request to be sent: its number and its bytes.
#[derive(Drop)]
pub struct Sent {
    pub seq: u64,
    pub bytes: Bytes<Global>,
}

/// How a command ended.
#[derive(Drop)]
pub enum Finish {
    /// With an exit code.
    Rc(i64),
    /// With a fault, which the text names.
    Fault(Text),
}

impl Sent {
    /// An equal request.
    pub fn copy(&self) -> Result<Sent, AllocError>
        ensures { IfOk result (λ s. s ≡ self.now) }
    {
        Ok(Sent {
            seq: self.seq,
            bytes: self.bytes.copy()?,
        })
    }
}

impl Finish {
    /// An equal end.
    pub fn copy(&self) -> Result<Finish, AllocError>
        ensures { IfOk result (λ finish. finish ≡ self.now) }
    {
        match self {
            Finish::Rc(code) => Ok(Finish::Rc(*code)),
            Finish::Fault(text) => Ok(Finish::Fault(text.copy()?)),
        }
    }
}

/// Copies of requests, in order.
pub(crate) fn copies(alloc: Global, requests: &[Sent]) -> Result<Vec<Sent>, AllocError>
    ensures { IfOk result (λ v. v.items ≡ requests.now) }
{
    let mut all = Vec::with_capacity(alloc, requests.len())?;
    for request in requests {
        all.push(request.copy()?)?;
    }
    Ok(all)
}

/// The update with one text of the command.
pub(crate) fn said(
    alloc: Global,
    seq: u64,
    command: u64,
    letter: Letter,
    text: &str,
) -> Result<Sent, AllocError>
    requires number { seq < 2 ^ 63 }
    requires short { length text.now < 2 ^ 32 }
    ensures { IfOk result (λ s. s ≡ sent seq (text_of command letter text.now)) }
{
    let bytes = text_update(alloc, seq, command, letter, text)?;
    Ok(Sent {
        seq,
        bytes: Bytes::from_vec(bytes),
    })
}

#[tactic(auto, using(crate::proofs::Sizes::sizes))]
fn update(alloc: Global, seq: u64, command: u64, field: Field) -> Result<Sent, AllocError>
    requires number { seq < 2 ^ 63 }
    requires short { IsShort (item_of field) }
    ensures { IfOk result (λ s. s
        ≡ record { seq = seq; bytes = request_bytes seq (update command (field ∷ [])) }) }
{
    let mut fields = Fields::new(alloc);
    fields.push(field)?;
    numbered(alloc, seq, Request::Update { command, fields })
}

/// The requests that tell how the command ended: the exit code and a complete, or a complete with a
/// fault.
#[tactic(auto, using(crate::proofs::Sizes::sizes))]
pub(crate) fn ending(
    alloc: Global,
    seq: u64,
    command: u64,
    finish: Finish,
) -> Result<Vec<Sent>, AllocError>
    requires numbers { seq + length (reports_of command finish) ≤ 2 ^ 63 }
    requires short { length (fault_of finish) < 2 ^ 32 }
    ensures { IfOk result (λ v. v.items ≡ stream_from seq (reports_of command finish)) }
{
    let mut requests = Vec::with_capacity(alloc, 2)?;
    match finish {
        Finish::Rc(code) => {
            requests.push(update(alloc, seq, command, Field::Rc(Num::of_i64(code)))?)?;
            let fault = None;
            requests.push(numbered(alloc, seq + 1, Request::Complete { command, fault })?)?;
        }
        Finish::Fault(text) => {
            let fault = Some(text);
            requests.push(numbered(alloc, seq, Request::Complete { command, fault })?)?;
        }
    }
    Ok(requests)
}
