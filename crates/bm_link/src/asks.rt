//! What a master asks of a worker besides its orders.

ghost use Rattle.std.specs.Prelude.{◌≡◌, ◌<◌, ◌^◌, IfOk, MatchResult};
ghost use Rattle.bm_msg.specs.Meaning.{asked};
ghost use Rattle.bm_link.specs.Asks.{asks_for, ask_bytes, texts_of, SendsAsk};
ghost use Rattle.bm_link.specs.Texts.{AreShort};

use crate::fault::LinkFault;
use crate::requests::request_bytes;
use crate::resume_state::ResumeState;
use crate::writing::send;
use bm_lines::Text;
use bm_msg::Request;
use std::alloc::{AllocError, Global};
use std::io::{Read, Write};
use tungstenite::{NoMask, WebSocket};

/// What a master asks of a worker besides its orders.
#[derive(Drop)]
pub enum Ask {
    /// To show its operator a text.
    Print(Text),
    /// To answer, so that the master knows that it lives.
    Keepalive,
    /// To tell its version and its system.
    GetWorkerInfo,
    /// To end once its commands have, and not to come back.
    Shutdown,
}

impl Ask {
    /// An equal request.
    pub fn copy(&self) -> Result<Ask, AllocError>
        ensures { IfOk result (λ ask. ask ≡ self.now) }
    {
        match self {
            Ask::Print(message) => Ok(Ask::Print(message.copy()?)),
            Ask::Keepalive => Ok(Ask::Keepalive),
            Ask::GetWorkerInfo => Ok(Ask::GetWorkerInfo),
            Ask::Shutdown => Ok(Ask::Shutdown),
        }
    }
}

fn request_of(ask: Ask) -> Request
    ensures { asked result ≡ asks_for ask }
{
    match ask {
        Ask::Print(message) => Request::Print { message },
        Ask::Keepalive => Request::Keepalive,
        Ask::GetWorkerInfo => Request::GetWorkerInfo,
        Ask::Shutdown => Request::Shutdown,
    }
}

/// The bytes of the request with this number.
#[tactic(auto, unfolding(crate::specs::Asks::ask_bytes))]
fn ask_bytes(alloc: Global, seq: u64, ask: Ask) -> Result<Vec<u8>, AllocError>
    requires number { seq < 2 ^ 63 }
    requires short { AreShort (texts_of ask) }
    ensures { IfOk result (λ v. v.items ≡ ask_bytes seq ask) }
{
    request_bytes(alloc, seq, request_of(ask))
}

/// Sends a request under the next number, which is not given again.
pub(crate) fn send_ask<S: Read + Write + Drop>(
    alloc: Global,
    socket: &mut WebSocket<S, NoMask>,
    resume_state: &mut ResumeState,
    ask: Ask,
) -> Result<(), LinkFault>
    requires { AreShort (texts_of ask) }
    ensures { SendsAsk S.contents resume_state.old ask socket.old result socket.new resume_state.new }
{
    let Some(seq) = resume_state.next_ask() else {
        return Err(LinkFault::Full);
    };
    match ask_bytes(alloc, seq, ask) {
        Ok(bytes) => send(alloc, socket, bytes.as_slice()),
        Err(_) => Err(LinkFault::Mem),
    }
}
