//! Sends messages.

ghost use Rattle.std.specs.Prelude.{◌≡◌, ℕ, List, OnOk, IfErr};
ghost use Rattle.tungstenite.specs.Content.{binary};
ghost use Rattle.tungstenite.specs.Socket.{content_of};
ghost use Rattle.bm_link.specs.Causes.{IsUnsent};
ghost use Rattle.bm_link.specs.Sending.{SendsBytes, SendsContent};

use crate::fault::{LinkFault, fault_of};
use std::alloc::Global;
use std::io::{Read, Write};
use tungstenite::{MaskKeys, Message, WebSocket};

/// Sends one binary message.
pub(crate) fn send<S: Read + Write + Drop, K: MaskKeys + Drop>(
    alloc: Global,
    socket: &mut WebSocket<S, K>,
    bytes: &[u8],
) -> Result<(), LinkFault>
    ensures sent { OnOk result (SendsBytes S.contents bytes.now socket.old socket.new) }
    ensures unsent { IfErr result
        (λ f. IsUnsent S.contents bytes.now socket.old f socket.new) }
{
    match Message::binary(alloc, bytes) {
        Ok(message) => send_message(socket, message),
        Err(_) => Err(LinkFault::Mem),
    }
}

/// Sends one message, where the connection takes one.
///
/// It asks first, since `tungstenite` says nothing of its socket after a message that it refuses
/// for that reason. So no call reaches that fault: the answer is `Closed`.
pub(crate) fn send_message<S: Read + Write + Drop, K: MaskKeys + Drop>(
    socket: &mut WebSocket<S, K>,
    message: Message,
) -> Result<(), LinkFault>
    ensures sent { OnOk result
        (SendsContent S.contents (content_of message) socket.old socket.new) }
    ensures unsent { IfErr result (λ f. (bytes : List ℕ) → content_of message ≡ binary bytes
        → IsUnsent S.contents bytes socket.old f socket.new) }
{
    if !socket.can_write() {
        return Err(LinkFault::Closed);
    }
    match socket.send(message) {
        Ok(()) => Ok(()),
        Err(error) => Err(fault_of(&error)),
    }
}
