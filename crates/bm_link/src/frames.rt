//! What is sent beside messages: pings, and close frames.

ghost use Rattle.std.specs.Prelude.{◌≡◌};
ghost use Rattle.bm_link.specs.Frames.{SendsClose, SendsPing};

use crate::fault::{LinkFault, fault_of};
use std::io::{Read, Write};
use tungstenite::{Bytes, CloseCode, CloseFrame, MaskKeys, Message, Utf8Bytes, WebSocket};

/// Sends a ping without a payload, where the connection takes one.
pub(crate) fn send_ping<S: Read + Write + Drop, K: MaskKeys + Drop>(
    socket: &mut WebSocket<S, K>,
) -> Result<(), LinkFault>
    ensures { SendsPing S.contents socket.old result socket.new }
{
    if !socket.can_write() {
        return Err(LinkFault::Closed);
    }
    match socket.send(Message::Ping(Bytes::new())) {
        Ok(()) => Ok(()),
        Err(error) => Err(fault_of(&error)),
    }
}

/// Sends a close frame with the code of a normal end, where the connection takes one.
pub(crate) fn send_close<S: Read + Write + Drop, K: MaskKeys + Drop>(
    socket: &mut WebSocket<S, K>,
) -> Result<(), LinkFault>
    ensures { SendsClose S.contents socket.old result socket.new }
{
    if !socket.can_write() {
        return Err(LinkFault::Closed);
    }
    let end = CloseFrame {
        code: CloseCode::Normal,
        reason: Utf8Bytes::from_static(""),
    };
    match socket.send(Message::Close(Some(end))) {
        Ok(()) => Ok(()),
        Err(error) => Err(fault_of(&error)),
    }
}
