//! What a link reads of its socket.

ghost use Rattle.std.specs.Prelude.{IfOk, IfErr};
ghost use Rattle.bm_link.specs.Causes.{FailsAtFirst};
ghost use Rattle.bm_link.specs.SocketReads.{GivesRead, GivesReadError, NoBytesFail, ReadsBinary, ReadsSocket};

use crate::fault::{LinkFault, fault_of, is_quiet};
use std::io::{Read, Write};
use tungstenite::{Bytes, Error as SocketError, MaskKeys, Message, WebSocket};

/// What a read gives.
#[derive(Drop)]
pub(crate) enum SocketRead {
    /// The bytes of a binary message.
    Binary(Bytes),
    /// A text message, a ping or a pong.
    Other,
    /// Nothing has come yet.
    Nothing,
    /// A close frame.
    Closed,
}

/// What a message that was read gives. A close frame is answered.
fn given_by<S: Read + Write + Drop, K: MaskKeys + Drop>(
    socket: &mut WebSocket<S, K>,
    message: Message,
) -> SocketRead
    ensures { GivesRead S.contents message socket.old result socket.new }
{
    match message {
        Message::Binary(bytes) => SocketRead::Binary(bytes),
        Message::Close(_) => {
            // The answer to the close may not leave, since the link ends all the same.
            let _ = socket.flush();
            SocketRead::Closed
        }
        _ => SocketRead::Other,
    }
}

/// What a failed read gives: nothing, where nothing has come yet.
fn given_by_error(error: &SocketError) -> Result<SocketRead, LinkFault>
    ensures { GivesReadError error.now result }
{
    if is_quiet(error) {
        Ok(SocketRead::Nothing)
    } else {
        Err(fault_of(error))
    }
}

/// Reads a message. A close frame is answered.
pub(crate) fn read_socket<S: Read + Write + Drop, K: MaskKeys + Drop>(
    socket: &mut WebSocket<S, K>,
) -> Result<SocketRead, LinkFault>
    ensures { ReadsSocket S.remaining S.contents socket.old result socket.new }
{
    match socket.read() {
        Ok(message) => Ok(given_by(socket, message)),
        Err(error) => given_by_error(&error),
    }
}

/// Reads the first message of a connection, which is to be a binary one that has come.
pub(crate) fn read_first<S: Read + Write + Drop, K: MaskKeys + Drop>(
    socket: &mut WebSocket<S, K>,
) -> Result<Bytes, LinkFault>
    ensures bytes { IfOk result (λ b. ReadsBinary S.remaining socket.old b socket.new) }
    ensures fault { IfErr result
        (λ f. FailsAtFirst NoBytesFail S.remaining S.contents socket.old f socket.new) }
{
    match read_socket(socket) {
        Ok(SocketRead::Binary(bytes)) => Ok(bytes),
        Ok(SocketRead::Other) => Err(LinkFault::BadMessage),
        Ok(SocketRead::Nothing) => Err(LinkFault::Stream),
        Ok(SocketRead::Closed) => Err(LinkFault::Closed),
        Err(fault) => Err(fault),
    }
}
