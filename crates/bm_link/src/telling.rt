//! How a worker is told that its login is refused.

ghost use Rattle.std.specs.Prelude.{◌≡◌, ◌<◌, ◌^◌, length};
ghost use Rattle.bm_link.specs.Telling.{fault_of_refusal, text_of_refusal, Tells, TellsAny};

use crate::fault::LinkFault;
use crate::writing::send;
use bm_lane::HearRefusal;
use bm_msg::write_answer;
use bm_session::Refusal;
use std::alloc::Global;
use std::io::{Read, Write};
use tungstenite::{NoMask, WebSocket};

/// Sends the exception that refuses a login. Whether it leaves changes nothing, since the link has
/// failed.
pub(crate) fn send_refusal<S: Read + Write + Drop>(
    alloc: Global,
    socket: &mut WebSocket<S, NoMask>,
    seq: u64,
    text: &'static str,
)
    requires number { seq < 2 ^ 63 }
    requires short { length text.now < 2 ^ 32 }
    ensures { Tells S.contents seq text.now socket.old socket.new }
{
    if let Ok(bytes) = write_answer(alloc, seq, Some(text)) {
        let _ = send(alloc, socket, bytes.as_slice());
    }
}

/// Tells the worker why the lane isn't taken up, and answers the link's fault.
pub(crate) fn refuse<S: Read + Write + Drop>(
    alloc: Global,
    socket: &mut WebSocket<S, NoMask>,
    seq: u64,
    why: HearRefusal,
) -> LinkFault
    requires { seq < 2 ^ 63 }
    ensures fault { result ≡ fault_of_refusal why }
    ensures told { TellsAny S.contents seq (text_of_refusal why) socket.old socket.new }
{
    match why {
        HearRefusal::Session(Refusal::Mem) => LinkFault::Mem,
        HearRefusal::Session(Refusal::Full) => {
            send_refusal(alloc, socket, seq, "full");
            LinkFault::Full
        }
        HearRefusal::Session(_) => {
            send_refusal(alloc, socket, seq, "already up");
            LinkFault::Lane(why)
        }
        HearRefusal::Busy => {
            send_refusal(alloc, socket, seq, "busy");
            LinkFault::Lane(why)
        }
    }
}
