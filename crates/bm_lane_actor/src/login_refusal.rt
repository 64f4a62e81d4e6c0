//! Why a connection was not taken up, and what an operator is told of it.

ghost use Rattle.std.specs.Prelude.{◌≡◌};
ghost use Rattle.bm_operator.specs.Remark.{told};
ghost use Rattle.bm_lane_actor.specs.LoginRefusals.{refusal_in, refusal_of, refusal_told};

use bm_lane::HearRefusal;
use bm_lines::Text;
use bm_link::LinkFault;
use bm_operator::{LoginRefusal, Remark};
use bm_session::Refusal;
use std::net::SocketAddr;

/// Why a connection whose link met this fault was not taken up.
pub fn refusal_of(fault: LinkFault) -> LoginRefusal
    ensures { result ≡ refusal_of fault }
{
    match fault {
        LinkFault::BadLogin => LoginRefusal::BadLogin,
        LinkFault::Closed => LoginRefusal::Closed,
        LinkFault::Stream => LoginRefusal::Stream,
        LinkFault::BadMessage => LoginRefusal::BadMessage,
        LinkFault::Full => LoginRefusal::Full,
        LinkFault::Lane(HearRefusal::Busy) => LoginRefusal::Busy,
        LinkFault::Lane(HearRefusal::Session(Refusal::AlreadyUp)) => LoginRefusal::AlreadyUp,
        LinkFault::Lane(HearRefusal::Session(Refusal::Full)) => LoginRefusal::Full,
        _ => LoginRefusal::Memory,
    }
}

/// The same before a login. A failed stream may have been the master's end, or a login's that came
/// too late. It may be that of a connection whose place was given to another one.
pub fn refusal_in(fault: LinkFault, is_over: bool, is_put_out: bool, is_late: bool) -> LoginRefusal
    ensures { result ≡ refusal_in is_over is_put_out is_late fault }
{
    match fault {
        LinkFault::Stream if is_over => LoginRefusal::Closing,
        LinkFault::Stream if is_put_out => LoginRefusal::Crowded,
        LinkFault::Stream if is_late => LoginRefusal::Late,
        _ => refusal_of(fault),
    }
}

/// What an operator is told of a connection from this address that was not taken up. Its login had
/// this name, where it had one that is told.
pub fn refusal_remark(name: &Option<Text>, from: SocketAddr, why: LoginRefusal) -> Remark<'_>
    ensures { told result ≡ refusal_told name.now from why }
{
    match name {
        Some(name) => Remark::LoginRefused {
            name: name.as_str(),
            from,
            why,
        },
        None => Remark::ConnectionRefused { from, why },
    }
}
