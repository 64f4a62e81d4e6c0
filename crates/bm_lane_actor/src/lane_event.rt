//! What happens to a lane, and what follows from it for its worker and its operator. What follows
//! stands here, and not with the opening of lanes, which knows no event.

ghost use Rattle.std.specs.Prelude.{◌≡◌, option_map};
ghost use Rattle.bm_operator.specs.Remark.{told};
ghost use Rattle.bm_lane_actor.specs.LaneEvents.{connection_of, declines, event_after, event_of, event_told, failed_login, fills, greeting, loss_of};

use crate::connection_state::ConnectionState;
use crate::login_refusal::refusal_of;
use bm_lane::{HearRefusal, ReaderEnd, Yard};
use bm_latent::WorkerEvent;
use bm_link::LinkFault;
use bm_operator::{LossCause, Remark};
use bm_session::Refusal;
use std::net::SocketAddr;

/// What the actor of a lane tells.
#[derive(Clone, Copy)]
pub enum LaneEvent {
    /// The worker logged in, and a session begins. Where its lane was cut, `Lost` comes before.
    Attached,
    /// The worker logged in, and its session goes on.
    Resumed,
    /// The connection ended for this cause. The session may be resumed.
    Cut(LossCause),
    /// The session was given up for this cause: each of its open commands has ended.
    Lost(LossCause),
    /// A login of the worker, from this address, was declined for this cause. Or the answer to it
    /// could not be sent, and no session is left of it. A declined worker was told `already up`,
    /// `busy` or `full`. The login's stream brought the address, since an actor knows nothing of
    /// the acceptor.
    Declined(LinkFault, SocketAddr),
    /// A command was refused, since the lane has had as many events as it may. A loss and a
    /// declined login tell that by their cause.
    Filled,
}

/// Who is told what happens to a lane.
pub trait EventSink {
    /// This happened to the lane, after all that was told before.
    fn tell(&mut self, event: LaneEvent);
}

/// How the lane stands.
pub(crate) fn connection_of<Y: Yard>(reader: &ReaderEnd<Y>) -> ConnectionState
    ensures { result ≡ connection_of reader.now.trace }
{
    if reader.is_up() {
        ConnectionState::Up
    } else if reader.is_cut() {
        ConnectionState::Cut
    } else {
        ConnectionState::Down
    }
}

/// What is to be told of a lane that stood so and now stands so, where no login came.
pub fn event_after(
    before: ConnectionState,
    after: ConnectionState,
    cause: LossCause,
) -> Option<LaneEvent>
    ensures { result ≡ event_after before after cause }
{
    match (before, after) {
        (ConnectionState::Up, ConnectionState::Cut) => Some(LaneEvent::Cut(cause)),
        (ConnectionState::Up | ConnectionState::Cut, ConnectionState::Down) => Some(LaneEvent::Lost(
            cause,
        )),
        _ => None,
    }
}

/// What is told of a link that has taken up a lane which stood so before. That is a session that it
/// ends, if any, and the login. `is_resumed`: the session goes on.
pub fn greeting(before: ConnectionState, is_resumed: bool) -> (Option<LaneEvent>, LaneEvent)
    ensures { result ≡ greeting before is_resumed }
{
    match (before, is_resumed) {
        (_, true) => (None, LaneEvent::Resumed),
        (ConnectionState::Cut, false) => {
            (
                Some(LaneEvent::Lost(LossCause::Replaced)),
                LaneEvent::Attached,
            )
        }
        (ConnectionState::Up | ConnectionState::Down, false) => (None, LaneEvent::Attached),
    }
}

/// What is told, in order, of a link by which a login at a lane failed. That is a session that it
/// ended, if any. Then comes the login, which was declined or has taken the lane up. The last is
/// what that came to, if the link's end was taken already.
///
/// The lane stood as `before`, and stands as `after`. `is_own`: the login names the session of a
/// cut lane. `is_heard`: the lane had an event by it. `from` is where the link comes from.
pub fn failed_login(
    before: ConnectionState,
    after: ConnectionState,
    is_own: bool,
    is_heard: bool,
    fault: LinkFault,
    from: SocketAddr,
) -> (Option<LaneEvent>, LaneEvent, Option<LaneEvent>)
    ensures { result ≡ failed_login before after is_own is_heard fault from }
{
    if is_heard && after != ConnectionState::Down {
        let (loss, login) = greeting(before, is_own);
        let end = event_after(ConnectionState::Up, after, loss_of(fault));
        return (loss, login, end);
    }
    let cause = if is_own {
        loss_of(fault)
    } else {
        LossCause::Replaced
    };
    let loss = event_after(before, after, cause);
    (loss, LaneEvent::Declined(fault, from), None)
}

/// Why a lane whose link failed so is cut or given up.
pub fn loss_of(fault: LinkFault) -> LossCause
    ensures { result ≡ loss_of fault }
{
    match fault {
        LinkFault::Stream => LossCause::Stream,
        LinkFault::BadMessage | LinkFault::BadLogin => LossCause::BadMessage,
        LinkFault::Full | LinkFault::Lane(HearRefusal::Session(Refusal::Full)) => LossCause::Full,
        LinkFault::Mem | LinkFault::Arena | LinkFault::Lane(HearRefusal::Session(Refusal::Mem)) =>
            LossCause::Memory,
        LinkFault::Closed | LinkFault::Lane(_) => LossCause::Closed,
    }
}

/// What has happened to the lane's worker, if anything has.
pub fn event_of(event: LaneEvent) -> Option<WorkerEvent>
    ensures { result ≡ event_of event }
{
    match event {
        LaneEvent::Attached | LaneEvent::Resumed => Some(WorkerEvent::Attached),
        LaneEvent::Cut(_) => Some(WorkerEvent::Cut),
        LaneEvent::Lost(_) => Some(WorkerEvent::Lost),
        LaneEvent::Declined(..) | LaneEvent::Filled => None,
    }
}

/// Whether it says that the lane takes nothing more.
pub fn fills(event: LaneEvent) -> bool
    ensures { result ≡ fills event }
{
    match event {
        LaneEvent::Lost(LossCause::Full)
        | LaneEvent::Declined(LinkFault::Full, _)
        | LaneEvent::Filled => true,
        _ => false,
    }
}

/// Whether it says that a login was declined.
pub fn declines(event: LaneEvent) -> bool
    ensures { result ≡ declines event }
{
    match event {
        LaneEvent::Declined(..) => true,
        LaneEvent::Attached
        | LaneEvent::Resumed
        | LaneEvent::Cut(_)
        | LaneEvent::Lost(_)
        | LaneEvent::Filled => false,
    }
}

/// What an operator is told of it, where the lane's worker has this name. That a worker which was
/// told to shut down closes its connection is no news: it is told once it is gone. The clause is on
/// what is told, from which line and object follow: the remark borrows the name.
pub fn remark_of(event: LaneEvent, is_dismissed: bool, worker: &str) -> Option<Remark<'_>>
    ensures { option_map told result ≡ event_told is_dismissed worker.now event }
{
    match event {
        LaneEvent::Attached => Some(Remark::LoggedIn { worker }),
        LaneEvent::Resumed => Some(Remark::Resumed { worker }),
        LaneEvent::Cut(LossCause::Closed) if is_dismissed => None,
        LaneEvent::Cut(cause) => Some(Remark::Cut { worker, cause }),
        LaneEvent::Lost(LossCause::Closed | LossCause::Dismissed | LossCause::Ended)
            if is_dismissed => Some(Remark::ShutDown { worker }),
        LaneEvent::Lost(cause) => Some(Remark::Lost { worker, cause }),
        LaneEvent::Declined(fault, from) => Some(Remark::LoginRefused {
            name: worker,
            from,
            why: refusal_of(fault),
        }),
        LaneEvent::Filled => Some(Remark::Filled { worker }),
    }
}
