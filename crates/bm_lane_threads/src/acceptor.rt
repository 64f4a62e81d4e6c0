//! New connections of workers, up to their logins.
ghost use Rattle.std.specs.Prelude.{◌≡◌, IfOk, IfSome, None, option_map};
ghost use Rattle.std.specs.Arc.{arc_value};
ghost use Rattle.std.specs.Duration.{as_nanos};
ghost use Rattle.std.specs.IoError.{error_kind};
ghost use Rattle.std.specs.Thread.{IsSend, IsSync};
ghost use Rattle.mio.specs.Events.{items};
ghost use Rattle.bm_lane_actor.specs.LoginRefusals.{refusal_in};
ghost use Rattle.bm_lane_threads.specs.Arrivals.{has_connections, is_late, is_none_left, longest_wait};

use crate::shared::LaneThreadsShared;
use crate::sockets::{LISTENER, SocketEvents};
use bm_coordinator::MasterEvent;
use bm_lane::Yard;
use bm_lane_actor::{LOGIN_MS, PendingLogin, WorkerStream, log_in, refusal_in};
use bm_link::LinkFault;
use bm_operator::LoginRefusal;
use bm_remarks::RefusedConnection;
use std::alloc::Global;
use std::net::{SocketAddr, TcpListener, TcpStream};
use std::sync::atomic::{AtomicBool, Ordering};
use std::sync::{Arc, Wait};
use std::thread::{Scope, Threads};
use std::time::{Clock, Duration, Instant};
use std::{io, thread};

/// How long the acceptor waits after a connection that could not be accepted, before it tries
/// again.
const PAUSE_MS: u64 = 20;

// A connection that gave no name and isn't taken up.
fn nameless(from: SocketAddr, why: LoginRefusal) -> RefusedConnection
    ensures { result ≡ record { from = from; name = None; why = why } }
{
    let name = None;
    RefusedConnection { from, name, why }
}

// Tells the coordinator of a connection that gave no name and isn't taken up.
fn refuse<Y: Yard, R: Wait + Clock + Drop>(
    shared: &LaneThreadsShared<Y, R>,
    from: SocketAddr,
    why: LoginRefusal,
) {
    let refused = nameless(from, why);
    let base = &shared.base;
    base.events.tell(&base.rt, MasterEvent::Refused(refused));
}

// Why a connection isn't taken up whose link met this fault before its login, which took so long.
fn why_not(
    fault: LinkFault,
    is_over: bool,
    is_put_out: bool,
    took: Option<Duration>,
) -> LoginRefusal
    ensures { result ≡ refusal_in is_over is_put_out (is_late took) fault }
{
    let is_late = took.is_some_and(|took| took >= Duration::from_millis(LOGIN_MS));
    refusal_in(fault, is_over, is_put_out, is_late)
}

// Serves a connection up to its login. The answer is what is told of it where that is refused.
fn refused<Y, R>(
    shared: &LaneThreadsShared<Y, R>,
    stream: WorkerStream<R>,
    from: SocketAddr,
    began: Option<Instant>,
    pending: &PendingLogin,
) -> Option<RefusedConnection>
where
    Y: Yard + Send + Sync,
    R: Wait + Clock + Copy + Drop,
    ensures { IfSome result (λ refused. refused.from ≡ from) }
{
    let rt = &shared.base.rt;
    let (users, lanes) = (shared.users.as_slice(), shared.base.lanes.as_slice());
    let mut name = None;
    let Err(fault) = log_in(rt, shared.base.alloc, stream, users, lanes, &mut name) else {
        return None;
    };
    let took = began.and_then(|began| began.elapsed(rt).ok());
    let is_over = shared.is_over.load(Ordering::SeqCst);
    let why = why_not(fault, is_over, pending.is_put_out(), took);
    Some(RefusedConnection { from, name, why })
}

// Serves a connection up to its login, and tells the coordinator where that is refused.
fn welcome<Y, R>(
    shared: &LaneThreadsShared<Y, R>,
    stream: WorkerStream<R>,
    from: SocketAddr,
    began: Option<Instant>,
    pending: &PendingLogin,
)
where
    Y: Yard + Send + Sync,
    R: Wait + Clock + Copy + Drop,
{
    if let Some(refused) = refused(shared, stream, from, began, pending) {
        let base = &shared.base;
        base.events.tell(&base.rt, MasterEvent::Refused(refused));
    }
}

// What a connection has that came in and has not logged in.
#[derive(Drop)]
struct Entry {
    pending: Arc<PendingLogin, Global>,
    // The same, for its stream.
    own: Arc<PendingLogin, Global>,
    is_over: Arc<AtomicBool, Global>,
}

// One more connection comes in, or is told why not.
fn entered<Y, R>(shared: &LaneThreadsShared<Y, R>) -> Result<Entry, LoginRefusal>
where
    Y: Yard,
    R: Wait + Clock + Drop,
    ensures own { IfOk result (λ e. arc_value e.own ≡ arc_value e.pending) }
    ensures over { IfOk result (λ e. arc_value e.is_over ≡ arc_value shared.now.is_over) }
{
    let pending = match shared.logins.enter(&shared.base.rt, shared.base.alloc) {
        Ok(pending) => pending,
        Err(why) => return Err(why),
    };
    let number = pending.number();
    let own = Arc::try_clone(&pending);
    let is_over = Arc::try_clone(&shared.is_over);
    match (own, is_over) {
        (Ok(own), Ok(is_over)) => Ok(Entry {
            pending,
            own,
            is_over,
        }),
        _ => {
            shared.logins.leave(&shared.base.rt, number);
            Err(LoginRefusal::Memory)
        }
    }
}

// Serves a connection up to its login, in a thread of its own.
fn receive<'s, E, Y, R>(
    scope: &Scope<'s, E>,
    shared: &'s LaneThreadsShared<Y, R>,
    stream: TcpStream,
    from: SocketAddr,
)
where
    Y: Yard + Send + Sync + 's,
    R: Wait + Clock + Threads + Copy + Drop + Send + Sync + 's,
{
    let rt = &shared.base.rt;
    let Entry {
        pending,
        own,
        is_over,
    } = match entered(shared) {
        Ok(entry) => entry,
        Err(why) => return refuse(shared, from, why),
    };
    let number = pending.number();
    // Before the time for the login begins, so that one which ran out is told as that, however late
    // its thread starts.
    let began = Instant::now(rt).ok();
    let stream = WorkerStream::new(*rt, stream, from, is_over, own);
    let thread = scope.spawn(move || {
        let stream = stream;
        welcome(shared, stream, from, began, &pending);
        shared.logins.leave(rt, number);
    });
    if thread.is_err() {
        shared.logins.leave(rt, number);
        refuse(shared, from, LoginRefusal::NoThread);
    }
}

// Whether no connection is left that waits, as this error of an `accept` says.
fn is_none_left(error: &io::Error) -> bool
    ensures { result ≡ is_none_left (error_kind error.now) }
{
    error.kind() == io::ErrorKind::WouldBlock
}

// Accepts all connections that wait, and serves each in a thread of its own. True where one could
// not be accepted, and is to be tried again after a pause.
fn accept_all<'s, E, Y, R>(
    scope: &Scope<'s, E>,
    shared: &'s LaneThreadsShared<Y, R>,
    listener: &TcpListener,
    was_paused: bool,
) -> bool
where
    Y: Yard + Send + Sync + 's,
    R: Wait + Clock + Threads + Copy + Drop + Send + Sync + 's,
{
    let rt = &shared.base.rt;
    for _ in rt.forever() {
        if shared.is_over.load(Ordering::SeqCst) {
            return false;
        }
        match listener.accept() {
            Ok((stream, from)) => receive(scope, shared, stream, from),
            Err(error) if is_none_left(&error) => return false,
            Err(_) => {
                if !was_paused {
                    shared.base.events.tell(rt, MasterEvent::Paused);
                }
                return true;
            }
        }
    }
    unreachable!()
}

// Whether connections wait to be accepted.
fn has_connections(sockets: &SocketEvents) -> bool
    ensures { result ≡ has_connections (items sockets.now.events) }
{
    sockets
        .events
        .iter()
        .any(|event| event.token().0 == LISTENER)
}

// How long it waits for an event at the most: while a connection could not be accepted, a pause.
fn longest_wait(is_paused: bool) -> Option<Duration>
    ensures { option_map as_nanos result ≡ longest_wait is_paused }
{
    if is_paused {
        Some(Duration::from_millis(PAUSE_MS))
    } else {
        None
    }
}

// Accepts connections until the master ends.
fn serve_sockets<'s, E, Y, R>(
    scope: &Scope<'s, E>,
    shared: &'s LaneThreadsShared<Y, R>,
    listener: &TcpListener,
    sockets: SocketEvents,
)
where
    Y: Yard + Send + Sync + 's,
    R: Wait + Clock + Threads + Copy + Drop + Send + Sync + 's,
{
    let mut sockets = sockets;
    let mut is_paused = false;
    for _ in shared.base.rt.forever() {
        if shared.is_over.load(Ordering::SeqCst) {
            return;
        }
        if sockets
            .poll
            .poll(&mut sockets.events, longest_wait(is_paused))
            .is_err()
        {
            thread::sleep(&shared.base.rt, Duration::from_millis(PAUSE_MS));
        }
        if has_connections(&sockets) || is_paused {
            is_paused = accept_all(scope, shared, listener, is_paused);
        }
    }
}

/// Accepts connections until the master ends. Then those that have not logged in end too.
pub fn accept_connections<Y, R>(
    shared: &LaneThreadsShared<Y, R>,
    listener: TcpListener,
    sockets: SocketEvents,
)
where
    Y: Yard + Send + Sync,
    R: Wait + Clock + Threads + Copy + Drop + Send + Sync,
{
    thread::scope(
        thread::scope_env(),
        &shared.base.rt,
        |scope| -> ()
            requires { IsSend Y.row × IsSync Y.row × IsSend R.row × IsSync R.row }
        { serve_sockets(scope, shared, &listener, sockets) },
    )
}
