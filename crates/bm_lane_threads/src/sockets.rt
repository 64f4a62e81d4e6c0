//! What the acceptor waits for: a connection, or the master's end.

ghost use Rattle.std.specs.Prelude.{◌≡◌, [], IfSome};
ghost use Rattle.mio.specs.Events.{capacity, items};

use mio::unix::SourceFd;
use mio::{Events, Interest, Poll, Token, Waker};
use std::alloc::Global;
use std::net::{Net, TcpListener};
use std::os::fd::AsRawFd;

/// What the listener is called in an event.
pub const LISTENER: usize = 0;

/// What the master's end is called.
const END: usize = 1;

/// How many events are told at once.
const MOST_EVENTS: usize = 2;

/// Where the acceptor waits.
#[derive(Drop)]
pub struct SocketEvents {
    /// Where it waits.
    pub poll: Poll,
    /// What had come when it last woke.
    pub events: Events<Global>,
}

/// By what others wake the acceptor.
#[derive(Drop)]
pub struct AcceptorWaker {
    waker: Waker,
}

/// Where the acceptor of this listener waits, whose `accept` doesn't wait; and by what it is woken.
/// None where descriptors or memory are wanting.
pub fn open_sockets<R: Net>(
    rt: &R,
    alloc: Global,
    listener: &TcpListener,
) -> Option<(SocketEvents, AcceptorWaker)>
    ensures events { IfSome result (λ both. items both.0.events ≡ []) }
    ensures room { IfSome result (λ both. capacity both.0.events ≡ MOST_EVENTS) }
{
    let poll = Poll::new(rt).ok()?;
    let events = Events::with_capacity(alloc, MOST_EVENTS).ok()?;
    let fd = listener.as_raw_fd();
    poll.registry()
        .register(&mut SourceFd(&fd), Token(LISTENER), Interest::READABLE)
        .ok()?;
    let waker = Waker::new(poll.registry(), Token(END)).ok()?;
    Some((SocketEvents { poll, events }, AcceptorWaker { waker }))
}

impl AcceptorWaker {
    /// Wakes the acceptor, which then looks whether the master ends.
    pub fn wake(&self) {
        let _ = self.waker.wake();
    }
}
