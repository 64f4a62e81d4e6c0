//! Where a lane's actor waits: for its mailbox, and for its worker's connections. One thread that
//! waited for all sockets and called the actors would add its own wake to the way of each line.

ghost use Rattle.std.specs.Prelude.{◌≡◌, false, Bool, IfSome};
ghost use Rattle.std.specs.List.{list_any};
ghost use Rattle.mio.specs.Events.{items};
ghost use Rattle.bm_lane_actor.specs.Arrivals.{comes_by, is_of_connection};

use bm_latent::TICK_MS;
use mio::unix::SourceFd;
use mio::{Events, Interest, Poll, Token, Waker};
use std::alloc::Global;
use std::net::{Net, TcpStream};
use std::os::fd::AsRawFd;
use std::sync::Wait;
use std::time::{Clock, Duration};
use std::{io, thread};

/// What a connection of the lane's worker is called in an event.
const CONNECTION: usize = 0;

/// What the mailbox is called.
const MAILBOX: usize = 1;

/// How many events are told at once. A lane has two connections at most.
const MOST_EVENTS: usize = 4;

/// Where an actor waits.
#[derive(Drop)]
pub(crate) struct Arrivals {
    poll: Poll,
    events: Events<Global>,
    /// Whether something came on a connection since it was asked last.
    has_come: bool,
}

/// Where an actor waits, and by what it is woken. None where descriptors or memory are wanting.
pub(crate) fn open_arrivals<N: Net>(rt: &N, alloc: Global) -> Option<(Arrivals, Waker)>
    ensures { IfSome result (λ ends. ends.0.has_come ≡ false) }
{
    let poll = Poll::new(rt).ok()?;
    let events = Events::with_capacity(alloc, MOST_EVENTS).ok()?;
    let waker = Waker::new(poll.registry(), Token(MAILBOX)).ok()?;
    let arrivals = Arrivals {
        poll,
        events,
        has_come: false,
    };
    Some((arrivals, waker))
}

/// Whether one of these events is that of a connection.
fn tells_arrival(events: &Events<Global>) -> bool
    ensures { result ≡ list_any is_of_connection (items events.now) }
{
    events.iter().any(|event| event.token().0 == CONNECTION)
}

/// Whether something came on a connection, or may have: it had, or the system refused the wait, or
/// one of its events says so.
fn comes_by(has_come: bool, is_refused: bool, events: &Events<Global>) -> bool
    ensures { result ≡ comes_by has_come is_refused (items events.now) }
{
    match (has_come, is_refused) {
        (false, false) => tells_arrival(events),
        _ => true,
    }
}

impl Arrivals {
    /// Waits until it is woken, or something comes on a connection; so long at most. Where the
    /// system refuses that it pauses for a tick, and takes it that something came.
    pub(crate) fn wait<R: Wait + Clock>(&mut self, rt: &R, most: Duration)
        ensures { (refused : Bool) × (self.new.has_come
            ≡ comes_by self.old.has_come refused (items self.new.events)) }
    {
        let is_refused = self.poll.poll(&mut self.events, Some(most)).is_err();
        if is_refused {
            thread::sleep(rt, Duration::from_millis(TICK_MS));
        }
        self.has_come = comes_by(self.has_come, is_refused, &self.events);
    }

    /// Whether something came on a connection, or may have. It is told once.
    pub(crate) fn take(&mut self) -> bool
        ensures told { result ≡ self.old.has_come }
        ensures once { self.new.has_come ≡ false }
    {
        let has_come = self.has_come;
        self.has_come = false;
        has_come
    }

    /// From now on a wait ends by what comes on this connection, or by its end. What has come
    /// before ends the next one.
    ///
    /// # Errors
    ///
    /// The system refuses, and nothing has changed.
    pub(crate) fn watch(&self, stream: &TcpStream) -> io::Result<()> {
        let fd = stream.as_raw_fd();
        self.poll
            .registry()
            .register(&mut SourceFd(&fd), Token(CONNECTION), Interest::READABLE)
    }
}
