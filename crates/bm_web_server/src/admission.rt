//! Connections that are taken in, so many at once.
ghost use Rattle.std.specs.Prelude.{◌≡◌};
ghost use Rattle.futures.specs.Task.{IsArmed, Keeps};
ghost use Rattle.futures.specs.Poll.{OnPending};

use crate::connections::Visit;
use crate::handler::Handler;
use crate::pages::Pages;
use crate::write_deadline::WriteDeadline;
use futures::task::{Context, Poll};
use futures::{Future, Stream, ready};
use std::alloc::{AllocGlobal, Global};
use std::sync::{Arc, Wait};
use std::time::{Clock, Duration, Instant};
use std::{io, net};
use tokio::net::{Incoming, TcpListener, TcpStream};
use tokio::runtime;
use tokio::sync::{OwnedSemaphorePermit, Semaphore};
use tokio::time::{Handle, Sleep};

/// How many milliseconds no connection is taken in after one that could not be.
const PAUSE_MS: u64 = 20;

/// Who is told that connections have to wait.
pub trait PauseSink: Drop {
    /// A connection could not be taken in, for want of descriptors or memory. It is told once,
    /// until nobody waits any more. False where it could not be told: then it is tried again.
    fn tell_paused<R: Wait>(&self, rt: &R) -> bool;
}

type Visitor<R, S> = Visit<WriteDeadline<TcpStream, R>, Pages<R, S>, OwnedSemaphorePermit>;

/// Where connections come in: the listener, the places that they may take, and the timers that they
/// need.
#[derive(Drop)]
pub struct Entrance {
    incoming: Incoming,
    places: Arc<Semaphore>,
    timers: Handle,
    pause: Sleep,
}

impl Entrance {
    /// The entrance of a listener, for so many connections at once.
    pub fn open<R: Clock + AllocGlobal>(
        rt: &R,
        listener: net::TcpListener,
        connections: usize,
        handle: &runtime::Handle,
    ) -> io::Result<Entrance> {
        let alloc = rt.alloc();
        let listener = TcpListener::from_std(listener, handle.reactor())?;
        let timers = handle.time().clone()?;
        let pause = timers.sleep(rt, Duration::from_millis(PAUSE_MS))?;
        let places = connections.min(Semaphore::MAX_PERMITS);
        let places = Arc::new(alloc, Semaphore::new(alloc, places)?)?;
        Ok(Entrance {
            incoming: listener.incoming(),
            places,
            timers,
            pause,
        })
    }

    // A place for one more connection, if there is one.
    fn place(&self) -> Option<OwnedSemaphorePermit> {
        let places = Arc::try_clone(&self.places).ok()?;
        Semaphore::try_acquire_owned(places).ok()
    }
}

/// The connections of a listener, of which each holds a place until it ends. Where one can't be
/// taken in, since descriptors, memory or places are wanting, there is a pause before the next is
/// tried. That descriptors or memory are wanting for one that waits is told.
#[derive(Drop)]
pub struct Admission<R, S, P> {
    pub rt: R,
    pub alloc: Global,
    pub entrance: Entrance,
    pub service: Arc<S>,
    /// How long a connection lives whose peer takes nothing of what is sent.
    pub stalled: Duration,
    pub is_pausing: bool,
    pub sink: P,
    /// Whether somebody waits, and that was told.
    pub is_told: bool,
}

impl<R: Wait + Clock + Copy, S: Handler, P: PauseSink> Admission<R, S, P> {
    // The next socket of a connection. Where one waits that can't be had, this is told.
    fn poll_socket(&mut self, cx: &mut Context<'_>) -> Poll<Option<TcpStream>>
        ensures armed { OnPending result (IsArmed cx.new) }
        ensures kept { Keeps cx.old cx.new }
    {
        match self.entrance.incoming.poll_next(cx) {
            Poll::Ready(Some(Ok(socket))) => Poll::Ready(Some(socket)),
            Poll::Ready(_) => {
                self.is_told = self.is_told || self.sink.tell_paused(&self.rt);
                Poll::Ready(None)
            }
            Poll::Pending => {
                self.is_told = false;
                Poll::Pending
            }
        }
    }

    // The next connection, or none where one could not be taken in.
    fn poll_visit(&mut self, cx: &mut Context<'_>) -> Poll<Option<Visitor<R, S>>>
        ensures armed { OnPending result (IsArmed cx.new) }
        ensures kept { Keeps cx.old cx.new }
    {
        let Some(pages) = self.pages() else {
            return Poll::Ready(None);
        };
        let Some(place) = self.entrance.place() else {
            return Poll::Ready(None);
        };
        match ready!(self.poll_socket(cx)) {
            Some(socket) => Poll::Ready(self.visit(socket, pages, place)),
            None => Poll::Ready(None),
        }
    }

    // What a connection is served with.
    fn pages(&self) -> Option<Pages<R, S>> {
        match Arc::try_clone(&self.service) {
            Ok(service) => Some(Pages {
                rt: self.rt,
                alloc: self.alloc,
                service,
            }),
            Err(_) => None,
        }
    }

    // The connection of a socket. None where no timer is to be had for it.
    fn visit(
        &self,
        socket: TcpStream,
        pages: Pages<R, S>,
        place: OwnedSemaphorePermit,
    ) -> Option<Visitor<R, S>> {
        // An answer is several writes. Without this the next would wait until the client has
        // acknowledged the last. Where it can't be set, the answers come all the same.
        let _ = socket.set_nodelay(true);
        match self.entrance.timers.sleep(&self.rt, self.stalled) {
            Ok(timer) => Some(Visit {
                socket: WriteDeadline::new(socket, self.rt, self.stalled, timer),
                pages,
                place,
            }),
            Err(_) => None,
        }
    }

    // Begins a pause.
    fn poll_pause(&mut self, cx: &mut Context<'_>) -> Poll<Option<Visitor<R, S>>>
        ensures pending { result ≡ Poll.Pending }
        ensures armed { IsArmed cx.new }
        ensures kept { Keeps cx.old cx.new }
    {
        if let Ok(now) = Instant::now(&self.rt)
            && let Some(end) = now.checked_add(Duration::from_millis(PAUSE_MS))
        {
            self.entrance.pause.reset(end);
            if self.entrance.pause.poll(cx).is_pending() {
                self.is_pausing = true;
                return Poll::Pending;
            }
        }
        cx.yield_now()
    }
}

impl<R: Wait + Clock + Copy, S: Handler, P: PauseSink> Stream for Admission<R, S, P> {
    type Item = Visitor<R, S>;

    fn poll_next(&mut self, cx: &mut Context<'_>) -> Poll<Option<Visitor<R, S>>> {
        if self.is_pausing {
            let _ = ready!(self.entrance.pause.poll(cx));
            self.is_pausing = false;
        }
        match ready!(self.poll_visit(cx)) {
            Some(visit) => Poll::Ready(Some(visit)),
            None => self.poll_pause(cx),
        }
    }
}
