//! The mailbox of a lane's actor: the requests that wait in it, and the signals beside them.

ghost use Rattle.std.specs.Prelude.{◌≡◌, ◌<◌, ◌==◌, false, All, IfOk, IfSome, IfNone};
ghost use Rattle.bm_session.specs.Trace.{below};
ghost use Rattle.bm_lane_actor.specs.Mailboxes.{IsBack, handed_back, place_of};

use crate::arrivals::{Arrivals, open_arrivals};
use crate::lane_request::{LaneRequest, LaneSignal};
use bm_latent::TICK_MS;
use bm_link::MasterLink;
use crossbeam_channel::{
    Receiver, RecvTimeoutError, SendTimeoutError, Sender, TryRecvError, bounded,
};
use mio::Waker;
use std::alloc::{AllocError, Global};
use std::io;
use std::marker::Model;
use std::net::{Net, TcpStream};
use std::sync::atomic::{AtomicBool, Ordering};
use std::sync::{Arc, Wait};
use std::time::{Clock, Duration};

/// How many requests a mailbox holds before those who send have to wait.
const MOST_REQUESTS: usize = 64;

/// How long a link waits for room in a mailbox, in milliseconds.
const ATTACH_MS: u64 = 1_000;

/// What both ends of a mailbox share. Beside the waker these are the signals that were given and
/// not taken.
#[derive(Drop)]
struct SharedFlags {
    signals: [AtomicBool; 3],
    /// Set once the actor has left.
    is_shut: AtomicBool,
    /// What wakes the actor.
    waker: Waker,
}

impl SharedFlags {
    fn new(waker: Waker) -> SharedFlags
        ensures { result.waker ≡ waker }
    {
        SharedFlags {
            signals: [
                AtomicBool::new(false),
                AtomicBool::new(false),
                AtomicBool::new(false),
            ],
            is_shut: AtomicBool::new(false),
            waker,
        }
    }

    fn flag(&self, signal: LaneSignal) -> &AtomicBool {
        &self.signals[place_of(signal)]
    }
}

/// The place of a signal's flag. Each has its own.
fn place_of(signal: LaneSignal) -> usize
    ensures place { result ≡ place_of signal }
    ensures bound { result < 3 }
{
    match signal {
        LaneSignal::ShutDown => 0,
        LaneSignal::Ended => 1,
        LaneSignal::Leave => 2,
    }
}

/// What became of a message that was sent to a mailbox with a limit of time.
#[derive(Drop)]
pub(crate) enum HandOver<T> {
    Taken,
    /// The mailbox had no room for it.
    Back(T),
    /// The mailbox is shut, since its actor has left.
    Left,
}

/// Sends a message once there is room. False where its receiver is gone. It is generic, as
/// `send_within` is: else its proof would take a request of each kind apart.
fn is_sent<T: Drop, R: Wait>(rt: &R, sender: &Sender<T, Global>, message: T) -> bool {
    sender.send(rt, message).is_ok()
}

/// Sends a message once there is room, within this time.
fn send_within<T: Drop, R: Wait + Clock>(
    rt: &R,
    sender: &Sender<T, Global>,
    message: T,
    most: Duration,
) -> HandOver<T>
    ensures { IsBack message result }
{
    match sender.send_timeout(rt, message, most) {
        Ok(()) => HandOver::Taken,
        Err(SendTimeoutError::Timeout(message)) => HandOver::Back(message),
        Err(_) => HandOver::Left,
    }
}

/// What became of a link whose request has come back.
fn handed_back<S: Drop>(request: LaneRequest<S>) -> HandOver<MasterLink<S>>
    ensures { result ≡ handed_back request }
{
    match request {
        LaneRequest::Attach(link) => HandOver::Back(link),
        _ => HandOver::Left,
    }
}

/// The end of a mailbox for those who send. Contracts see the number of its lane.
#[derive(Drop)]
pub struct LaneHandle<S> {
    lane: u64,
    sender: Sender<LaneRequest<S>, Global>,
    shared: Arc<SharedFlags, Global>,
}

impl<S> Model for LaneHandle<S> {
    ghost use Rattle.std.specs.Prelude.{ℕ};

    ghost Value = { ℕ };

    ghost view = { λ h. h.lane };
}

/// The end of a mailbox for the lane's actor. Contracts see the number of its lane.
#[derive(Drop)]
pub struct Mailbox<S> {
    lane: u64,
    receiver: Receiver<LaneRequest<S>, Global>,
    shared: Arc<SharedFlags, Global>,
    arrivals: Arrivals,
}

impl<S> Model for Mailbox<S> {
    ghost use Rattle.std.specs.Prelude.{ℕ};

    ghost Value = { ℕ };

    ghost view = { λ m. m.lane };
}

/// The mailbox of a lane's actor, by both its ends. None where descriptors or memory are wanting.
pub fn open_mailbox<S: Drop, N: Net>(
    rt: &N,
    alloc: Global,
    lane: u64,
) -> Option<(LaneHandle<S>, Mailbox<S>)>
    ensures handle { IfSome result (λ ends. ends.0 ≡ lane) }
    ensures mailbox { IfSome result (λ ends. ends.1 ≡ lane) }
{
    let (arrivals, waker) = open_arrivals(rt, alloc)?;
    let (sender, receiver) = bounded(alloc, MOST_REQUESTS).ok()?;
    let shared = Arc::new(alloc, SharedFlags::new(waker)).ok()?;
    let handle = LaneHandle {
        lane,
        sender,
        shared: Arc::try_clone(&shared).ok()?,
    };
    let mailbox = Mailbox {
        lane,
        receiver,
        shared,
        arrivals,
    };
    Some((handle, mailbox))
}

/// The mailboxes of lane 0, lane 1 and so on, by both their ends.
#[derive(Drop)]
pub struct Mailboxes<S: Drop> {
    pub handles: Vec<LaneHandle<S>>,
    pub mailboxes: Vec<Mailbox<S>>,
}

/// The mailboxes of so many lanes. None where descriptors or memory are wanting.
pub fn open_mailboxes<S: Drop, N: Net>(rt: &N, alloc: Global, lanes: usize) -> Option<Mailboxes<S>>
    ensures handles { IfSome result (λ all. all.handles.items ≡ below lanes) }
    ensures mailboxes { IfSome result (λ all. all.mailboxes.items ≡ below lanes) }
{
    let mut handles = Vec::new(alloc);
    let mut mailboxes = Vec::new(alloc);
    for lane in 0..lanes {
        let Some((handle, mailbox)) = open_mailbox(rt, alloc, lane as u64) else {
            return None;
        };
        if handles.push(handle).is_err() {
            drop(mailbox);
            return None;
        }
        if mailboxes.push(mailbox).is_err() {
            return None;
        }
    }
    Some(Mailboxes { handles, mailboxes })
}

/// The handle of the lane of this number. None where there is none.
pub fn handle_of<S: Drop>(handles: &[LaneHandle<S>], lane: usize) -> Option<&LaneHandle<S>>
    ensures found { IfSome result (λ handle. handle.now ≡ lane) }
    ensures none { IfNone result (All (λ handle. (handle == lane) ≡ false) handles.now) }
{
    handles.iter().find(|handle| handle.lane() == lane as u64)
}

impl<S: Drop> LaneHandle<S> {
    /// Another end of the same mailbox.
    pub fn copy(&self) -> Result<LaneHandle<S>, AllocError>
        ensures { IfOk result (λ handle. handle ≡ self.now) }
    {
        Ok(LaneHandle {
            lane: self.lane,
            sender: self.sender.clone()?,
            shared: Arc::try_clone(&self.shared)?,
        })
    }

    /// The number of its lane.
    pub fn lane(&self) -> u64
        ensures { result ≡ self.now }
    {
        self.lane
    }

    /// Sends the actor a request, once its mailbox has room. It answers false where the actor has
    /// left.
    pub fn tell<R: Wait>(&self, rt: &R, request: LaneRequest<S>) -> bool {
        if self.is_shut() {
            drop(request);
            return false;
        }
        let is_sent = is_sent(rt, &self.sender, request);
        if is_sent {
            self.wake();
        }
        is_sent
    }

    /// Wakes the actor, or has its next wait end at once.
    fn wake(&self) {
        let _ = self.shared.waker.wake();
    }

    /// Hands the actor a link that has logged in. It comes back where the mailbox has no room for
    /// a second.
    pub(crate) fn attach<R: Wait + Clock>(
        &self,
        rt: &R,
        link: MasterLink<S>,
    ) -> HandOver<MasterLink<S>>
        ensures { IsBack link result }
    {
        if self.is_shut() {
            drop(link);
            return HandOver::Left;
        }
        let most = Duration::from_millis(ATTACH_MS);
        match send_within(rt, &self.sender, LaneRequest::Attach(link), most) {
            HandOver::Taken => {
                self.wake();
                HandOver::Taken
            }
            HandOver::Back(request) => handed_back(request),
            HandOver::Left => HandOver::Left,
        }
    }

    /// Gives the actor a signal, and doesn't wait for it. Where the mailbox is full the actor looks
    /// at it all the same, after its next request. One that it has yet to take wakes it once.
    pub fn signal(&self, signal: LaneSignal) {
        if !self.shared.flag(signal).swap(true, Ordering::SeqCst) {
            self.wake();
        }
    }

    /// What the actor answers to a request that it was sent. None where it has left before: a
    /// request that nobody takes stays in the mailbox, and what would answer it with it.
    pub(crate) fn answer<A: Drop, R: Wait + Clock>(
        &self,
        rt: &R,
        answers: &Receiver<A, Global>,
    ) -> Option<A> {
        for _ in rt.forever() {
            match answers.recv_timeout(rt, Duration::from_millis(TICK_MS)) {
                Ok(answer) => return Some(answer),
                Err(RecvTimeoutError::Timeout) if !self.is_shut() => {}
                Err(_) => return None,
            }
        }
        unreachable!()
    }

    fn is_shut(&self) -> bool {
        self.shared.is_shut.load(Ordering::SeqCst)
    }
}

/// What was found in a mailbox.
#[derive(Drop)]
pub(crate) enum NextRequest<S> {
    Request(LaneRequest<S>),
    Nothing,
    /// Nobody is left who could send.
    Left,
}

impl<S: Drop> Mailbox<S> {
    /// The number of its lane.
    pub fn lane(&self) -> u64
        ensures { result ≡ self.now }
    {
        self.lane
    }

    /// The actor leaves: from now on nobody who sends waits for it.
    pub(crate) fn shut(&self) {
        self.shared.is_shut.store(true, Ordering::SeqCst);
    }

    /// Whether the signal was given, told once.
    pub(crate) fn takes(&self, signal: LaneSignal) -> bool {
        self.shared.flag(signal).swap(false, Ordering::SeqCst)
    }

    /// From now on a wait ends by what comes on this connection, or by its end.
    ///
    /// # Errors
    ///
    /// The system refuses, and nothing has changed.
    pub(crate) fn watch(&self, stream: &TcpStream) -> io::Result<()> {
        self.arrivals.watch(stream)
    }

    /// Whether something came on a connection of the lane's worker, or may have. It is told once.
    pub(crate) fn has_arrival(&mut self) -> bool
        ensures lane { self.new ≡ self.old }
    {
        self.arrivals.take()
    }

    /// The next request, if there is one within this time. The wait ends early where a signal is
    /// given, or something comes on a connection.
    pub(crate) fn wait_for<R: Wait + Clock>(&mut self, rt: &R, most: Duration) -> NextRequest<S>
        ensures lane { self.new ≡ self.old }
    {
        match self.look(rt) {
            NextRequest::Nothing => {}
            next => return next,
        }
        self.arrivals.wait(rt, most);
        self.look(rt)
    }

    /// The next request, if there is one.
    pub(crate) fn look<R: Wait>(&self, rt: &R) -> NextRequest<S> {
        match self.receiver.try_recv(rt) {
            Ok(request) => NextRequest::Request(request),
            Err(TryRecvError::Empty) => NextRequest::Nothing,
            Err(TryRecvError::Disconnected) => NextRequest::Left,
        }
    }
}
