//! What the coordinator is told.

ghost use Rattle.std.specs.Prelude.{◌≡◌, IfSome};

use bm_lane::Yard;
use bm_lane_actor::LaneEvent;
use bm_master::FinishedBuild;
use bm_remarks::{RefusedConnection, ReportedStep};
use crossbeam_channel::{Receiver, Sender, unbounded};
use std::alloc::{AllocError, Global};
use std::sync::Wait;
use std::thread;
use std::time::{Clock, Duration};

/// How long a sender waits before it tries again where memory was wanting.
const PAUSE_MS: u64 = 10;

/// What the coordinator is told.
#[derive(Drop)]
pub enum MasterEvent<Y: Yard> {
    /// By the actor of this lane.
    Lane(usize, LaneEvent),
    /// By the thread of a build that has ended.
    Ended(FinishedBuild<Y>),
    /// Something happened to a step of a build.
    Step(ReportedStep),
    /// This build obeys a cancel.
    Cancelling(u64),
    /// A connection was not taken up.
    Refused(RefusedConnection),
    /// No connection could be accepted just now.
    Paused,
    /// A line of standard input cancels this build.
    Cancel(u64),
    /// A line of standard input asks for nothing.
    Misread,
    /// Standard input has ended.
    InputEnded,
}

/// Where events are sent. Sending never waits for the coordinator.
#[derive(Drop)]
pub struct EventSender<Y: Yard> {
    sender: Sender<MasterEvent<Y>, Global>,
}

/// Where events arrive.
#[derive(Drop)]
pub struct EventReceiver<Y: Yard> {
    receiver: Receiver<MasterEvent<Y>, Global>,
}

/// A channel for events, by both its ends.
///
/// # Errors
///
/// Memory is wanting.
pub fn open_events<Y: Yard>(
    alloc: Global,
) -> Result<(EventSender<Y>, EventReceiver<Y>), AllocError> {
    let (sender, receiver) = unbounded(alloc)?;
    Ok((EventSender { sender }, EventReceiver { receiver }))
}

impl<Y: Yard> EventSender<Y> {
    /// Another sender of the same channel, for another thread.
    pub fn copy(&self) -> Result<EventSender<Y>, AllocError> {
        Ok(EventSender {
            sender: self.sender.clone()?,
        })
    }

    /// Tells the coordinator. Where memory is wanting it is tried again after a while. So no event
    /// is lost but those that come after the coordinator has left.
    pub fn tell<R: Wait + Clock>(&self, rt: &R, event: MasterEvent<Y>) {
        send_at_last(rt, &self.sender, event);
    }

    /// Tells the coordinator at once. False where memory is wanting, or it has left: then it isn't
    /// told.
    pub fn try_tell<R: Wait>(&self, rt: &R, event: MasterEvent<Y>) -> bool {
        self.sender.send(rt, event).is_ok()
    }
}

// Sends a message. It comes back where memory is wanting. It is generic: else its proof would take
// an event of each kind apart.
fn unsent<T: Drop, R: Wait>(rt: &R, sender: &Sender<T, Global>, message: T) -> Option<T>
    ensures { IfSome result (λ back. back ≡ message) }
{
    match sender.send(rt, message) {
        Err(error) if !error.is_disconnected() => Some(error.into_inner()),
        _ => None,
    }
}

// Sends a message, again after a while where memory is wanting.
fn send_at_last<T: Drop, R: Wait + Clock>(rt: &R, sender: &Sender<T, Global>, message: T) {
    let mut left = unsent(rt, sender, message);
    for _ in rt.forever() {
        let Some(message) = left else {
            return;
        };
        thread::sleep(rt, Duration::from_millis(PAUSE_MS));
        left = unsent(rt, sender, message);
    }
}

impl<Y: Yard> EventReceiver<Y> {
    /// Waits for the next event without an end. None once nobody can send any more.
    pub fn wait<R: Wait>(&self, rt: &R) -> Option<MasterEvent<Y>> {
        self.receiver.recv(rt).ok()
    }

    /// None where no event comes within this time.
    pub fn wait_for<R: Wait + Clock>(&self, rt: &R, most: Duration) -> Option<MasterEvent<Y>> {
        self.receiver.recv_timeout(rt, most).ok()
    }

    /// How many events lie ready.
    pub fn count(&self) -> u64 {
        self.receiver.len() as u64
    }

    /// None where no event lies ready.
    pub fn look<R: Wait>(&self, rt: &R) -> Option<MasterEvent<Y>> {
        self.receiver.try_recv(rt).ok()
    }
}
