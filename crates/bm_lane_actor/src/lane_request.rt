//! What a lane's actor is asked for.

use crate::byte_count::ByteCount;
use crate::order_outcome::OrderOutcome;
use bm_board::Words;
use bm_link::MasterLink;
use crossbeam_channel::Sender;
use std::alloc::Global;
use std::sync::Arc;
use std::sync::atomic::AtomicBool;

/// Whether a build is cancelled, shared by the coordinator, which sets it, the build and the actor.
pub type CancelFlag = Arc<AtomicBool, Global>;

/// A command that is to be started.
#[derive(Drop)]
pub struct StartOrder {
    pub words: Words,
    /// Counts what its updates carry.
    pub bytes: ByteCount,
    /// Once it is set the command isn't started any more. None for a step that always runs.
    pub cancelled: Option<CancelFlag>,
}

/// What a lane's actor is asked for by a message, in turn.
#[derive(Drop)]
pub enum LaneRequest<S> {
    /// A link of the lane's worker has logged in.
    Attach(MasterLink<S>),
    /// Start a command, and answer what came of it.
    Start(StartOrder, Sender<OrderOutcome, Global>),
    /// Interrupt this command as soon as the lane takes that order. Answer whether it is kept until
    /// then: it isn't where memory is wanting.
    Interrupt(u64, Sender<bool, Global>),
    /// The build of this command, which was started, asks for it no more.
    Seen(u64),
    /// Answer once all that happened to the lane so far was told.
    Settle(Sender<(), Global>),
    /// The master ends: tell a login that waits `busy`, and answer.
    PutOff(Sender<(), Global>),
}

/// What a lane's actor is told before the messages in its mailbox. Who tells it never waits.
#[derive(Clone, Copy)]
pub enum LaneSignal {
    /// Ask the worker to shut down: from then on its session isn't resumed.
    ShutDown,
    /// The worker's process has ended: its session isn't resumed.
    Ended,
    /// Give the session up, and hand the lane's end back.
    Leave,
}
