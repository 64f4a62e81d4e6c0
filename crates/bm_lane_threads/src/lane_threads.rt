//! The threads that serve lanes: their actors, the pool that drains them, and the acceptor of
//! workers' connections.

ghost use Rattle.std.specs.Prelude.{◌≡◌, false, IfNone, IfSome, IsSome, length, true};

use crate::acceptor::accept_connections;
use crate::shared::LaneThreadsShared;
use crate::sockets::SocketEvents;
use bm_coordinator::{EventSender, MasterEvent, MasterHost};
use bm_lane::{Gate, Pass, ReaderEnd, Yard, writers};
use bm_lane_actor::{
    EventSink, LaneEvent, LaneSignal, LaneState, Mailbox, WorkerStream, serve_lane,
};
use std::net::TcpListener;
use std::sync::Wait;
use std::sync::atomic::Ordering;
use std::thread::{JoinHandle, Scope, Threads};
use std::time::Clock;

/// Tells the coordinator what happens to a lane.
#[derive(Drop)]
struct LaneReporter<'s, Y: Yard, R: Wait + Clock> {
    rt: &'s R,
    events: &'s EventSender<Y>,
    lane: usize,
}

impl<'s, Y: Yard, R: Wait + Clock> EventSink for LaneReporter<'s, Y, R> {
    fn tell(&mut self, event: LaneEvent) {
        self.events
            .tell(self.rt, MasterEvent::Lane(self.lane, event));
    }
}

// Starts the actor of a lane. None where the mailbox is another lane's, or no thread can be
// started.
fn start_actor<'s, E, Y, R>(
    scope: &Scope<'s, E>,
    shared: &'s LaneThreadsShared<Y, R>,
    state: LaneState<Y, WorkerStream<R>>,
    mailbox: Mailbox<WorkerStream<R>>,
) -> Option<JoinHandle<ReaderEnd<Y>>>
where
    Y: Yard + Send + Sync + 's,
    R: Wait + Clock + Threads + Drop + Send + Sync + 's,
    ensures { IfSome result (λ thread. state.lane.lane ≡ mailbox) }
{
    if state.lane() != mailbox.lane() {
        return None;
    }
    let base = &shared.base;
    let (rt, alloc, gate) = (&base.rt, base.alloc, &base.drain_gate);
    let events = &base.events;
    let lane = state.lane() as usize;
    let reporter = LaneReporter { rt, events, lane };
    scope
        .spawn(move || serve_lane(rt, alloc, state, mailbox, gate, reporter))
        .ok()
}

// Starts the lanes' actors. The answer is whether all were started.
fn start_actors<'s, E, Y, R>(
    scope: &Scope<'s, E>,
    shared: &'s LaneThreadsShared<Y, R>,
    states: Vec<LaneState<Y, WorkerStream<R>>>,
    mailboxes: Vec<Mailbox<WorkerStream<R>>>,
    actors: &mut Vec<JoinHandle<ReaderEnd<Y>>>,
) -> bool
where
    Y: Yard + Send + Sync + 's,
    R: Wait + Clock + Threads + Drop + Send + Sync + 's,
{
    if actors.reserve(states.len()).is_err() {
        return false;
    }
    let mut mailboxes = mailboxes.into_iter();
    for state in states {
        let Some(mailbox) = mailboxes.next() else {
            return false;
        };
        let Some(actor) = start_actor(scope, shared, state, mailbox) else {
            return false;
        };
        if actors.push(actor).is_err() {
            return false;
        }
    }
    true
}

/// Starts the threads that serve lanes. The answer is also whether all were started.
pub fn start_lanes<'s, E, Y, R>(
    scope: &Scope<'s, E>,
    shared: &'s LaneThreadsShared<Y, R>,
    states: Vec<LaneState<Y, WorkerStream<R>>>,
    mailboxes: Vec<Mailbox<WorkerStream<R>>>,
    workers: TcpListener,
    sockets: SocketEvents,
) -> (LaneThreads<Y>, bool)
where
    Y: Yard + Send + Sync + 's,
    R: MasterHost + 's,
    ensures actors { result.1 ≡ true
        → (length result.0.actors.items ≡ length states.items) }
    ensures pool { result.1 ≡ true → IsSome result.0.pool }
    ensures acceptor { result.1 ≡ true → IsSome result.0.acceptor }
{
    let pool = scope.spawn(move || drain_lanes(shared)).ok();
    let lanes = states.len();
    let mut actors = Vec::new(shared.base.alloc);
    let have_started = start_actors(scope, shared, states, mailboxes, &mut actors);
    let acceptor = scope
        .spawn(move || accept_connections(shared, workers, sockets))
        .ok();
    let threads = LaneThreads {
        pool,
        actors,
        acceptor,
    };
    let are_started = have_started && threads.are_all(lanes);
    (threads, are_started)
}

/// Drains the lanes until the gate says stop. Where the pool's writers can't be started this thread
/// drains alone, so that no build waits for ever; the answer is then false. Its loop isn't the
/// pool's: one for both would have both contracts.
pub fn drain_lanes<Y, R>(shared: &LaneThreadsShared<Y, R>) -> bool
where
    Y: Yard + Send + Sync,
    R: Wait + Clock + Threads + Drop + Send + Sync,
{
    let (base, lanes) = (&shared.base, shared.writers.as_slice());
    let (rt, gate) = (&base.rt, &base.drain_gate);
    let threads = base.config.writers as usize;
    if writers(rt, base.alloc, lanes, gate, threads, u64::MAX).is_ok() {
        return true;
    }
    for _ in rt.forever() {
        for (lane, end) in lanes.iter().enumerate() {
            match gate.pass(0, lane) {
                Pass::Go => {
                    let answer = end.lock(rt).drain();
                    gate.done(0, lane, answer);
                }
                Pass::Skip => {}
                Pass::Stop => return false,
            }
        }
    }
    unreachable!()
}

/// The threads that serve lanes. None stands for one that could not be started.
#[derive(Drop)]
pub struct LaneThreads<Y: Yard> {
    pub pool: Option<JoinHandle<bool>>,
    pub actors: Vec<JoinHandle<ReaderEnd<Y>>>,
    pub acceptor: Option<JoinHandle<()>>,
}

impl<Y: Yard> LaneThreads<Y> {
    // Whether they are all that serve so many lanes.
    fn are_all(&self, lanes: usize) -> bool
        ensures actors { result ≡ true → (length self.now.actors.items ≡ lanes) }
        ensures pool { result ≡ true → IsSome self.now.pool }
        ensures acceptor { result ≡ true → IsSome self.now.acceptor }
    {
        self.actors.len() == lanes && self.pool.is_some() && self.acceptor.is_some()
    }

    /// Ends all of them: no connection is waited for any more, and the actors end while the pool
    /// still drains. The lanes' reader's ends come back in `room`, where there is room for them.
    /// The answer is also whether the pool did its work.
    pub fn end<R: Wait + Clock + Threads + Drop>(
        self,
        shared: &LaneThreadsShared<Y, R>,
        room: Vec<ReaderEnd<Y>>,
    ) -> (Vec<ReaderEnd<Y>>, bool)
        ensures { IfNone self.pool (result.1 ≡ false) }
    {
        let LaneThreads {
            pool,
            actors,
            acceptor,
        } = self;
        let rt = &shared.base.rt;
        let mut readers = room;
        shared.is_over.store(true, Ordering::SeqCst);
        for lane in shared.base.lanes.iter() {
            lane.signal(LaneSignal::Leave);
        }
        for actor in actors {
            let _ = readers.push(actor.join(rt));
        }
        if let Some(acceptor) = acceptor {
            shared.acceptor.wake();
            acceptor.join(rt);
        }
        shared.base.drain_gate.stop();
        let is_drained = match pool {
            Some(pool) => pool.join(rt),
            None => false,
        };
        (readers, is_drained)
    }
}
