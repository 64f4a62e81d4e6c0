//! The threads of a master, from the first to the last.
//!
//! | thread | owns | ends |
//! |-|-|-|
//! | first | the web's socket | with the coordinator, which it joins |
//! | pool | nothing: it drains the shared writers' ends | once the gate is stopped |
//! | actor, one a lane | the lane's state and its mailbox | once its mailbox is told `Leave` |
//! | acceptor | the workers' listener | woken once `is_over` is set |
//! | coordinator | builds, workers, output and remarks | once all builds and the input have ended |
//! | input | standard input | with it |
//!
//! Below the acceptor stands a thread for each connection without a login, below the coordinator
//! one for each build. The thread of remarks stands by itself.
ghost use Rattle.std.specs.Prelude.{◌≡◌, false, IfNone, IfSome, is_some};
ghost use Rattle.std.specs.Thread.{IsSend, IsSync};

use crate::input::start_input;
use crate::web::{WebStop, serve_web};
use bm_coordinator::{Coordinator, MasterHost, coordinate};
use bm_lane::{ReaderEnd, Yard};
use bm_lane_actor::{LaneState, Mailbox, WorkerStream};
use bm_lane_threads::{LaneThreads, LaneThreadsShared, SocketEvents, start_lanes};
use bm_web_server::LogService;
use std::io::{Read, Write};
use std::net::TcpListener;
use std::sync::{Arc, Wait};
use std::thread;
use std::thread::{JoinHandle, Scope};
use std::time::Clock;

/// What all threads of a master share.
#[derive(Drop)]
pub struct SharedState<Y: Yard, R: Wait + Clock + Drop> {
    /// What those have of it that serve lanes, and in that what the coordinator has.
    pub lanes: LaneThreadsShared<Y, R>,
    /// By what the web is ended.
    pub web_stop: WebStop,
}

/// What each thread of a master owns from its start on. It is one struct, since one for each step
/// of the preparation would hide who owns what.
#[derive(Drop)]
pub struct ThreadOwned<Y: Yard, R: Wait + Clock + Drop, I, O> {
    /// The actors': the state of each lane, and its mailbox, in the order of the lanes.
    pub states: Vec<LaneState<Y, WorkerStream<R>>>,
    pub mailboxes: Vec<Mailbox<WorkerStream<R>>>,
    /// The acceptor's. Its `accept` doesn't wait.
    pub workers: TcpListener,
    /// The acceptor's: where it waits.
    pub sockets: SocketEvents,
    /// The first thread's: where it serves, and what.
    pub web: TcpListener,
    pub logs: Arc<LogService<Y>>,
    /// The coordinator, which hasn't begun.
    pub coordinator: Coordinator<Y, O>,
    /// The input thread's.
    pub input: I,
}

/// What the threads leave once all have ended.
#[derive(Drop)]
pub struct MasterLeft<Y: Yard, O> {
    /// The reader's end of each lane whose actor was started.
    pub readers: Vec<ReaderEnd<Y>>,
    pub coordinator: Coordinator<Y, O>,
    /// Whether the pool did its work to the end.
    pub is_whole: bool,
}

// Joins the coordinator, and then ends the threads that serve lanes. None where there is no
// coordinator. `room` is for the lanes' reader's ends.
fn join_all<Y, R, O>(
    lanes: &LaneThreadsShared<Y, R>,
    coordinator: Option<JoinHandle<Coordinator<Y, O>>>,
    lane_threads: LaneThreads<Y>,
    room: Vec<ReaderEnd<Y>>,
) -> Option<MasterLeft<Y, O>>
where
    Y: Yard,
    R: MasterHost,
    O: Drop,
    ensures left { is_some result ≡ is_some coordinator }
    ensures whole { IfSome result
        (λ left. IfNone lane_threads.pool (left.is_whole ≡ false)) }
{
    let left = match coordinator {
        Some(thread) => Some(thread.join(&lanes.base.rt)),
        None => None,
    };
    let (readers, is_whole) = lane_threads.end(lanes, room);
    match left {
        Some(coordinator) => Some(MasterLeft {
            readers,
            coordinator,
            is_whole,
        }),
        None => None,
    }
}

// Does the coordinator's work to its end, and then ends the web.
fn coordinate_all<Y, R, O>(
    shared: &SharedState<Y, R>,
    coordinator: Coordinator<Y, O>,
) -> Coordinator<Y, O>
where
    Y: Yard + Send + Sync,
    R: MasterHost,
    O: Write + Drop,
{
    let base = &shared.lanes.base;
    let left = coordinate(base, coordinator);
    shared.web_stop.end(&base.rt);
    left
}

// Starts the coordinator, and the thread that reads the input for it. None where one of them can't
// be started: a master that hears no input would go on for ever.
fn start_coordinator<'s, E, Y, R, I, O>(
    scope: &Scope<'s, E>,
    shared: &'s SharedState<Y, R>,
    coordinator: Coordinator<Y, O>,
    input: I,
) -> Option<JoinHandle<Coordinator<Y, O>>>
where
    Y: Yard + Send + Sync + 's,
    R: MasterHost + 's,
    I: Read + Drop + Send + 's,
    O: Write + Drop + Send + 's,
{
    let base = &shared.lanes.base;
    let begin = start_input(scope, base, input)?;
    let thread = scope
        .spawn(move || coordinate_all(shared, coordinator))
        .ok();
    let _ = begin.send(&base.rt, thread.is_some());
    thread
}

// Starts each thread with what it owns, serves the web in this one, and joins them. None where one
// of them could not be started, or memory is wanting. The web is served here, so that what is
// served is never handed to another thread.
fn run_all<'s, E, Y, R, I, O>(
    scope: &Scope<'s, E>,
    shared: &'s SharedState<Y, R>,
    owned: ThreadOwned<Y, R, I, O>,
) -> Option<MasterLeft<Y, O>>
where
    Y: Yard + Send + Sync + 's,
    R: MasterHost + 's,
    I: Read + Drop + Send + 's,
    O: Write + Drop + Send + 's,
{
    let (lanes, base) = (&shared.lanes, &shared.lanes.base);
    let Ok(room) = Vec::with_capacity(base.alloc, lanes.writers.len()) else {
        drop(owned);
        return None;
    };
    let ThreadOwned {
        states,
        mailboxes,
        workers,
        sockets,
        web,
        logs,
        coordinator,
        input,
    } = owned;
    let (lane_threads, are_started) = start_lanes(
        scope, lanes, states, mailboxes, workers, sockets,
    );
    let coordinator = if are_started {
        start_coordinator(scope, shared, coordinator, input)
    } else {
        drop(coordinator);
        drop(input);
        None
    };
    if coordinator.is_none() {
        shared.web_stop.end(&base.rt);
    }
    serve_web(base, &shared.web_stop, &web, &logs);
    join_all(lanes, coordinator, lane_threads, room)
}

/// Runs all threads, and joins them. None where one of them could not be started, or memory is
/// wanting.
pub fn run_threads<Y, R, I, O>(
    shared: &SharedState<Y, R>,
    owned: ThreadOwned<Y, R, I, O>,
) -> Option<MasterLeft<Y, O>>
where
    Y: Yard + Send + Sync,
    R: MasterHost,
    I: Read + Drop + Send,
    O: Write + Drop + Send,
{
    let left = thread::scope(
        thread::scope_env(),
        &shared.lanes.base.rt,
        |scope| -> Option<MasterLeft<Y, O>>
            requires { IsSend Y.row × IsSync Y.row × IsSend R.row × IsSync R.row × IsSend I.row
                × IsSend O.row }
        { run_all(scope, shared, owned) },
    );
    left
}
