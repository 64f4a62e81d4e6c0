//! What a master's threads begin with, made from its configuration.

ghost use Rattle.std.specs.Prelude.{◌≡◌, IfSome, length};
ghost use Rattle.std.specs.Arc.{arc_value};
ghost use Rattle.std.specs.Option.{is_none};
ghost use Rattle.bm_master_threads.specs.Beginnings.{board_of};

use crate::threads::{SharedState, ThreadOwned};
use crate::web::WebStop;
use bm_board::Build;
use bm_build_queue::{BuildQueue, ViewerPool};
use bm_config::{Config, LockConfig, WorkerConfig};
use bm_coordinator::{Coordinator, EventReceiver, open_events};
use bm_lane::{Viewer, Yard};
use bm_lane_actor::{Mailboxes, WorkerStream, open_mailboxes};
use bm_lane_threads::{LaneThreadsShared, open_sockets};
use bm_lanes::{DealtLanes, maxima_of, slots_of};
use bm_master::Master;
use bm_programs::{WorkerList, workers_of};
use bm_remarks::Remarks;
use bm_web_server::LogService;
use std::alloc::Global;
use std::io::Write;
use std::net::{Net, SocketAddr, TcpListener};
use std::sync::{Arc, Wait};
use std::time::Clock;

/// What a master is given beside its configuration: its sockets, bound, and its streams.
#[derive(Drop)]
pub struct MasterStreams<I, O> {
    /// Where workers connect.
    pub workers: TcpListener,
    /// Where logs are served.
    pub web: TcpListener,
    pub input: I,
    pub output: O,
    /// Where remarks are told, where there is a thread that writes them.
    pub remarks: Option<Remarks>,
}

impl<I, O> MasterStreams<I, O> {
    /// The addresses of both listeners, workers' first. From now on an `accept` of workers doesn't
    /// wait. None where the system doesn't tell them.
    pub fn listen(&self) -> Option<(SocketAddr, SocketAddr)> {
        self.workers.set_nonblocking(true).ok()?;
        let workers = self.workers.local_addr().ok()?;
        let web = self.web.local_addr().ok()?;
        Some((workers, web))
    }
}

// The queue of a configuration's builds. None where memory is wanting, or the queue refuses a
// build, which never comes.
fn queue_of<Y: Yard>(
    alloc: Global,
    workers: &[WorkerConfig],
    locks: &[LockConfig],
    builds: &[Build],
    pools: Vec<ViewerPool<Y>>,
) -> Option<BuildQueue<Y>>
    ensures board { IfSome result
        (λ queue. queue.board ≡ board_of workers.now locks.now builds.now) }
    ensures pools { IfSome result (λ queue. queue.pools ≡ pools.items) }
{
    let slots = slots_of(alloc, workers)?;
    let maxima = maxima_of(alloc, locks)?;
    let mut queue = BuildQueue::new(alloc, slots.as_slice(), maxima.as_slice(), pools).ok()?;
    for build in builds {
        let Ok(_) = queue.add(alloc, build) else {
            return None;
        };
    }
    Some(queue)
}

// The coordinator of a configuration. `at` is where workers connect. None where memory is wanting.
fn coordinator_of<Y: Yard, O: Write + Drop>(
    alloc: Global,
    config: &Config,
    at: SocketAddr,
    pools: Vec<ViewerPool<Y>>,
    events: EventReceiver<Y>,
    output: O,
    remarks: Option<Remarks>,
) -> Option<Coordinator<Y, O>>
    ensures failed { IfSome result (λ c. c.failed ≡ is_none remarks) }
    ensures board { IfSome result (λ c. c.master.builds.queue.board
        ≡ board_of config.now.workers config.now.locks config.now.builds) }
{
    let list = workers_of(alloc, config, at).ok();
    let workers = config.workers.as_slice();
    let (locks, builds) = (config.locks.as_slice(), config.builds.as_slice());
    let (queue, list) = queue_of(alloc, workers, locks, builds, pools).zip(list)?;
    let WorkerList { workers, programs } = list;
    let master = Master::new(alloc, queue, workers);
    Some(Coordinator::new(alloc, events, master, programs, output, remarks))
}

/// A handle of the logs that the web serves. There are two: in what all threads share the logs
/// would still be borrowed when the end wants them whole.
type Logs<Y> = Arc<LogService<Y>>;

// The logs that these see, for the thread that serves them and for the end. None where memory is
// wanting, or there is no lane, which never comes.
fn logs_of<Y: Yard>(alloc: Global, viewers: Vec<Viewer<Y>>) -> Option<(Logs<Y>, Logs<Y>)>
    ensures lanes { IfSome result
        (λ both. (arc_value both.1).lanes ≡ length viewers.items) }
    ensures same { IfSome result (λ both. arc_value both.0 ≡ arc_value both.1) }
{
    if viewers.is_empty() {
        return None;
    }
    let logs = Arc::new(alloc, LogService::new(alloc, viewers).ok()?).ok()?;
    let served = Arc::try_clone(&logs).ok();
    served.zip(Some(logs))
}

/// What all threads share, and what each of them owns, before the first of them starts. With these
/// come the logs that the web serves, for the end. `at` is where workers connect. None where
/// memory is wanting. A part of this would have the same bounds and clauses once more.
pub fn prepare<Y, R, I, O>(
    rt: &R,
    alloc: Global,
    config: Config,
    streams: MasterStreams<I, O>,
    ends: DealtLanes<Y, R, WorkerStream<R>>,
    at: SocketAddr,
) -> Option<
    (
        SharedState<Y, R>,
        ThreadOwned<Y, R, I, O>,
        Arc<LogService<Y>>,
    ),
>
where
    Y: Yard,
    R: Wait + Clock + Net + Copy + Drop,
    I: Drop,
    O: Write + Drop,
    ensures { IfSome result (λ r. r.1.states ≡ ends.states) }
{
    let all = open_mailboxes(rt, alloc, ends.states.len());
    let (events, all) = open_events(alloc).ok().zip(all)?;
    let (sender, events) = events;
    let (sockets, acceptor) = open_sockets(rt, alloc, &streams.workers)?;
    let Mailboxes { handles, mailboxes } = all;
    let DealtLanes {
        states,
        writers,
        pools,
        web_viewers,
    } = ends;
    let MasterStreams {
        workers,
        web,
        input,
        output,
        remarks,
    } = streams;
    let coordinator = coordinator_of(alloc, &config, at, pools, events, output, remarks);
    let lanes = LaneThreadsShared::new(rt, alloc, config, handles, sender, acceptor, writers);
    let (made, logs) = lanes.zip(coordinator).zip(logs_of(alloc, web_viewers))?;
    let (lanes, coordinator) = made;
    let (served, logs) = logs;
    let owned = ThreadOwned {
        states,
        mailboxes,
        workers,
        sockets,
        web,
        logs: served,
        coordinator,
        input,
    };
    let web_stop = WebStop::new();
    Some((SharedState { lanes, web_stop }, owned, logs))
}
