//! The web, which is served until the coordinator ends it.

ghost use Rattle.std.specs.Prelude.{◌≡◌, ◌*◌, ◌&&◌, false, not, true};
ghost use Rattle.std.specs.Duration.{as_nanos};
ghost use Rattle.bm_master_threads.specs.Stopping.{Waits};

use bm_coordinator::{CoordinatorShared, EventSender, MasterEvent};
use bm_lane::Yard;
use bm_web_server::{LogService, PauseSink, WebLimits, serve};
use std::alloc::{AllocError, AllocGlobal, Global};
use std::net::{Net, TcpListener};
use std::random::RandomSource;
use std::sync::{Arc, Mutex, Wait};
use std::thread;
use std::thread::Threads;
use std::time::{Clock, Duration};
use tokio::sync::oneshot;

/// How many threads serve the web.
const THREADS: usize = 2;

/// How many connections the web has open at once.
const CONNECTIONS: usize = 256;

/// How long a connection of the web may be idle.
const IDLE_SECONDS: u64 = 30;

/// How long a client of the web may take nothing of what is sent to it.
const STALLED_SECONDS: u64 = 30;

/// How long lies between two tries to serve.
const PAUSE_MS: u64 = 20;

/// What the web goes by.
#[derive(Drop)]
struct StopSignal {
    is_over: bool,
    /// Whoever serves now ends once this is dropped.
    going_on: Option<oneshot::Sender<()>>,
}

impl StopSignal {
    ghost use Rattle.std.specs.Prelude.{None};

    // Nobody serves yet, and nobody has ended it.
    fn new() -> StopSignal
        ensures { result ≡ record { is_over = false; going_on = None } }
    {
        StopSignal {
            is_over: false,
            going_on: None,
        }
    }

    // Ends whoever serves, and lets nobody serve any more.
    fn end(&mut self)
        ensures { self.new ≡ record { is_over = true; going_on = None } }
    {
        self.is_over = true;
        self.going_on = None;
    }

    // What tells that the web is to end. None where it was ended.
    fn wait_for(&mut self, alloc: Global) -> Result<Option<oneshot::Receiver<()>>, AllocError>
        ensures { Waits result self.old self.new }
    {
        if self.is_over {
            return Ok(None);
        }
        let (going_on, stopped) = oneshot::channel(alloc)?;
        self.going_on = Some(going_on);
        Ok(Some(stopped))
    }
}

/// Where the coordinator ends the web. It holds what ends the serving that goes on.
#[derive(Drop)]
pub struct WebStop {
    signal: Mutex<StopSignal>,
}

impl WebStop {
    /// Nobody serves yet, and nobody has ended it.
    pub fn new() -> WebStop {
        WebStop {
            signal: Mutex::new(StopSignal::new()),
        }
    }

    /// Ends what is served, and lets nothing be served any more.
    pub fn end<R: Wait>(&self, rt: &R) {
        self.signal.lock(rt).end();
    }

    // What tells that the web is to end. None where it was ended.
    fn wait_for<R: Wait>(
        &self,
        rt: &R,
        alloc: Global,
    ) -> Result<Option<oneshot::Receiver<()>>, AllocError> {
        self.signal.lock(rt).wait_for(alloc)
    }
}

/// Where it is told that readers have to wait.
#[derive(Drop)]
struct WebPauses<Y: Yard> {
    events: EventSender<Y>,
}

impl<Y: Yard> PauseSink for WebPauses<Y> {
    fn tell_paused<R: Wait>(&self, rt: &R) -> bool {
        self.events.try_tell(rt, MasterEvent::Paused)
    }
}

/// Serves the logs until the coordinator ends it. Where memory or descriptors are wanting, so that
/// it can't begin or go on, it begins anew after a while: who connects meanwhile waits. That is
/// told, and changes nothing of how the builds end.
pub fn serve_web<Y, R>(
    shared: &CoordinatorShared<Y, R>,
    stop: &WebStop,
    listener: &TcpListener,
    logs: &Arc<LogService<Y>>,
)
where
    Y: Yard + Send + Sync,
    R: Wait + Threads + Clock + RandomSource + AllocGlobal + Net + Copy + Drop + Send + Sync,
{
    let rt = &shared.rt;
    let mut is_served = true;
    for _ in rt.forever() {
        let was_served = is_served;
        match stop.wait_for(rt, shared.alloc) {
            Ok(Some(stopped)) => is_served = match shared.events.copy() {
                Ok(events) => serve_once(*rt, listener, logs, WebPauses { events }, stopped),
                Err(_) => false,
            },
            Ok(None) => return,
            Err(_) => is_served = false,
        }
        if is_told(was_served, is_served) {
            shared.events.tell(rt, MasterEvent::Paused);
        }
        thread::sleep(rt, Duration::from_millis(PAUSE_MS));
    }
    unreachable!()
}

// Whether it is told that the web isn't served: once, as that begins.
fn is_told(was_served: bool, is_served: bool) -> bool
    ensures { result ≡ was_served && not is_served }
{
    was_served && !is_served
}

// Within what bounds the web is served.
fn limits() -> WebLimits
    ensures threads { result.workers ≡ THREADS }
    ensures connections { result.connections ≡ CONNECTIONS }
    ensures idle { as_nanos result.idle ≡ IDLE_SECONDS * 1_000_000_000 }
    ensures stalled { as_nanos result.stalled ≡ STALLED_SECONDS * 1_000_000_000 }
{
    WebLimits {
        workers: THREADS,
        connections: CONNECTIONS,
        idle: Duration::from_secs(IDLE_SECONDS),
        stalled: Duration::from_secs(STALLED_SECONDS),
    }
}

// Serves the logs until they need not be served, or memory is wanting for it. False where that is
// known, or it could not begin.
fn serve_once<Y, R, P>(
    rt: R,
    listener: &TcpListener,
    logs: &Arc<LogService<Y>>,
    pauses: P,
    stopped: oneshot::Receiver<()>,
) -> bool
where
    Y: Yard + Send + Sync,
    R: Wait + Threads + Clock + RandomSource + AllocGlobal + Net + Copy + Send + Sync,
    P: PauseSink + Send + Sync,
{
    let (Ok(listener), Ok(logs)) = (listener.try_clone(), Arc::try_clone(logs)) else {
        return false;
    };
    serve(rt, limits(), listener, logs, pauses, stopped).is_ok()
}
