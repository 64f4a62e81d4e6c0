//! Serves until it is told to stop.
ghost use Rattle.std.specs.Prelude.{◌<◌};

use crate::admission::{Admission, Entrance, PauseSink};
use crate::connections::Connections;
use crate::handler::Handler;
use futures::StreamExt;
use hyper::rt::TokioTimer;
use hyper::server::conn::http1::Builder;
use std::alloc::AllocGlobal;
use std::hash::RandomState;
use std::net::Net;
use std::random::RandomSource;
use std::sync::{Arc, Wait};
use std::thread::Threads;
use std::time::{Clock, Duration};
use std::{io, net};
use tokio::runtime::Runtime;
use tokio::sync::oneshot;
use tokio::time::Handle;

/// How many milliseconds connections may go on after the stop.
const GRACE_MS: u64 = 200;

/// How many bytes wait to be sent on a connection, beside one piece of a body.
const BUFFERED: usize = 65_536;

/// What a server allows.
#[derive(Clone, Copy)]
pub struct WebLimits {
    /// How many threads serve connections.
    pub workers: usize,
    /// How many connections are open at once. Others wait, unaccepted.
    pub connections: usize,
    /// How long a connection may wait for a request's head, or take over it, until it is closed.
    pub idle: Duration,
    /// How long a client may take nothing of what is sent to it, until the connection is closed.
    pub stalled: Duration,
}

/// Serves over HTTP/1.1 until `stop` is ready or its sender is gone, and at most a moment longer,
/// whatever clients do. Then nobody but the caller holds what was served. An error says that
/// serving could not begin. `sink` is told where connections wait for want of descriptors or
/// memory.
pub fn serve<R, S, P>(
    rt: R,
    limits: WebLimits,
    listener: net::TcpListener,
    service: Arc<S>,
    sink: P,
    stop: oneshot::Receiver<()>,
) -> io::Result<()>
where
    R: Wait + Threads + Clock + RandomSource + AllocGlobal + Net + Copy + Send + Sync,
    S: Handler + Send + Sync,
    S::Rest: Send,
    S::Source: Send,
    P: PauseSink + Send + Sync,
    requires { 0 < limits.workers }
{
    let mut runtime = Runtime::with_worker_threads(&rt, limits.workers)?;
    runtime.set_shutdown_timeout(Some(Duration::from_millis(GRACE_MS)));
    let entrance = Entrance::open(&rt, listener, limits.connections, runtime.handle())?;
    let http = http_settings(rt, runtime.handle().time(), limits.idle)?;
    let admission = Admission {
        rt,
        alloc: rt.alloc(),
        entrance,
        service,
        stalled: limits.stalled,
        is_pausing: false,
        sink,
        is_told: false,
    };
    let connections = Connections::new(admission.take_until(stop), http);
    runtime.run_all(&rt, connections)
}

/// How a connection is served, which may take so long over a request's head.
fn http_settings<R>(rt: R, timers: &Handle, idle: Duration) -> io::Result<Builder<TokioTimer<R>>>
where
    R: Clock + RandomSource + AllocGlobal + Copy,
{
    let keys = RandomState::new(&rt)?;
    let timer = TokioTimer::new(rt, timers.clone()?);
    let mut http = Builder::new(rt.alloc(), keys).timer(timer);
    http.header_read_timeout(Some(idle));
    http.max_buf_size(BUFFERED);
    // Who has asked may close its side, and still gets the answer.
    http.half_close(true);
    Ok(http)
}
