//! A build master, from its sockets to its last line.
ghost use Rattle.std.specs.Prelude.{◌≡◌, IfSome, length, map, Ok};
ghost use Rattle.bm_session.specs.Trace.{below};
ghost use Rattle.bm_lane.specs.Placed.{ArePlaced, new_readers};

use crate::begin_fault::BeginFault;
use crate::ending::end;
use crate::setup::{MasterStreams, prepare};
use crate::threads::{SharedState, ThreadOwned, run_threads};
use crate::waiting_stream::WaitingStream;
use bm_config::{Config, UnknownKey, WorkerConfig};
use bm_coordinator::MasterHost;
use bm_lane::{Blank, Yard, ends_of_all};
use bm_lane_actor::WorkerStream;
use bm_lanes::{DealtLanes, deal, open_all};
use bm_operator::{OutputLine, REFUSED};
use bm_remarks::Remarks;
use bm_web_server::LogService;
use std::alloc::Global;
use std::io;
use std::io::{Read, Write};
use std::marker::Brand;
use std::net::{SocketAddr, TcpListener};
use std::sync::{Arc, Wait};
use std::time::Clock;

// Tells of a key whose address can't be bound, and why.
fn refuse<F: Write>(
    faults: &mut F,
    key: &str,
    at: SocketAddr,
    why: &io::Error,
) -> Result<u8, BeginFault>
    ensures { result ≡ Ok REFUSED }
{
    // Where it can't be told, the status still says that the configuration is refused.
    let _ = writeln!(
        faults,
        "bad configuration: {key}\nconfiguration: {key}: {at} can't be bound: {why}"
    );
    Ok(REFUSED)
}

/// Runs a build master: its workers connect, its builds run once each, and their logs are served
/// on the web. It goes on until the input has ended and every build is over.
///
/// The result is the exit status. It is 0 where each build ended SUCCESS or WARNINGS and nothing
/// failed. It is 2 where an address can't be bound, which is told on `faults`. Else it is 1, as
/// after a failed write to `output`.
///
/// A line `cancel I` of the input cancels build I. On `output` stands `listening ADDR ADDR` first,
/// for workers and for the web. Once every build is over, `build I RESULT` stands there for each.
/// At the end it is `lane NAME COMMANDS LINES` for each worker. On `faults` stand remarks for an
/// operator, first of what the master has, and of the keys that nobody reads. A stream that would
/// block is waited for.
///
/// # Errors
///
/// Why it could not begin. No build was run then.
pub fn serve<R, I, O, F>(
    rt: &R,
    config: Config,
    unknown: &[UnknownKey],
    input: I,
    output: O,
    faults: F,
) -> Result<u8, BeginFault>
where
    R: MasterHost + 'static,
    I: Read + Drop + Send,
    O: Write + Drop + Send,
    F: Write + Drop + Send + 'static,
{
    let alloc = rt.alloc();
    let mut faults = WaitingStream::new(*rt, faults);
    let workers = match TcpListener::bind(rt, config.listen) {
        Ok(workers) => workers,
        Err(why) => return refuse(&mut faults, "listen", config.listen, &why),
    };
    let web = match TcpListener::bind(rt, config.web) {
        Ok(web) => web,
        Err(why) => return refuse(&mut faults, "web", config.web, &why),
    };
    let Some(blanks) = open_all(*rt, alloc, config.capacity, config.workers.as_slice()) else {
        return Err(BeginFault::Room);
    };
    let remarks = Remarks::open(rt, alloc, config.remarks, faults);
    let streams = MasterStreams {
        workers,
        web,
        input: WaitingStream::new(*rt, input),
        output: WaitingStream::new(*rt, output),
        remarks,
    };
    run::<Brand, R, WaitingStream<R, I>, WaitingStream<R, O>>(
        rt, alloc, blanks, config, unknown, streams,
    )
}

// The ends of these lanes, by who owns them. None where memory is wanting.
fn ends_by_owner<Y: Yard, R: Wait + Clock + Drop>(
    alloc: Global,
    workers: &[WorkerConfig],
    blanks: Vec<Blank<R>>,
) -> Option<DealtLanes<Y, R, WorkerStream<R>>>
    requires placed { ArePlaced Y.queue Y.copy 0 blanks.items }
    ensures readers { IfSome result
        (λ lanes. map (λ s. s.lane) lanes.states.items ≡ new_readers 0 blanks.items) }
    ensures writers { IfSome result
        (λ lanes. length lanes.writers.items ≡ length blanks.items) }
    ensures web_viewers { IfSome result (λ lanes. map (λ v. v.lane) lanes.web_viewers.items
        ≡ below (length lanes.web_viewers.items)) }
{
    match ends_of_all::<Y, R>(alloc, blanks) {
        Ok(all) => deal(alloc, workers, all),
        Err(_) => None,
    }
}

// Runs a master over these blanks, and answers its exit status.
fn run<Y, R, I, O>(
    rt: &R,
    alloc: Global,
    blanks: Vec<Blank<R>>,
    config: Config,
    unknown: &[UnknownKey],
    streams: MasterStreams<I, O>,
) -> Result<u8, BeginFault>
where
    Y: Yard + Send + Sync,
    R: MasterHost,
    I: Read + Drop + Send,
    O: Write + Drop + Send,
    requires placed { ArePlaced Y.queue Y.copy 0 blanks.items }
{
    let Some((workers, web)) = streams.listen() else {
        drop(streams);
        return Err(BeginFault::Room);
    };
    let Some(ends) = ends_by_owner::<Y, R>(alloc, config.workers.as_slice(), blanks) else {
        drop(streams);
        return Err(BeginFault::Room);
    };
    match prepare(rt, alloc, config, streams, ends, workers) {
        Some((shared, owned, logs)) => {
            let listening = OutputLine::Listening { workers, web };
            run_prepared(shared, owned, logs, listening, unknown)
        }
        None => Err(BeginFault::Room),
    }
}

// Runs a master that is prepared, and answers its exit status. Where it can't be told where it
// listens nobody could connect: then no thread is started.
fn run_prepared<Y, R, I, O>(
    shared: SharedState<Y, R>,
    owned: ThreadOwned<Y, R, I, O>,
    logs: Arc<LogService<Y>>,
    listening: OutputLine<'_>,
    unknown: &[UnknownKey],
) -> Result<u8, BeginFault>
where
    Y: Yard + Send + Sync,
    R: MasterHost,
    I: Read + Drop + Send,
    O: Write + Drop + Send,
{
    let mut owned = owned;
    if !owned
        .coordinator
        .greet(&shared.lanes.base, listening, unknown)
    {
        drop(owned);
        return Err(BeginFault::Output);
    }
    match run_threads(&shared, owned) {
        Some(left) => Ok(end(shared.lanes, left, logs)),
        None => Err(BeginFault::Thread),
    }
}
