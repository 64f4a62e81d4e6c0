//! A worker's life: connections in turn, and the work that outlives them.

ghost use Rattle.std.specs.Prelude.{◌≡◌, ◌∷◌, [], IfSome};
ghost use Rattle.bm_link.specs.Texts.{AreShort};
ghost use Rattle.bm_worker_threads.specs.Connections.{TriesAgain, after_end, pause_or_status};

use crate::build_worker::BuildWorker;
use crate::closing::close;
use crate::connection::{Connection, ConnectionEnd, GIVEN_UP, after_end, end_of_login};
use crate::elapsed::millis_since;
use crate::host::Host;
use crate::marks::Marks;
use crate::processes::Processes;
use crate::ready_stream::ReadyStream;
use crate::socket_watch::SocketWatch;
use crate::spare_threads::has_threads;
use crate::sweeping::Sweeper;
use bm_link::WorkerLink;
use bm_outbox::Tries;
use std::alloc::{AllocGlobal, Global};
use std::io::{Read, Write};
use std::net::{OpenStream, Shutdown};
use std::process::{Processes as StartsProcesses, SystemProcess};
use std::random::RandomSource;
use std::sync::atomic::AtomicU64;
use std::sync::{Arc, Wait};
use std::thread;
use std::thread::Threads;
use std::time::{Clock, Duration, Instant};
use tungstenite::RandomKeys;

/// How many reads a login may take. They may wait, since nothing else is done before its answer.
const LOGIN_READS: u64 = 1_000;

/// What a worker logs in with, and the host that its handshake names.
#[derive(Clone, Copy)]
pub struct Login<'a> {
    pub host: &'a str,
    pub name: &'a str,
    pub password: &'a str,
}

/// A worker whose links are over streams that are read where they are ready.
type LinkedWorker<S, R> = BuildWorker<ReadyStream<S>, RandomKeys<R>>;

/// Works for the master that `dial` connects with, and answers the exit status. It is 0 after a
/// shutdown or a close frame, and 1 after 10 failed tries to connect again or want of memory. It is
/// 1 at once where the threads of a command can't be started. `dial` connects once, and answers
/// None where that fails. A read of its streams is to wait for some seconds at the most, since a
/// login waits for its answer. What commands of workers left that are no longer there is killed
/// first, and all that its own commands left at the end. The tries last for a minute where a
/// session is named, which may be resumed, and was begun. `host` is the master's name, as it was
/// dialled. The system's parts are listed: under one trait the toolchain refuses the proof.
pub fn work_run<S, D, R>(
    rt: &R,
    dial: D,
    marks: Marks,
    host: &str,
    name: &str,
    password: &str,
    session: Option<&str>,
) -> u8
where
    S: Read + Write + OpenStream + Drop + Send + 'static,
    D: FnMut() -> Option<S>,
    R: Wait
        + Threads
        + Clock
        + RandomSource
        + AllocGlobal
        + StartsProcesses<Started = SystemProcess>
        + Copy
        + Drop
        + Send
        + Sync
        + 'static,
    requires dials { (state : _) → D.pre state }
    requires short { AreShort (name.now ∷ password.now ∷ []) }
{
    let alloc = rt.alloc();
    let login = Login {
        host,
        name,
        password,
    };
    if !has_threads(rt, alloc) {
        return GIVEN_UP;
    }
    if let Some(place) = marks.of_place() {
        Sweeper::kill_orphans(rt, alloc, place, marks.of_outer()).wait(rt);
    }
    let Ok(mut worker) = BuildWorker::new(alloc, session, marks) else {
        return GIVEN_UP;
    };
    let status = work_on(rt, alloc, &mut worker, dial, login);
    worker.processes.end(rt, alloc);
    status
}

/// Connections in turn, until the master ends the work or no connection comes to be.
fn work_on<S, D, R>(
    rt: &R,
    alloc: Global,
    worker: &mut LinkedWorker<S, R>,
    mut dial: D,
    login: Login<'_>,
) -> u8
where
    S: Read + Write + OpenStream + Drop + Send + 'static,
    D: FnMut() -> Option<S>,
    R: Host + RandomSource + AllocGlobal + Drop,
    requires dials { (state : _) → D.pre state }
    requires short { AreShort (login.name.now ∷ login.password.now ∷ []) }
{
    let begun = Instant::now(rt).ok();
    let mut number = 0u64;
    for _ in rt.forever() {
        number = number.wrapping_add(1);
        let end = match dial() {
            Some(stream) => connected(rt, alloc, worker, begun, number, stream, login),
            None => ConnectionEnd::Lost,
        };
        match try_again(&mut worker.tries, end, millis_since(rt, begun)) {
            Ok(pause) => thread::sleep(rt, Duration::from_millis(pause)),
            Err(status) => return status,
        }
    }
    unreachable!()
}

/// After how many milliseconds a worker connects again whose connection has ended so, or else its
/// exit status.
fn try_again(tries: &mut Tries, end: ConnectionEnd, now_ms: u64) -> Result<u64, u8>
    ensures { TriesAgain (after_end end) now_ms tries.old result tries.new }
{
    match after_end(end) {
        Ok(why) => pause_or_status(tries.again(why, now_ms)),
        Err(status) => Err(status),
    }
}

/// A worker without a pause before a next try gives up.
fn pause_or_status(pause: Option<u64>) -> Result<u64, u8>
    ensures { result ≡ pause_or_status pause }
{
    match pause {
        Some(pause) => Ok(pause),
        None => Err(GIVEN_UP),
    }
}

/// Logs in over a stream, and serves the connection to its end. The connection's thread is started
/// before the login, so that a worker that can't start it is given no builds. `began` is when the
/// worker did, where its clock could say it.
fn connected<S, R>(
    rt: &R,
    alloc: Global,
    worker: &mut LinkedWorker<S, R>,
    begun: Option<Instant>,
    number: u64,
    stream: S,
    login: Login<'_>,
) -> ConnectionEnd
where
    S: Read + Write + OpenStream + Drop + Send + 'static,
    R: Host + RandomSource + AllocGlobal + Drop,
    requires { AreShort (login.name.now ∷ login.password.now ∷ []) }
{
    let Some((connection, ready, watch)) = watched(alloc, &worker.processes, number, stream) else {
        return ConnectionEnd::Lost;
    };
    let handle = *rt;
    // This thread ends once the stream is shut down and nobody can ask it any more.
    if thread::spawn(rt, move || watch.run(&handle)).is_err() {
        return ConnectionEnd::Lost;
    }
    let Ok(link) = WorkerLink::open(alloc, *rt, ready, login.host) else {
        return ConnectionEnd::Lost;
    };
    let attached = match worker.log_in(rt, alloc, link, login.name, login.password) {
        Ok(attached) => attached,
        Err(fault) => return end_of_login(fault),
    };
    connection.allow_reads(0);
    if worker.texts.session().is_some() {
        worker.tries.answered(millis_since(rt, begun));
    }
    let (end, link) = worker.serve(rt, alloc, &connection, attached);
    if let Some(mut link) = link {
        if end == ConnectionEnd::Shutdown {
            close(rt, &mut link);
        }
        let _ = link.get_ref().get_ref().shutdown(Shutdown::Both);
    }
    end
}

/// A stream to be read where it is ready, with what its owner and its thread need. None where the
/// system or memory is wanting.
fn watched<S: OpenStream + Drop>(
    alloc: Global,
    processes: &Processes,
    number: u64,
    stream: S,
) -> Option<(Connection, ReadyStream<S>, SocketWatch<S>)>
    ensures { IfSome result (λ parts. (parts.0.number ≡ number) × (parts.1.stream ≡ stream)
        × (parts.2.connection ≡ number)) }
{
    let reads = Arc::new(alloc, AtomicU64::new(LOGIN_READS)).ok()?;
    let left = Arc::try_clone(&reads).ok()?;
    let (asks, asked) = crossbeam_channel::bounded(alloc, 1).ok()?;
    let watch = SocketWatch {
        connection: number,
        stream: stream.try_clone().ok()?,
        owner: processes.owner.clone().ok()?,
        asks: asked,
    };
    let connection = Connection {
        number,
        reads,
        asks,
    };
    Some((connection, ReadyStream::new(stream, left), watch))
}
