//! The build worker: logs in to a build master and runs the commands that it is told.
//!
//! Promised: it is safe. All else that is promised stands in the libraries: what a master is sent
//! in `bm_worker_session`, what is told of a command in `bm_worker_threads`.
//!
//! A body could still connect to another address. What is done here with the command line and the
//! network is only tested.
#![tactic(auto)]

use bm_worker_threads::{Marks, USAGE, new_session, read_arguments, words, work_run};
use std::net::{Net, TcpStream, ToSocketAddrs};
use std::process::ExitCode;
use std::time::Duration;

/// The exit status for words that ask for nothing that the program does.
const WRONG_WORDS: u8 = 2;

/// How long a login waits for its master, and how often the worker looks how long one is silent.
const READ_LIMIT_SECONDS: u64 = 5;

/// How long a master may take nothing of what it is sent: as long as it may be silent. Writes wait
/// in the thread that hears orders, and a session that is lost so is resumed.
const WRITE_LIMIT_SECONDS: u64 = 60;

/// How long a connection may take to come to be.
const CONNECT_LIMIT_SECONDS: u64 = 1;

fn main(rt: HostRuntime) -> ExitCode {
    let Ok(words) = words(&rt) else {
        return ExitCode::FAILURE;
    };
    let Some(arguments) = read_arguments(words.as_slice()) else {
        // Where the usage can't be told, the status still says that the words are wrong.
        let _ = eprintln!(rt; "{USAGE}");
        return ExitCode::from(WRONG_WORDS);
    };
    let Ok(session) = new_session(&rt) else {
        return ExitCode::FAILURE;
    };
    let session = Some(session.as_str());
    let Ok(marks) = Marks::new(&rt) else {
        return ExitCode::FAILURE;
    };
    let dial = || dial(&rt, arguments.address);
    ExitCode::from(work_run(
        &rt,
        dial,
        marks,
        arguments.address,
        arguments.name,
        arguments.password,
        session,
    ))
}

/// A connection with the first address that a host's name stands for. Small messages leave at once,
/// and neither a read nor a write waits for ever.
fn dial<R: Net<Stream = TcpStream>>(rt: &R, address: &str) -> Option<TcpStream> {
    let first = address.to_socket_addrs(rt).ok()?.next()?;
    let limit = Duration::from_secs(CONNECT_LIMIT_SECONDS);
    let stream = TcpStream::connect_timeout(rt, &first, limit).ok()?;
    stream.set_nodelay(true).ok()?;
    let read_limit = Duration::from_secs(READ_LIMIT_SECONDS);
    stream.set_read_timeout(Some(read_limit)).ok()?;
    let write_limit = Duration::from_secs(WRITE_LIMIT_SECONDS);
    stream.set_write_timeout(Some(write_limit)).ok()?;
    Some(stream)
}
