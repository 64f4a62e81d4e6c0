//! What a master asks of the system.

use std::alloc::AllocGlobal;
use std::net::{Net, TcpListener, TcpStream};
use std::process::{Processes, SystemProcess};
use std::random::RandomSource;
use std::sync::Wait;
use std::thread::Threads;
use std::time::Clock;

/// A system with memory, threads that may wait, a clock, random numbers, sockets and processes. Who
/// has all of these has it: `HostRuntime` does. It isn't `'static`: a scope's closure would have to
/// show that the type holds no lifetime, which no clause can say.
pub trait MasterHost: Wait
    + Threads
    + Clock
    + RandomSource
    + AllocGlobal
    + Net<Listener = TcpListener, Stream = TcpStream>
    + Processes<Started = SystemProcess>
    + Copy
    + Drop
    + Send
    + Sync {}

impl<R> MasterHost for R
where
    R: Wait
        + Threads
        + Clock
        + RandomSource
        + AllocGlobal
        + Net<Listener = TcpListener, Stream = TcpStream>
        + Processes<Started = SystemProcess>
        + Copy
        + Drop
        + Send
        + Sync,
{}
