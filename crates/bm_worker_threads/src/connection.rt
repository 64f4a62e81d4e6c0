//! What the worker's owner has of a connection, and how one ends.

ghost use Rattle.std.specs.Prelude.{◌≡◌};
ghost use Rattle.bm_worker_threads.specs.Connections.{after_end, end_of_login};

use bm_link::LinkFault;
use bm_outbox::ConnectFault;
use crossbeam_channel::Sender;
use std::alloc::Global;
use std::sync::atomic::{AtomicU64, Ordering};
use std::sync::{Arc, Wait};

/// The exit status of a worker whose master ended its work.
const DONE: u8 = 0;

/// The exit status of a worker that gave up.
pub(crate) const GIVEN_UP: u8 = 1;

/// How a connection ended. It has no `thiserror`: it decides what the worker does next, and nobody
/// would read its text.
#[derive(Clone, Copy, PartialEq, Eq)]
pub enum ConnectionEnd {
    /// The master asked for the end of the worker.
    Shutdown,
    /// The master closed the connection.
    Closed,
    /// The connection was lost, or its login got no answer.
    Lost,
    /// The master refused the login.
    Refused,
    /// Memory is wanting.
    NoMemory,
}

/// Why a worker connects again once a connection has ended so, or else its exit status.
pub(crate) fn after_end(end: ConnectionEnd) -> Result<ConnectFault, u8>
    ensures { result ≡ after_end end }
{
    match end {
        ConnectionEnd::Shutdown | ConnectionEnd::Closed => Err(DONE),
        ConnectionEnd::NoMemory => Err(GIVEN_UP),
        ConnectionEnd::Refused => Ok(ConnectFault::Refused),
        ConnectionEnd::Lost => Ok(ConnectFault::NoAnswer),
    }
}

/// How a connection ends whose login failed so.
pub(crate) fn end_of_login(fault: LinkFault) -> ConnectionEnd
    ensures { result ≡ end_of_login fault }
{
    match fault {
        LinkFault::BadLogin => ConnectionEnd::Refused,
        _ => ConnectionEnd::Lost,
    }
}

/// A connection's number, how many reads of its stream are left, and where its thread is asked to
/// look for more of them.
#[derive(Drop)]
pub struct Connection {
    pub number: u64,
    pub reads: Arc<AtomicU64, Global>,
    pub asks: Sender<()>,
}

impl Connection {
    /// Sets how many reads of the stream won't wait.
    pub fn allow_reads(&self, count: u64) {
        self.reads.store(count, Ordering::SeqCst);
    }

    /// Has the connection's thread look for more to read. False where that thread has ended.
    pub fn ask<R: Wait>(&self, rt: &R) -> bool {
        self.asks.send(rt, ()).is_ok()
    }
}
