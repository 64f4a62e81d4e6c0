//! What the worker waits for.

use bm_outbox::{Keepalive, PipeEnd, Said};
use crossbeam_channel::Sender;
use std::sync::Wait;

/// What the thread of a pipe tells of it.
#[derive(Drop)]
pub enum PipeEvent {
    /// The next text.
    Text(Said),
    /// All texts were told.
    End(PipeEnd),
    /// Memory is wanting for the next text.
    NoMemory,
}

/// What a pipe's thread tells, and by number which of the worker's processes the pipe is of.
#[derive(Drop)]
pub struct ProcessEvent {
    pub process: u64,
    pub event: PipeEvent,
}

/// What the worker's one mailbox brings. Were the socket read for a while at a time instead, lines
/// would wait for that while, and an idle worker would wake.
#[derive(Drop)]
pub enum WorkerMail {
    /// What came of a pipe of a process.
    Process(ProcessEvent),
    /// The connection with this number has bytes to read, or has ended: a read of it won't wait.
    Readable(u64),
    /// The connection with this number is silent, and this is to be done about it.
    Silent(u64, Keepalive),
}

/// Puts mail before its owner. False where nobody hears it any more.
pub(crate) fn send<R: Wait>(rt: &R, owner: &Sender<WorkerMail>, mail: WorkerMail) -> bool {
    match owner.send(rt, mail) {
        Ok(()) => true,
        Err(_) => false,
    }
}
