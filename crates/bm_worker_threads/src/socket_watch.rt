//! A connection's thread: it tells where the socket has something to read, or was silent for long.

use crate::mailbox::{WorkerMail, send};
use crate::silence::{Silence, shows_silence};
use bm_outbox::Keepalive;
use crossbeam_channel::{Receiver, Sender};
use std::net::OpenStream;
use std::sync::Wait;
use std::time::{Clock, Instant};

/// A connection's thread. It tells whenever a read of the stream won't wait, and reads nothing
/// itself: it would need buffers with bounds. So the kernel's buffer is the bound, and the link's
/// own reads find every end. Each time its stream's own limit for a read has passed, it looks how
/// long the silence lasts.
#[derive(Drop)]
pub struct SocketWatch<S> {
    pub connection: u64,
    pub stream: S,
    pub owner: Sender<WorkerMail>,
    /// Each of these asks it to look again.
    pub asks: Receiver<()>,
}

impl<S: OpenStream + Drop> SocketWatch<S> {
    /// Tells whenever it is asked, until nobody can ask any more.
    pub fn run<R: Wait + Clock>(self, rt: &R) {
        for _ in rt.forever() {
            if self.asks.recv(rt).is_err() || !self.watch(rt) {
                return;
            }
        }
    }

    /// Tells once a read of the stream won't wait, or its master counts as lost; or answers that
    /// nobody hears it. Each look waits for a byte, or for the stream's own limit for a read.
    fn watch<R: Wait + Clock>(&self, rt: &R) -> bool {
        let mut silence = Silence::new(Instant::now(rt).ok());
        for _ in rt.forever() {
            let mut byte = [0u8; 1];
            if !shows_silence(self.stream.peek(&mut byte)) {
                return send(rt, &self.owner, WorkerMail::Readable(self.connection));
            }
            let next = silence.next(Instant::now(rt).ok());
            if next == Keepalive::Wait {
                continue;
            }
            let is_heard = send(rt, &self.owner, WorkerMail::Silent(self.connection, next));
            if !is_heard || next == Keepalive::GiveUp {
                return is_heard;
            }
        }
        unreachable!()
    }
}
