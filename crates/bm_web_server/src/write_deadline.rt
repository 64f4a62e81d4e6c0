//! Sockets whose peers have to read on.
ghost use Rattle.std.specs.Prelude.{◌≡◌, false};
ghost use Rattle.futures.specs.Task.{IsArmed, Keeps};
ghost use Rattle.futures.specs.Poll.{OnPending};

use futures::Future;
use futures::task::{Context, Poll};
use std::io;
use std::time::{Clock, Duration, Instant};
use tokio::io::{AsyncRead, AsyncWrite};
use tokio::time::Sleep;

/// A socket of which a call that was to pass bytes on fails once such calls were pending for so
/// long.
#[derive(Drop)]
pub struct WriteDeadline<I, R> {
    io: I,
    rt: R,
    limit: Duration,
    end: Sleep,
    is_late: bool,
}

impl<I, R: Clock> WriteDeadline<I, R> {
    /// The socket, with a timer of its own. No call is pending.
    pub fn new(io: I, rt: R, limit: Duration, end: Sleep) -> WriteDeadline<I, R>
        ensures io { result.io ≡ io }
        ensures limit { result.limit ≡ limit }
        ensures idle { result.is_late ≡ false }
    {
        WriteDeadline {
            io,
            rt,
            limit,
            end,
            is_late: false,
        }
    }

    // What a pending call comes to: it goes on to be pending, or is given up.
    fn poll_late(&mut self, cx: &mut Context<'_>) -> Poll<io::Error>
        ensures io { self.new.io ≡ self.old.io }
        ensures armed { OnPending result (IsArmed cx.new) }
        ensures kept { Keeps cx.old cx.new }
    {
        if !self.is_late {
            let Ok(now) = Instant::now(&self.rt) else {
                return Poll::Ready(io::ErrorKind::TimedOut.into());
            };
            let Some(end) = now.checked_add(self.limit) else {
                return Poll::Ready(io::ErrorKind::TimedOut.into());
            };
            self.end.reset(end);
            self.is_late = true;
        }
        match self.end.poll(cx) {
            Poll::Ready(_) => Poll::Ready(io::ErrorKind::TimedOut.into()),
            Poll::Pending => Poll::Pending,
        }
    }
}

impl<I: AsyncRead, R: Drop> AsyncRead for WriteDeadline<I, R> {
    ghost needs = { λ t. I.needs t.io };

    ghost reads = { λ a xs b. I.reads a.io xs b.io };

    ghost is_at_end = { λ t. I.is_at_end t.io };

    ghost fails = { λ t. I.fails t.io };

    ghost reads_nothing = { λ t. I.reads_nothing t.io };

    ghost reads_in_order = { λ a xs b ys c. I.reads_in_order a.io xs b.io ys c.io };

    fn poll_read(&mut self, cx: &mut Context<'_>, buf: &mut [u8]) -> Poll<io::Result<usize>> {
        self.io.poll_read(cx, buf)
    }
}

impl<I: AsyncWrite, R: Clock + Drop> AsyncWrite for WriteDeadline<I, R> {
    ghost needs = { λ t. I.needs t.io };

    ghost writes = { λ a xs b. I.writes a.io xs b.io };

    ghost is_flushed = { λ t. I.is_flushed t.io };

    ghost is_shut_down = { λ t. I.is_shut_down t.io };

    ghost is_full = { λ t. I.is_full t.io };

    ghost writes_nothing = { λ t. I.writes_nothing t.io };

    ghost writes_in_order = { λ a xs b ys c. I.writes_in_order a.io xs b.io ys c.io };

    fn poll_write(&mut self, cx: &mut Context<'_>, buf: &[u8]) -> Poll<io::Result<usize>> {
        if let Poll::Ready(written) = self.io.poll_write(cx, buf) {
            self.is_late = false;
            return Poll::Ready(written);
        }
        match self.poll_late(cx) {
            Poll::Ready(error) => Poll::Ready(Err(error)),
            Poll::Pending => Poll::Pending,
        }
    }

    fn poll_flush(&mut self, cx: &mut Context<'_>) -> Poll<io::Result<()>> {
        self.io.poll_flush(cx)
    }

    fn poll_shutdown(&mut self, cx: &mut Context<'_>) -> Poll<io::Result<()>> {
        self.io.poll_shutdown(cx)
    }
}
