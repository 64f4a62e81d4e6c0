//! How a connection is closed, so that nothing that was sent is lost.

ghost use Rattle.std.specs.Prelude.{◌≡◌, ◌≤◌, ◌*◌, IfSome, Result};
ghost use Rattle.std.specs.Time.{instant_nanos};
ghost use Rattle.std.specs.Duration.{as_nanos};
ghost use Rattle.bm_link.specs.Working.{ClosesAt};
ghost use Rattle.bm_link.specs.declared.fault.LinkFault.{LinkFault};
ghost use Rattle.bm_worker_threads.specs.Serving.{OnlyHears};
ghost use Rattle.bm_worker_threads.specs.Silences.{nanos_left};

use crate::build_worker::BuildWorker;
use crate::connection::Connection;
use crate::host::Host;
use crate::mailbox::WorkerMail;
use crate::ready_stream::ReadyStream;
use bm_commands::Input;
use bm_link::{Turn, WorkerLink};
use bumpalo::Bump;
use std::alloc::Global;
use std::io;
use std::io::{Read, Write};
use std::net::{OpenStream, Shutdown};
use std::sync::Wait;
use std::time::{Clock, Duration, Instant};
use tungstenite::MaskKeys;

/// How long a worker that was told to end waits for its last answers.
const LAST_ANSWERS_SECONDS: u64 = 1;

/// How long a worker that has said its close frame waits for its master's end of the connection.
const LAST_BYTES_SECONDS: u64 = 1;

impl<S: Read + Write + Drop, K: MaskKeys + Drop> BuildWorker<S, K> {
    /// Kills all commands, and hears the answers to what was said of them, for a second at the
    /// most. A master that finds its connection closed may not look at what came before that.
    pub(crate) fn hear_last_answers<R: Host>(
        &mut self,
        rt: &R,
        alloc: Global,
        arena: &mut Bump,
        connection: &Connection,
    )
        ensures session { OnlyHears self.old.session self.new.session }
        ensures texts { self.new.texts ≡ self.old.texts }
        ensures tries { self.new.tries ≡ self.old.tries }
    {
        // Only a kill of one process wants memory.
        let _ = self.processes.put(rt, alloc, Input::Ends);
        let Some(deadline) = after(rt, LAST_ANSWERS_SECONDS) else {
            return;
        };
        for _ in rt.forever() {
            let is_open = self.hears_all(rt, alloc, arena);
            if !is_open || !self.session.has_unanswered() || !connection.ask(rt) {
                return;
            }
            if !self.is_readable_by(rt, connection.number, deadline) {
                return;
            }
            connection.allow_reads(1);
        }
    }

    /// Waits until the connection with this number has bytes to read, and forgets all other mail.
    /// The answer is false where that isn't so until then.
    fn is_readable_by<R: Wait + Clock>(&mut self, rt: &R, number: u64, deadline: Instant) -> bool
        ensures { self.new ≡ record self.old { processes = self.new.processes } }
    {
        for _ in rt.forever() {
            match self.processes.wait_until(rt, deadline) {
                Some(WorkerMail::Readable(one)) if one == number => return true,
                Some(_) => {}
                None => return false,
            }
        }
        unreachable!()
    }

    /// Hears the messages that have come, and does nothing else that they ask; or answers that the
    /// connection has ended.
    fn hears_all<R: Wait>(&mut self, rt: &R, alloc: Global, arena: &mut Bump) -> bool
        ensures session { OnlyHears self.old.session self.new.session }
        ensures others { self.new ≡ record self.old { session = self.new.session } }
    {
        for _ in rt.forever() {
            match self.session.hear(alloc, arena) {
                Ok((Turn::Quiet, _)) => return true,
                Ok(_) => {}
                Err(_) => return false,
            }
        }
        unreachable!()
    }
}

/// The moment so many seconds from now. None where the clock fails.
fn after<R: Clock>(rt: &R, seconds: u64) -> Option<Instant>
    ensures { IfSome result (λ moment. seconds * 1_000_000_000 ≤ instant_nanos moment) }
{
    let now = Instant::now(rt).ok()?;
    now.checked_add(Duration::from_secs(seconds))
}

/// Closes a connection. A close frame goes out, and what still comes is read until the other end
/// closes, for a second at the most. Bytes that nobody read would reset the connection, and
/// what was written last would be lost with it.
pub(crate) fn close<S, K, R>(rt: &R, link: &mut WorkerLink<ReadyStream<S>, K>)
where
    S: Read + Write + OpenStream + Drop,
    K: MaskKeys + Drop,
    R: Clock,
    ensures { (sent : Result (Unit {0}) LinkFault) × ClosesAt (λ ready. S.contents ready.stream)
        link.old.failed link.old sent link.new }
{
    // Where it can't be sent the other end is told by the stream's end alone.
    let _ = link.close();
    read_to_end(rt, link.get_ref().get_ref());
}

/// The time from now to the deadline: zero once it has passed, or where the clock fails.
fn left_until(now: io::Result<Instant>, deadline: Instant) -> Duration
    ensures { as_nanos result ≡ nanos_left now deadline }
{
    match now {
        Ok(now) => deadline.saturating_duration_since(now),
        Err(_) => Duration::ZERO,
    }
}

/// Ends a stream for writing, and reads it to its end, for a second at the most.
fn read_to_end<S, R>(rt: &R, stream: &S)
where
    S: Read + OpenStream + Drop,
    R: Clock,
{
    let (Ok(mut rest), Some(deadline)) = (stream.try_clone(), after(rt, LAST_BYTES_SECONDS)) else {
        return;
    };
    let _ = stream.shutdown(Shutdown::Write);
    let mut room = [0u8; 4096];
    for _ in 0..u64::MAX {
        let left = left_until(Instant::now(rt), deadline);
        if left.is_zero() || stream.set_read_timeout(Some(left)).is_err() {
            return;
        }
        match rest.read(&mut room) {
            Ok(0) | Err(_) => return,
            Ok(_) => {}
        }
    }
}
