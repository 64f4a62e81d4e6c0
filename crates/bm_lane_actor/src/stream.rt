//! A worker's connection, whose calls all end in time.

ghost use Rattle.std.specs.Prelude.{◌≡◌, None, false, IfErr};
ghost use Rattle.std.specs.Bool.{OnFalse, OnTrue};
ghost use Rattle.std.specs.Io.{ReadsAtMost, WritesAtMost};
ghost use Rattle.std.specs.IoError.{error_kind};
ghost use Rattle.bm_lane_actor.specs.ReadWatch.{is_drained};
ghost use Rattle.bm_lane_actor.specs.StreamCalls.{ReadsBy, is_made, is_unmade};

use crate::call_times::{CallTimes, WRITE_MS};
use crate::pending_login::PendingLogin;
use crate::read_watch::{LastRead, is_drained};
use crate::stream_calls::{
    StreamFlags, aborted, ends_peek, is_ended, is_unmade, meets_nothing, reads_again, timed_out,
};
use std::alloc::Global;
use std::io::{Read, Write};
use std::net::{SocketAddr, TcpStream};
use std::sync::atomic::{AtomicBool, AtomicU64, Ordering};
use std::sync::{Arc, Wait};
use std::time::{Clock, Duration, Instant};
use std::{io, thread};

/// How long a read of a login waits before it looks whether the master ends, in milliseconds.
const READ_MS: u64 = 20;

/// How long a write pauses where the socket has no room, in milliseconds.
const ROOM_MS: u64 = 1;

/// How many reads in a row may meet nothing before a read fails.
const MOST_READS: u32 = 1_000_000;

/// How many writes in a row may meet nothing before one fails.
const MOST_WRITES: u32 = 10_000;

/// A worker's connection. Nobody waits for its worker for long:
///
/// - A read of a login that met nothing is made again. It ends with the time for a login, with the
///   master, or where its place is given to another connection.
/// - Then a read waits for nothing: who reads is woken once there is more. After the time of a turn
///   it says that nothing came, whatever comes. What was read stays with who reads, and the rest is
///   read by the next turn.
/// - A write fails where the worker reads too slowly. Once the master ends it has a tenth of a
///   second.
/// - Once the worker is given up, each call fails.
#[derive(Drop)]
pub struct WorkerStream<R> {
    stream: TcpStream,
    rt: R,
    /// Where it came from.
    from: SocketAddr,
    /// Whether its place was given to another one before it logged in.
    pending: Arc<PendingLogin, Global>,
    is_logged_in: AtomicBool,
    /// How many reads gave something. Any byte is a sign of life: a pong may wait behind a long
    /// message.
    heard: AtomicU64,
    is_given_up: AtomicBool,
    last_read: LastRead,
    /// Set once the master ends.
    is_over: Arc<AtomicBool, Global>,
    times: CallTimes,
}

impl<R: Clock> WorkerStream<R> {
    /// A connection from this address, whose time for the login begins. It ends with what sets the
    /// flag.
    pub fn new(
        rt: R,
        stream: TcpStream,
        from: SocketAddr,
        is_over: Arc<AtomicBool, Global>,
        pending: Arc<PendingLogin, Global>,
    ) -> WorkerStream<R>
        ensures stream { result.stream ≡ stream }
        ensures from { result.from ≡ from }
        ensures unread { result.last_read ≡ LastRead.NotMade }
        ensures turn { result.times.turn_began ≡ None }
        ensures writes { result.times.spent ≡ 0 }
    {
        let times = CallTimes::new(Instant::now(&rt).ok());
        WorkerStream {
            stream,
            rt,
            from,
            pending,
            is_logged_in: AtomicBool::new(false),
            heard: AtomicU64::new(0),
            is_given_up: AtomicBool::new(false),
            last_read: LastRead::NotMade,
            is_over,
            times,
        }
    }

    /// Where it came from.
    pub(crate) fn from(&self) -> SocketAddr
        ensures { result ≡ self.now.from }
    {
        self.from
    }

    /// The worker has logged in: the time for that no longer counts, and from now on no call waits
    /// in the system.
    pub(crate) fn set_logged_in(&self) -> io::Result<()> {
        self.stream.set_nonblocking(true)?;
        self.is_logged_in.store(true, Ordering::SeqCst);
        Ok(())
    }

    /// What an actor waits at.
    pub(crate) fn connection(&self) -> &TcpStream
        ensures { result.now ≡ self.now.stream }
    {
        &self.stream
    }

    /// A count that grows with what comes from the worker.
    pub(crate) fn heard(&self) -> u64 {
        self.heard.load(Ordering::SeqCst)
    }

    /// Whether the connection had nothing more by its last read. Else there may be more, of which
    /// nobody is told.
    pub(crate) fn is_drained(&self) -> bool
        ensures { result ≡ is_drained self.now.last_read }
    {
        is_drained(self.last_read)
    }

    /// Whether the peer has closed the connection, or it has failed, and nothing of it is left to
    /// read. One that has logged in is not waited for.
    pub(crate) fn has_left(&self) -> bool {
        let mut byte = [0u8; 1];
        ends_peek(&self.stream.peek(&mut byte))
    }

    /// The worker is taken for dead.
    pub(crate) fn give_up(&self) {
        self.is_given_up.store(true, Ordering::SeqCst);
    }

    /// What its flags say now.
    fn flags(&self) -> StreamFlags {
        StreamFlags {
            is_given_up: self.is_given_up.load(Ordering::SeqCst),
            is_logged_in: self.is_logged_in.load(Ordering::SeqCst),
            is_over: self.is_over.load(Ordering::SeqCst),
            is_put_out: self.pending.is_put_out(),
        }
    }

    /// A read came to this. The answer is whether that is told: else it is made again. By one that
    /// met nothing the turn ends.
    fn note_read(&mut self, answer: &io::Result<usize>, is_logged_in: bool) -> bool
        ensures made { result ≡ is_made is_logged_in answer.now }
        ensures told { OnTrue result
            (ReadsBy answer.now self.new.last_read self.new.times.turn_began) }
        ensures again { OnFalse result (self.new.last_read ≡ self.old.last_read) }
        ensures writes { self.new.times.spent ≡ self.old.times.spent }
        ensures login { self.new.times.login_ends ≡ self.old.times.login_ends }
    {
        match answer {
            Ok(_) => {
                self.has_heard(is_logged_in);
                self.last_read = LastRead::Gave;
                true
            }
            Err(error) if reads_again(error.kind(), is_logged_in) => false,
            Err(_) => {
                self.times.end_turn();
                self.last_read = LastRead::MetNothing;
                true
            }
        }
    }

    /// Something came.
    fn has_heard(&self, is_logged_in: bool) {
        self.heard.fetch_add(1, Ordering::SeqCst);
        if !is_logged_in {
            self.pending.told();
        }
    }

    /// Bounds what one call of a login waits for, and has a short write leave at once.
    pub(crate) fn bound_calls(&self) -> io::Result<()> {
        self.stream.set_nodelay(true)?;
        self.stream
            .set_read_timeout(Some(Duration::from_millis(READ_MS)))?;
        self.stream
            .set_write_timeout(Some(Duration::from_millis(WRITE_MS)))
    }
}

impl<R: Wait + Clock> WorkerStream<R> {
    /// Writes, and counts how long it took. Where there is no room it pauses for a moment. Where
    /// the clock fails no time is left.
    fn write_once(&mut self, buf: &[u8]) -> io::Result<usize>
        ensures bound { WritesAtMost result buf.now }
        ensures last { self.new.last_read ≡ self.old.last_read }
        ensures turn { self.new.times.turn_began ≡ self.old.times.turn_began }
        ensures login { self.new.times.login_ends ≡ self.old.times.login_ends }
    {
        let began = Instant::now(&self.rt).ok();
        let answer = self.stream.write(buf);
        if let Err(error) = &answer {
            if meets_nothing(error.kind()) {
                thread::sleep(&self.rt, Duration::from_millis(ROOM_MS));
            }
        }
        self.times.wrote(began, Instant::now(&self.rt).ok());
        answer
    }
}

impl<R: Clock> Read for WorkerStream<R> {
    fn read(&mut self, buf: &mut [u8]) -> io::Result<usize>
        ensures bound { ReadsAtMost result buf.new }
        ensures told { ReadsBy result self.new.last_read self.new.times.turn_began }
        ensures writes { self.new.times.spent ≡ 0 }
        ensures login { self.new.times.login_ends ≡ self.old.times.login_ends }
    {
        self.times.begin_read();
        self.last_read = LastRead::NotMade;
        for _ in 0..MOST_READS {
            let flags = self.flags();
            if is_ended(flags) {
                return Err(aborted());
            }
            let now = Instant::now(&self.rt).ok();
            if self.times.is_read_over(flags.is_logged_in, now) {
                break;
            }
            let answer = self.stream.read(buf);
            if self.note_read(&answer, flags.is_logged_in) {
                return answer;
            }
        }
        self.times.end_turn();
        Err(timed_out())
    }
}

impl<R: Wait + Clock> Write for WorkerStream<R> {
    fn write(&mut self, buf: &[u8]) -> io::Result<usize>
        ensures bound { WritesAtMost result buf.now }
        ensures made { IfErr result (λ e. is_unmade (error_kind e) ≡ false) }
        ensures last { self.new.last_read ≡ self.old.last_read }
        ensures turn { self.new.times.turn_began ≡ None }
        ensures login { self.new.times.login_ends ≡ self.old.times.login_ends }
    {
        self.times.end_turn();
        for _ in 0..MOST_WRITES {
            let flags = self.flags();
            if flags.is_given_up || self.times.is_spent(flags.is_over) {
                break;
            }
            match self.write_once(buf) {
                Err(error) if is_unmade(error.kind()) => {}
                answer => return answer,
            }
        }
        Err(aborted())
    }

    fn flush(&mut self) -> io::Result<()>
        ensures last { self.new.last_read ≡ self.old.last_read }
        ensures times { self.new.times ≡ self.old.times }
    {
        self.stream.flush()
    }
}
