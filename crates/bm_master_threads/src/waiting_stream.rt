//! Standard streams that wait, although somebody else has set them not to.

ghost use Rattle.std.specs.Prelude.{◌≡◌, ◌≢◌, IfErr};
ghost use Rattle.std.specs.Io.{ReadsAtMost, WritesAtMost};
ghost use Rattle.std.specs.Io.KnownBytes.{Keeps, ReadConsumes, WriteAppends};
ghost use Rattle.std.specs.IoError.{error_kind};

use std::io::{ErrorKind, Read, Write};
use std::sync::Wait;
use std::time::{Clock, Duration};
use std::{io, thread};

/// How long lies between two tries of a call that would block.
const PAUSE_MS: u64 = 20;

/// A stream whose calls wait where its own would block. Who has the same terminal or pipe may set
/// that for all of them (`O_NONBLOCK` of open(2)).
#[derive(Drop)]
pub struct WaitingStream<R, S> {
    rt: R,
    stream: S,
}

impl<R, S> WaitingStream<R, S> {
    /// The stream, by calls that wait.
    pub fn new(rt: R, stream: S) -> WaitingStream<R, S>
        ensures { result.stream ≡ stream }
    {
        WaitingStream { rt, stream }
    }
}

impl<R: Wait + Clock, S: Read> Read for WaitingStream<R, S> {
    // What the stream itself will give, so that no read drops or adds a byte.
    ghost remaining = { λ waiting. S.remaining waiting.stream };

    fn read(&mut self, buf: &mut [u8]) -> io::Result<usize>
        ensures bound { ReadsAtMost result buf.new }
        ensures bytes { ReadConsumes (S.remaining self.old.stream) (S.remaining self.new.stream)
            result buf.new }
        ensures waited { IfErr result (λ e. error_kind e ≢ ErrorKind.WouldBlock) }
    {
        for _ in self.rt.forever() {
            match self.stream.read(buf) {
                Err(error) if error.kind() == ErrorKind::WouldBlock => {}
                answer => return answer,
            }
            thread::sleep(&self.rt, Duration::from_millis(PAUSE_MS));
        }
        unreachable!()
    }
}

impl<R: Wait + Clock, S: Write> Write for WaitingStream<R, S> {
    // What the stream itself holds, so that each write is passed on.
    ghost contents = { λ waiting. S.contents waiting.stream };

    fn write(&mut self, buf: &[u8]) -> io::Result<usize>
        ensures bound { WritesAtMost result buf.now }
        ensures bytes { WriteAppends (S.contents self.old.stream) (S.contents self.new.stream)
            result buf.now }
        ensures waited { IfErr result (λ e. error_kind e ≢ ErrorKind.WouldBlock) }
    {
        for _ in self.rt.forever() {
            match self.stream.write(buf) {
                Err(error) if error.kind() == ErrorKind::WouldBlock => {}
                answer => return answer,
            }
            thread::sleep(&self.rt, Duration::from_millis(PAUSE_MS));
        }
        unreachable!()
    }

    fn flush(&mut self) -> io::Result<()>
        ensures bytes { Keeps (S.contents self.old.stream) (S.contents self.new.stream) }
        ensures waited { IfErr result (λ e. error_kind e ≢ ErrorKind.WouldBlock) }
    {
        for _ in self.rt.forever() {
            match self.stream.flush() {
                Err(error) if error.kind() == ErrorKind::WouldBlock => {}
                answer => return answer,
            }
            thread::sleep(&self.rt, Duration::from_millis(PAUSE_MS));
        }
        unreachable!()
    }
}
