//! A stream that is read only where a read of it won't wait.

ghost use Rattle.std.specs.Prelude.{◌≡◌, ◌≢◌, IfErr};
ghost use Rattle.std.specs.Io.{ReadsAtMost, WritesAtMost};
ghost use Rattle.std.specs.Io.KnownBytes.{Keeps, ReadConsumes, WriteAppends};
ghost use Rattle.std.specs.IoError.{error_kind};
ghost use Rattle.std.specs.declared.io.ErrorKind.TheVariants.{Interrupted};

use std::alloc::Global;
use std::io;
use std::io::{ErrorKind, Read, Write};
use std::sync::Arc;
use std::sync::atomic::{AtomicU64, Ordering};

/// How many times in a row a read that a signal interrupted is made again: the link would tell it
/// as a fault.
const MOST_INTERRUPTS: u32 = 1_000;

/// A stream of which so many reads are left until it is told that more of them won't wait. A read
/// beyond them would block, and says so.
#[derive(Drop)]
pub struct ReadyStream<S> {
    stream: S,
    reads: Arc<AtomicU64, Global>,
}

impl<S> ReadyStream<S> {
    /// So many reads of the stream are left as the number says, which others may set anew.
    pub fn new(stream: S, reads: Arc<AtomicU64, Global>) -> ReadyStream<S>
        ensures { result.stream ≡ stream }
    {
        ReadyStream { stream, reads }
    }

    /// The stream itself, whatever reads of it are left.
    pub fn get_ref(&self) -> &S
        ensures { result.now ≡ self.now.stream }
    {
        &self.stream
    }
}

impl<S: Read> Read for ReadyStream<S> {
    // What the stream itself will give, so that no read drops or adds a byte.
    ghost remaining = { λ ready. S.remaining ready.stream };

    fn read(&mut self, buf: &mut [u8]) -> io::Result<usize>
        ensures bound { ReadsAtMost result buf.new }
        ensures bytes { ReadConsumes (S.remaining self.old.stream) (S.remaining self.new.stream)
            result buf.new }
        ensures retried { IfErr result (λ e. error_kind e ≢ Interrupted) }
    {
        let left = self.reads.load(Ordering::SeqCst);
        if left == 0 {
            return Err(io::Error::from(ErrorKind::WouldBlock));
        }
        self.reads.store(left - 1, Ordering::SeqCst);
        read_again(&mut self.stream, buf)
    }
}

/// Reads, and again where a signal interrupts that, so many times at the most.
fn read_again<S: Read>(stream: &mut S, buf: &mut [u8]) -> io::Result<usize>
    ensures bound { ReadsAtMost result buf.new }
    ensures bytes { ReadConsumes (S.remaining stream.old) (S.remaining stream.new) result buf.new }
    ensures retried { IfErr result (λ e. error_kind e ≢ Interrupted) }
{
    for _ in 0..MOST_INTERRUPTS {
        match stream.read(buf) {
            Err(error) if error.kind() == ErrorKind::Interrupted => {}
            answer => return answer,
        }
    }
    Err(io::Error::from(ErrorKind::TimedOut))
}

impl<S: Write> Write for ReadyStream<S> {
    // What the stream itself holds, so that each write is passed on.
    ghost contents = { λ ready. S.contents ready.stream };

    fn write(&mut self, buf: &[u8]) -> io::Result<usize>
        ensures bound { WritesAtMost result buf.now }
        ensures bytes { WriteAppends (S.contents self.old.stream) (S.contents self.new.stream)
            result buf.now }
    {
        self.stream.write(buf)
    }

    fn flush(&mut self) -> io::Result<()>
        ensures bytes { Keeps (S.contents self.old.stream) (S.contents self.new.stream) }
    {
        self.stream.flush()
    }
}
