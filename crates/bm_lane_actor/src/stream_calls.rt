//! What a call of a worker's connection comes to, by what its flags and the system say.

ghost use Rattle.std.specs.Prelude.{◌≡◌};
ghost use Rattle.std.specs.IoError.{error_kind};
ghost use Rattle.bm_lane_actor.specs.StreamCalls.{ends_peek, is_ended, is_unmade, meets_nothing, reads_again};

use std::io;
use std::io::ErrorKind;

/// What the flags of a connection said as they were read.
#[derive(Clone, Copy)]
pub(crate) struct StreamFlags {
    /// Its worker is taken for dead.
    pub is_given_up: bool,
    pub is_logged_in: bool,
    /// The master ends.
    pub is_over: bool,
    /// Its place was given to another connection before it logged in.
    pub is_put_out: bool,
}

/// Whether nothing is read any more. Its worker is given up. Or its login isn't waited for, since
/// the master ends or another connection has its place. A worker that has logged in may still be
/// told that the master ends.
pub(crate) fn is_ended(flags: StreamFlags) -> bool
    ensures { result ≡ is_ended flags }
{
    flags.is_given_up || !flags.is_logged_in && (flags.is_over || flags.is_put_out)
}

/// The error of a stream for which nobody waits.
pub(crate) fn aborted() -> io::Error
    ensures { error_kind result ≡ ErrorKind.ConnectionAborted }
{
    io::Error::from(ErrorKind::ConnectionAborted)
}

/// The error of a read whose time is over.
pub(crate) fn timed_out() -> io::Error
    ensures { error_kind result ≡ ErrorKind.TimedOut }
{
    io::Error::from(ErrorKind::TimedOut)
}

/// Whether a call that failed so met nothing: no bytes, or no room for them.
pub(crate) fn meets_nothing(kind: ErrorKind) -> bool
    ensures { result ≡ meets_nothing kind }
{
    matches!(kind, ErrorKind::WouldBlock | ErrorKind::TimedOut)
}

/// Whether a call that failed so did nothing, and may be made again.
pub(crate) fn is_unmade(kind: ErrorKind) -> bool
    ensures { result ≡ is_unmade kind }
{
    matches!(kind, ErrorKind::Interrupted) || meets_nothing(kind)
}

/// Whether a read that failed so is made again. A read that may time out is interrupted by any
/// signal, also one that is ignored, as that of a child's end. One that has logged in isn't waited
/// for.
pub(crate) fn reads_again(kind: ErrorKind, is_logged_in: bool) -> bool
    ensures { result ≡ reads_again is_logged_in kind }
{
    matches!(kind, ErrorKind::Interrupted) || !is_logged_in && meets_nothing(kind)
}

/// Whether a look at what is there says that nothing of the connection is left to read. The peer
/// has closed it, or it has failed.
pub(crate) fn ends_peek(answer: &io::Result<usize>) -> bool
    ensures { result ≡ ends_peek answer.now }
{
    match answer {
        Ok(count) => *count == 0,
        Err(error) => !is_unmade(error.kind()),
    }
}
