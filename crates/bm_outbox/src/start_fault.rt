//! Why a command can't be started.

ghost use Rattle.std.specs.Prelude.{◌≡◌};
ghost use Rattle.std.specs.IoError.{error_kind, raw_os_error};
ghost use Rattle.bm_outbox.specs.Faults.{fault_of, fault_of_kind, reason_of};

use std::io;
use std::io::ErrorKind;

/// Why a command can't be started.
#[derive(Clone, Copy, PartialEq, Eq)]
pub enum StartFault {
    /// There is no such file.
    NoSuchFile,
    /// This user may not run it.
    PermissionDenied,
    /// A part of its path is no folder.
    NotADirectory,
    /// It isn't in a form that can be run, as a script whose first line names no shell.
    ExecFormat,
    /// Its words are too long together.
    LongWords,
    /// No further process can be had.
    NoProcess,
    /// No further file can be opened.
    NoDescriptor,
    /// Memory is wanting.
    NoMemory,
    /// No thread can be had for what it prints.
    NoThread,
    /// Another fault.
    Other,
}

impl StartFault {
    /// What an error of a start says. Two of Linux's numbers have no kind of their own.
    pub fn of(error: &io::Error) -> StartFault
        ensures { result ≡ fault_of (raw_os_error error.now) (error_kind error.now) }
    {
        match error.raw_os_error() {
            Some(8) => StartFault::ExecFormat,
            Some(24) => StartFault::NoDescriptor,
            _ => of_kind(error.kind()),
        }
    }

    /// What stands behind `cannot start: ` in the last header line of the log.
    pub fn reason(self) -> &'static str
        ensures { result.now ≡ reason_of self }
    {
        match self {
            StartFault::NoSuchFile => "no such file",
            StartFault::PermissionDenied => "permission denied",
            StartFault::NotADirectory => "not a directory",
            StartFault::ExecFormat => "exec format error",
            StartFault::LongWords => "argument list too long",
            StartFault::NoProcess => "no more processes",
            StartFault::NoDescriptor => "too many open files",
            StartFault::NoMemory => "out of memory",
            StartFault::NoThread => "no thread for its output",
            StartFault::Other => "other fault",
        }
    }
}

fn of_kind(kind: ErrorKind) -> StartFault
    ensures { result ≡ fault_of_kind kind }
{
    match kind {
        ErrorKind::NotFound => StartFault::NoSuchFile,
        ErrorKind::PermissionDenied => StartFault::PermissionDenied,
        ErrorKind::NotADirectory => StartFault::NotADirectory,
        ErrorKind::ArgumentListTooLong => StartFault::LongWords,
        ErrorKind::WouldBlock => StartFault::NoProcess,
        ErrorKind::OutOfMemory => StartFault::NoMemory,
        _ => StartFault::Other,
    }
}
