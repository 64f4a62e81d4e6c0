//! How the thread of a pipe is started, before the process whose pipe it reads.

ghost use Rattle.std.specs.Prelude.{◌≡◌, IfSome};

use crate::host::Host;
use crate::mailbox::WorkerMail;
use crate::pipe_reader::PipeReader;
use crate::starting::{MOST_TRIES, PAUSE_MS};
use bm_lines::Letter;
use crossbeam_channel::{Receiver, Sender, bounded};
use std::alloc::Global;
use std::io::Read;
use std::thread;
use std::time::Duration;

/// Of which command, and of which of its pipes, a thread is to tell.
#[derive(Drop)]
pub(crate) struct PipeTask<'a> {
    /// The number of the process.
    pub(crate) process: u64,
    pub(crate) command: u64,
    pub(crate) letter: Letter,
    pub(crate) owner: &'a Sender<WorkerMail>,
    pub(crate) permits: &'a Receiver<()>,
}

impl<'a> PipeTask<'a> {
    /// Starts a thread that reads the pipe which it is given by the answer. None where it can't be
    /// started, or memory is wanting. It ends where it is given none.
    pub(crate) fn start<R, P>(&self, rt: &R, alloc: Global) -> Option<Sender<P>>
    where
        R: Host,
        P: Read + Drop + Send + 'static,
    {
        for _ in 0..MOST_TRIES {
            if let Some(give) = start_reader(rt, alloc, self.reader()?) {
                return Some(give);
            }
            thread::sleep(rt, Duration::from_millis(PAUSE_MS));
        }
        None
    }

    // What the thread owns. None where memory is wanting.
    fn reader(&self) -> Option<PipeReader>
        ensures { IfSome result (λ reader. (reader.process ≡ self.now.process)
            × (reader.command ≡ self.now.command) × (reader.letter ≡ self.now.letter)) }
    {
        Some(PipeReader {
            process: self.process,
            command: self.command,
            letter: self.letter,
            owner: self.owner.clone().ok()?,
            permits: self.permits.clone().ok()?,
        })
    }
}

// Starts the thread of this reader once.
fn start_reader<R, P>(rt: &R, alloc: Global, reader: PipeReader) -> Option<Sender<P>>
where
    R: Host,
    P: Read + Drop + Send + 'static,
{
    let (give, take) = bounded::<P, Global>(alloc, 1).ok()?;
    let handle = *rt;
    // A thread that reads a silent pipe may outlive the program's work, so it is never joined.
    let thread = thread::spawn(rt, move || {
        if let Ok(pipe) = take.recv(&handle) {
            reader.run(&handle, alloc, pipe);
        }
    });
    match thread {
        Ok(_) => Some(give),
        Err(_) => None,
    }
}
