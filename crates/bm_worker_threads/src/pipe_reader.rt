//! A thread for each pipe of a command.

ghost use Rattle.std.specs.Prelude.{MatchOption};
ghost use Rattle.std.specs.Io.KnownBytes.{Consumes, Keeps};

use crate::mailbox::{PipeEvent, ProcessEvent, WorkerMail, send};
use bm_lines::Letter;
use bm_outbox::{PipeEnd, PipeTexts, Said};
use crossbeam_channel::{Receiver, Sender};
use std::alloc::{AllocError, Global};
use std::io::{ErrorKind, Read};
use std::sync::Wait;

/// How many bytes a pipe's thread reads at once. By more a noisy command takes more room in front
/// of the others, and the worker more memory.
const ROOM: usize = 16_384;

/// A pipe's thread: which pipe of which process and command it reads, and whom it tells. No read
/// can be ended from outside, so that of a held pipe stays until its holder writes or ends.
#[derive(Drop)]
pub struct PipeReader {
    pub process: u64,
    pub command: u64,
    pub letter: Letter,
    pub owner: Sender<WorkerMail>,
    /// Each of these permits a text. Once nobody can give any more, nobody hears the pipe.
    pub permits: Receiver<()>,
}

impl PipeReader {
    /// Tells what the pipe gives, until it ends, or nobody hears it any more.
    pub fn run<R: Wait, P: Read + Drop>(self, rt: &R, alloc: Global, pipe: P) {
        let event = match self.tell_all(rt, alloc, pipe) {
            Ok(Some(end)) => PipeEvent::End(end),
            Ok(None) => return,
            Err(_) => PipeEvent::NoMemory,
        };
        self.tell(rt, event);
    }

    /// Tells the texts of a pipe, and answers its end. None where nobody hears them any more.
    fn tell_all<R: Wait, P: Read + Drop>(
        &self,
        rt: &R,
        alloc: Global,
        mut pipe: P,
    ) -> Result<Option<PipeEnd>, AllocError> {
        let mut room = vec![in alloc; 0u8; ROOM]?;
        let mut texts = PipeTexts::new(alloc, self.command, self.letter);
        for _ in 0..u64::MAX {
            let Some(bytes) = next_bytes(&mut pipe, room.as_mut_slice()) else {
                continue;
            };
            if bytes.is_empty() {
                break;
            }
            for said in texts.take(alloc, bytes)? {
                if !self.tell_text(rt, said) {
                    return Ok(None);
                }
            }
        }
        let last = texts.last()?;
        let end = texts.end();
        if let Some(said) = last {
            if !self.tell_text(rt, said) {
                return Ok(None);
            }
        }
        Ok(Some(end))
    }

    /// Waits for a permit, and tells the text. False where nobody hears it any more.
    fn tell_text<R: Wait>(&self, rt: &R, said: Said) -> bool {
        self.permits.recv(rt).is_ok() && self.tell(rt, PipeEvent::Text(said))
    }

    /// False where nobody hears it any more.
    fn tell<R: Wait>(&self, rt: &R, event: PipeEvent) -> bool {
        let told = ProcessEvent {
            process: self.process,
            event,
        };
        send(rt, &self.owner, WorkerMail::Process(told))
    }
}

/// The next bytes that a pipe gives, none at its end; a pipe that fails has come to its end. The
/// answer is None where the read is to be made again.
fn next_bytes<'a, P: Read>(pipe: &mut P, room: &'a mut [u8]) -> Option<&'a [u8]>
    ensures { MatchOption result (Keeps (P.remaining pipe.old) (P.remaining pipe.new))
        (λ bytes. Consumes (P.remaining pipe.old) (P.remaining pipe.new) bytes.now) }
{
    match pipe.read(room) {
        Ok(count) => Some(&room[..count]),
        Err(error) if error.kind() == ErrorKind::Interrupted => None,
        Err(_) => Some(&[]),
    }
}
