//! What a pipe gives, as texts that can be said.

ghost use Rattle.std.specs.Prelude.{◌≡◌, ◌<◌, ◌++◌, [], length, IfOk, OnOk};
ghost use Rattle.bm_work.specs.Cuts.{texts_of as cut_texts, left_of, shown};
ghost use Rattle.bm_outbox.specs.Joining.{IsJoined};
ghost use Rattle.bm_outbox.specs.Pieces.{IsLast};

use crate::joining::joined;
use crate::said::Said;
use crate::stretch::stretch_end;
use bm_lines::{Letter, Text};
use std::alloc::{AllocError, Global};
use std::marker::Model;
use std::mem;

/// What a pipe of a command gives, as texts that can be said.
#[derive(Drop)]
pub struct PipeTexts {
    command: u64,
    letter: Letter,
    kept: Vec<u8>,
}

impl Model for PipeTexts {
    ghost use Rattle.std.specs.Prelude.{◌<◌, length};
    ghost use Rattle.bm_outbox.specs.Pieces.{PipeState};

    ghost Value = { PipeState };

    ghost view = { λ p. record {
      command = p.command;
      letter = p.letter;
      kept = p.kept.items;
    } };

    ghost invariant = { λ p. length p.kept.items < 16384 };
}

impl PipeTexts {
    /// The pipe of this command gave nothing yet.
    pub fn new(alloc: Global, command: u64, letter: Letter) -> PipeTexts
        ensures { result ≡ record { command = command; letter = letter; kept = [] } }
    {
        PipeTexts {
            command,
            letter,
            kept: Vec::new(alloc),
        }
    }

    /// What is said of the next bytes of the pipe: the texts that they end, joined. What follows
    /// the last of them is kept.
    ///
    /// # Errors
    ///
    /// Want of memory. Bytes of the pipe may be lost then.
    #[tactic(auto, using(crate::proofs::Lengths::left_short))]
    pub fn take(&mut self, alloc: Global, bytes: &[u8]) -> Result<Vec<Said>, AllocError>
        ensures said { IfOk result (λ v. IsJoined self.old.letter
            (shown (cut_texts (self.old.kept ++ bytes.now))) v.items) }
        ensures kept { OnOk result (self.new
            ≡ record self.old { kept = left_of (self.old.kept ++ bytes.now) }) }
    {
        let mut all = mem::replace(&mut self.kept, Vec::new(alloc));
        all.extend_from_slice(bytes)?;
        let Some(end) = stretch_end(all.as_slice()) else {
            self.kept = all;
            return Ok(Vec::new(alloc));
        };
        match joined(alloc, self.letter, all.as_slice(), end) {
            Ok((said, left)) => {
                self.kept = Vec::from_slice(alloc, left)?;
                Ok(said)
            }
            Err(error) => Err(error),
        }
    }

    /// What is said at the end of the pipe: what was kept, if that is anything. Nothing is kept
    /// afterwards.
    ///
    /// # Errors
    ///
    /// Want of memory. Nothing was changed.
    #[tactic(auto, using(crate::proofs::Lengths::last_short))]
    pub fn last(&mut self) -> Result<Option<Said>, AllocError>
        ensures said { IfOk result (IsLast self.old.letter self.old.kept) }
        ensures kept { OnOk result (self.new ≡ record self.old { kept = [] }) }
    {
        if self.kept.is_empty() {
            return Ok(None);
        }
        let text = String::from_utf8_lossy(*self.kept.allocator(), self.kept.as_slice())?;
        self.kept.clear();
        Ok(Some(Said {
            letter: self.letter,
            text: Text::from_string(text),
        }))
    }

    /// The pipe has come to its end: nothing of it is left to be said.
    pub fn end(self) -> PipeEnd
        requires { self.kept ≡ [] }
        ensures { result ≡ record { command = self.command; letter = self.letter } }
    {
        PipeEnd {
            command: self.command,
            letter: self.letter,
        }
    }
}

/// The end of a pipe of a command: one whose last text was taken gives it, and nothing else does.
#[derive(Clone, Copy)]
pub struct PipeEnd {
    command: u64,
    letter: Letter,
}

impl PipeEnd {
    /// The command that the pipe was of.
    pub(crate) fn command(&self) -> u64
        ensures { result ≡ self.now.command }
    {
        self.command
    }

    /// The stream that the pipe was.
    pub(crate) fn letter(&self) -> Letter
        ensures { result ≡ self.now.letter }
    {
        self.letter
    }
}
