//! A list of lines that its copies share.

ghost use Rattle.std.specs.Prelude.{◌≡◌, [], ◌++◌, take, drop, length, string_bytes, IfOk, OnOk, OnErr};
ghost use Rattle.bm_lines.specs.Lines.{lines_of, content_of};

use crate::letter::Letter;
use crate::shared::Shared;
use std::alloc::{AllocError, Global};
use std::marker::Model;

/// A list of lines. Its copies share the lines, and one without lines takes no memory.
///
/// It gives its lines as text alone. A list of them, or a line with a text of its own, would take
/// memory at each call. Only contracts have a type of a line.
#[derive(Drop)]
pub struct Block {
    alloc: Global,
    lines: Shared,
}

impl Model for Block {
    ghost use Rattle.std.specs.Prelude.{List};
    ghost use Rattle.bm_lines.specs.Lines.{Line};
    ghost use Rattle.bm_lines.specs.Shared.{shared_lines};

    ghost Value = { List Line };

    ghost view = { λ b. shared_lines b.lines };
}

impl Block {
    /// No line.
    pub fn new(alloc: Global) -> Block
        ensures { result ≡ [] }
    {
        Block {
            alloc,
            lines: Shared::Nothing,
        }
    }

    /// How many lines there are.
    pub fn len(&self) -> usize
        ensures { result ≡ length self.now }
    {
        self.lines.len()
    }

    /// An equal block, which shares the lines.
    pub fn copy(&self) -> Result<Block, AllocError>
        ensures { IfOk result (λ b. b ≡ self.now) }
    {
        Ok(Block {
            alloc: self.alloc,
            lines: self.lines.share()?,
        })
    }

    /// Appends the lines of a text. Where other blocks share the old lines, they keep theirs.
    pub fn add(&mut self, letter: Letter, text: &str) -> Result<(), AllocError>
        ensures ok { OnOk result (self.new ≡ self.old ++ lines_of letter text.now) }
        ensures err { OnErr result (self.new ≡ self.old) }
    {
        let more = Shared::of(self.alloc, letter, text)?;
        self.lines.extend(self.alloc, &more)
    }

    /// Appends the lines of another block. Where other blocks share the old lines, they keep
    /// theirs.
    pub fn extend(&mut self, other: &Block) -> Result<(), AllocError>
        ensures ok { OnOk result (self.new ≡ self.old ++ other.now) }
        ensures err { OnErr result (self.new ≡ self.old) }
    {
        self.lines.extend(self.alloc, &other.lines)
    }

    /// The content of the lines behind the first `skip`, of `limit` at most.
    pub fn part(&self, skip: u64, limit: u64) -> &str
        ensures { result.now ≡ content_of (take limit (drop skip self.now)) }
    {
        // Of the blocks of an answer only the first and the last are ever cut. The others are given
        // as the text that they are.
        let lines = self.len();
        if skip == 0 && lines as u64 <= limit {
            return self.content();
        }
        let Shared::Many(content) = &self.lines else {
            // Of one line there is no part but the whole.
            return "";
        };
        let from = lines.min(skip as usize);
        let count = (lines - from).min(limit as usize);
        content.slice(from, from + count)
    }

    /// For each line its letter in lower case, its text and `\n`.
    pub fn content(&self) -> &str
        ensures { result.now ≡ content_of self.now }
    {
        self.lines.content()
    }
}

/// The lines of a text: its parts between the characters `\n`, without a last empty part.
pub fn cut(alloc: Global, letter: Letter, text: &str) -> Result<Block, AllocError>
    ensures { IfOk result (λ b. b ≡ lines_of letter text.now) }
{
    Ok(Block {
        alloc,
        lines: Shared::of(alloc, letter, text)?,
    })
}
