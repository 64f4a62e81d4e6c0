//! One log of a command.

ghost use Rattle.std.specs.Prelude.{◌≡◌, ◌++◌, ◌∷◌, [], ◌-◌, length, take, IfOk, OnOk, OnErr};
ghost use Rattle.bm_session.specs.Trace.{joined};
ghost use Rattle.bm_store.specs.Book.{placed};

use crate::placed::Placed;
use bm_lines::{Block, LogName};
use std::alloc::{AllocError, Global};
use std::marker::Model;

/// One log: its name, its blocks with their places, and how many lines it has.
#[derive(Drop)]
pub struct NamedLog {
    name: LogName,
    blocks: Vec<Placed>,
    lines: u64,
}

impl Model for NamedLog {
    ghost use Rattle.bm_store.specs.Kept.{Named};
    ghost use Rattle.std.specs.Prelude.{map};

    ghost Value = { Named };

    ghost use Rattle.bm_store.specs.Placing.{block_at, IsPlacing};

    ghost view = { λ l. record { name = l.name; blocks = map block_at l.blocks.items } };

    ghost invariant = { λ l. IsPlacing l.blocks.items l.lines };
}

impl NamedLog {
    /// A log of one block.
    pub fn new(alloc: Global, name: LogName, block: Block) -> Result<NamedLog, AllocError>
        ensures { IfOk result (λ l. l ≡ record { name = name; blocks = block ∷ [] }) }
    {
        let lines = block.len() as u64;
        let mut blocks = Vec::new(alloc);
        blocks.push(Placed { first: 0, block })?;
        Ok(NamedLog {
            name,
            blocks,
            lines,
        })
    }

    /// The name under which updates and viewers ask for it.
    pub fn name(&self) -> &LogName
        ensures { result.now ≡ self.now.name }
    {
        &self.name
    }

    /// The blocks, each with its place.
    pub fn blocks(&self) -> &[Placed]
        ensures { result.now ≡ placed self.now.blocks }
    {
        self.blocks.as_slice()
    }

    /// How many lines it has.
    pub fn lines(&self) -> u64
        ensures { result ≡ length (joined self.now.blocks) }
    {
        self.lines
    }

    /// Adds a block at the end. Memory is wanting, too, for a log of 2^64 lines.
    pub fn push(&mut self, block: Block) -> Result<(), AllocError>
        ensures ok { OnOk result (self.new
            ≡ record self.old { blocks = self.old.blocks ++ block ∷ [] }) }
        ensures err { OnErr result (self.new ≡ self.old) }
    {
        let first = self.lines;
        let Some(lines) = first.checked_add(block.len() as u64) else {
            return Err(AllocError);
        };
        self.blocks.reserve(1)?;
        self.blocks.push_reserved(Placed { first, block });
        self.lines = lines;
        Ok(())
    }

    /// Takes the last block away.
    pub fn pop(&mut self)
        ensures { self.new
            ≡ record self.old { blocks = take (length self.old.blocks - 1) self.old.blocks } }
    {
        if let Some(last) = self.blocks.pop() {
            self.lines = last.first;
        }
    }
}
