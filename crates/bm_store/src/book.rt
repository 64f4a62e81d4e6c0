//! The book of a lane.

ghost use Rattle.std.specs.Prelude.{◌≡◌, [], length, map, slice_get, Ok, Err, OnOk, OnErr, MatchResult};
ghost use Rattle.std.specs.Option.{option_copied};
ghost use Rattle.bm_store.specs.Book.{change_at, after_item, placed_in, chunk_in, state_in, stdio_lines_in};
ghost use Rattle.bm_store.specs.Portions.{LooksAt, LooksAtPortion};
ghost use Rattle.bm_store.specs.Kept.{logs_in, kept_after, kept_with_batch, kept_with_end};

use crate::chunk::{Chunk, LogState, ViewRefusal};
use crate::command_logs::CommandLogs;
use crate::gather::lines;
use crate::placed::Placed;
use crate::portion::{Portion, gather_portion};
use bm_lines::LineBatch;
use bm_session::{Item, Results};
use std::alloc::{AllocError, Global};
use std::marker::Model;

/// The logs of a lane's commands, by command and name.
///
/// Contracts see a book as lists, and `logs_in` says which logs these mean.
#[derive(Drop)]
pub struct Book {
    commands: Vec<CommandLogs>,
}

impl Model for Book {
    ghost use Rattle.std.specs.Prelude.{List};
    ghost use Rattle.bm_store.specs.Kept.{Kept};

    ghost Value = { List Kept };

    ghost view = { λ b. b.commands.items };
}

/// Adds a batch to the logs of the command at a place, where there is one and it is open.
fn add_at(commands: &mut [CommandLogs], place: u64, batch: &LineBatch) -> Result<(), AllocError>
    ensures ok { OnOk result (commands.new
        ≡ change_at place (kept_with_batch batch.now) commands.old) }
    ensures err { OnErr result (commands.new ≡ commands.old) }
{
    let place = place as usize;
    if place < commands.len() {
        commands[place].add(batch)?;
    }
    Ok(())
}

/// Ends the command at a place, where there is one and it is open.
fn end_at(commands: &mut [CommandLogs], place: u64, results: Results)
    ensures { commands.new ≡ change_at place (kept_with_end results) commands.old }
{
    let place = place as usize;
    if place < commands.len() {
        commands[place].end(results);
    }
}

/// Ends each command that is open.
fn end_all(commands: &mut [CommandLogs], results: Results)
    ensures { commands.new ≡ map (kept_with_end results) commands.old }
{
    for command in commands.iter_mut() {
        command.end(results);
    }
}

/// What a viewer is told of what was gathered, or for which memory was wanting.
fn told<T: Drop>(gathered: Result<T, AllocError>) -> Result<T, ViewRefusal>
    ensures { MatchResult gathered (λ it. result ≡ Ok it) (λ _. result ≡ Err ViewRefusal.Mem) }
{
    match gathered {
        Ok(it) => Ok(it),
        Err(_) => Err(ViewRefusal::Mem),
    }
}

impl Book {
    /// A book of no command. It takes no memory.
    pub fn new(alloc: Global) -> Book
        ensures { result ≡ [] }
    {
        Book {
            commands: Vec::new(alloc),
        }
    }

    /// Takes an item. One that doesn't count changes nothing. Such are an `Open` whose number isn't
    /// that of the next command, and `Lines` and an `End` of a command that isn't open.
    ///
    /// Out of memory, nothing has changed.
    pub fn apply(&mut self, item: &Item) -> Result<(), AllocError>
        ensures ok { OnOk result (self.new ≡ kept_after self.old item.now) }
        ensures logs { OnOk result (logs_in self.new ≡ after_item (logs_in self.old) item.now) }
        ensures err { OnErr result (self.new ≡ self.old) }
    {
        match item {
            Item::Open(k) => {
                if *k == self.commands.len() as u64 {
                    let alloc = *self.commands.allocator();
                    self.commands.push(CommandLogs::new(alloc))?;
                }
            }
            Item::Lines(k, batch) => add_at(self.commands.as_mut_slice(), *k, batch)?,
            Item::End(k, results) => end_at(self.commands.as_mut_slice(), *k, *results),
            Item::Gone => end_all(self.commands.as_mut_slice(), Results::Retry),
        }
        Ok(())
    }

    /// How many commands were started, those that have ended too.
    pub fn commands(&self) -> u64
        ensures { result ≡ length (logs_in self.now) }
    {
        self.commands.len() as u64
    }

    /// How many lines the logs `stdio` of all commands have together, those that have ended too;
    /// 2^64-1 where they have more.
    pub fn stdio_lines(&self) -> u64
        ensures { result ≡ stdio_lines_in (logs_in self.now) }
    {
        let mut lines: u64 = 0;
        for command in self.commands.as_slice() {
            lines = lines.saturating_add(command.stdio_lines());
        }
        lines
    }

    /// The logs of a command, where it was started.
    fn command(&self, k: u64) -> Option<&CommandLogs>
        ensures { option_copied result ≡ slice_get self.now k }
    {
        self.commands.as_slice().get(k as usize)
    }

    /// The blocks of a log with their places, or None where the log isn't there. The log `stdio` is
    /// there from the start of its command, another one from its first block.
    pub fn blocks(&self, k: u64, name: &str) -> Option<&[Placed]>
        ensures { option_copied result ≡ placed_in (logs_in self.now) k name.now }
    {
        match self.command(k) {
            Some(command) => command.blocks(name),
            None => None,
        }
    }

    /// How many lines a log has, and how its command ended; None where the log isn't there.
    pub fn state(&self, k: u64, name: &str) -> Option<LogState>
        ensures { result ≡ state_in (logs_in self.now) k name.now }
    {
        match self.command(k) {
            Some(command) => command.state(name),
            None => None,
        }
    }

    /// The lines of a log from the place `offset` on, `limit` at most, as far as the log goes. A
    /// place at or behind its end gives none. `NoLog` where the log isn't there, and `Mem` where
    /// memory is wanting.
    pub fn slice(&self, k: u64, name: &str, offset: u64, limit: u64) -> Result<Chunk, ViewRefusal>
        ensures { LooksAt result offset (chunk_in (logs_in self.now) k name.now offset limit) }
    {
        match self.blocks(k, name) {
            Some(blocks) => told(lines(*self.commands.allocator(), blocks, offset, limit)),
            None => Err(ViewRefusal::NoLog),
        }
    }

    /// A portion of the content of these lines, behind its first `skip` bytes. It has `most` bytes
    /// at most, and goes up to the end of a character. `Mem` also where `skip` lies inside of one.
    pub fn portion(
        &self,
        k: u64,
        name: &str,
        offset: u64,
        limit: u64,
        skip: usize,
        most: usize,
    ) -> Result<Portion, ViewRefusal>
        ensures { LooksAtPortion (logs_in self.now) k name.now offset limit skip most result }
    {
        match self.blocks(k, name) {
            Some(blocks) => {
                let alloc = *self.commands.allocator();
                told(gather_portion(alloc, blocks, offset, limit, skip, most))
            }
            None => Err(ViewRefusal::NoLog),
        }
    }
}
