//! How many bytes the updates of commands carried.

ghost use Rattle.std.specs.Prelude.{◌≡◌, ◌+◌, ◌-◌, ◌^◌, ◌++◌, ◌∷◌, [], ◌==◌, filter, fold, min, length, nat_lt, not, ◌<◌, vec_len, vec_capacity, OnOk};
ghost use Rattle.bm_lines.specs.Lines.{content_of};
ghost use Rattle.bm_lane_actor.specs.ByteCount.{bytes_of, carried, is_update, name_bytes};
ghost use Rattle.bm_lane_actor.specs.declared.byte_count.CountedCommand.{CountedCommand};

use bm_lines::{LogLines, LogName, STDIO};
use bm_session::{Body, Event};
use std::alloc::{AllocError, Global};
use std::sync::Arc;
use std::sync::atomic::{AtomicU64, Ordering};

/// How many bytes the updates of one command carried, shared by the actor that hears them and the
/// build that asks.
pub type ByteCount = Arc<AtomicU64, Global>;

/// A command whose build asks how many bytes its updates carried.
#[derive(Drop)]
struct CountedCommand {
    command: u64,
    bytes: ByteCount,
}

/// The commands of a lane whose builds ask how many bytes their updates carried. They are counted
/// where they are heard: the book that viewers see may lag a whole queue behind.
#[derive(Drop)]
pub struct ByteCounts {
    commands: Vec<CountedCommand>,
}

/// How many bytes the name of a log counts beside its text. The log of a new name takes more
/// memory, and at most twice as much. Each update that says it counts: a table that knows new names
/// would take the memory that is to be bounded.
const NAME_BYTES: u64 = 512;

/// How many bytes the name of a log counts, each time that an update says it. That of `stdio`,
/// which every command has, counts nothing.
fn name_bytes(name: &LogName) -> u64
    ensures { result ≡ name_bytes name.now }
{
    if name.is(STDIO) {
        0
    } else {
        add_bytes(NAME_BYTES, name.as_str().len() as u64)
    }
}

/// How many bytes a part of an update carries, as the web gives them: each line's letter, text and
/// line end. Its name counts too.
fn bytes_of(part: &LogLines) -> u64
    ensures { result ≡ bytes_of part.now }
{
    add_bytes(part.block.content().len() as u64, name_bytes(&part.name))
}

/// How many bytes these parts of an update carry.
fn carried(parts: &[LogLines]) -> u64
    ensures { result ≡ carried parts.now }
{
    parts
        .iter()
        .fold(0, |sum, part| add_bytes(sum, bytes_of(part)))
}

fn add_bytes(sum: u64, bytes: u64) -> u64
    ensures { result ≡ min (sum + bytes) (2 ^ 64 - 1) }
{
    sum.saturating_add(bytes)
}

impl ByteCounts {
    /// No command.
    pub fn new(alloc: Global) -> ByteCounts
        ensures { result.commands.items ≡ [] }
    {
        ByteCounts {
            commands: Vec::new(alloc),
        }
    }

    /// Makes room for one command more. Want of memory changes nothing.
    pub fn reserve(&mut self) -> Result<(), AllocError>
        ensures commands { self.new.commands.items ≡ self.old.commands.items }
        ensures room { OnOk result (vec_len self.new.commands < vec_capacity self.new.commands) }
    {
        self.commands.reserve(1)
    }

    /// A command was started, whose build asks by this count. There is room for it, so that no
    /// command runs whose bytes nobody counts.
    pub fn begin(&mut self, command: u64, bytes: ByteCount)
        requires room { vec_len self.old.commands < vec_capacity self.old.commands }
        ensures { self.new.commands.items
            ≡ self.old.commands.items ++ record { command = command; bytes = bytes } ∷ [] }
    {
        self.commands
            .push_reserved(CountedCommand { command, bytes });
    }

    /// The build of a command asks no more.
    pub fn end(&mut self, command: u64)
        ensures { self.new.commands.items
            ≡ filter (λ (c : CountedCommand). not (command == c.command)) self.old.commands.items }
    {
        self.commands.retain(|counted| command != counted.command);
    }

    /// The worker said this. The answer is whether it said lines alone, by which no command ends.
    /// It adds to an atomic, of which no clause can speak; what one update carries is exact
    /// (`carried`).
    pub fn note(&self, event: &Event) -> bool
        ensures { result ≡ is_update event.now }
    {
        let Event::In(_, Body::Update { command, batch, .. }) = event else {
            return false;
        };
        for counted in self.commands.iter() {
            if counted.command == *command {
                let bytes = carried(batch.parts());
                counted.bytes.fetch_add(bytes, Ordering::SeqCst);
            }
        }
        true
    }
}
