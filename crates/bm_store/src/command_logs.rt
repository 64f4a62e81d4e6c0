//! The logs of one command.

ghost use Rattle.std.specs.Prelude.{◌≡◌, List, bytes_eq, length, position, slice_get, find as find_named, true, Some, None, if◌then◌else◌, OnOk, OnErr, IfOk};
ghost use Rattle.std.specs.Option.{option_copied};
ghost use Rattle.bm_lines.specs.Names.{stdio};
ghost use Rattle.bm_lines.specs.Places.{HasPlaces, HasPlacesIfAny};
ghost use Rattle.bm_session.specs.Trace.{joined};
ghost use Rattle.bm_store.specs.Book.{is_there, placed_log, state_log};
ghost use Rattle.bm_store.specs.Kept.{Named, names_kept, blocks_of, logs_kept, with_block, with_parts, without_block, have_blocks, nothing_kept, kept_with_batch, kept_with_end};

use crate::chunk::LogState;
use crate::named_log::NamedLog;
use crate::placed::Placed;
use bm_lines::{FEW_NAMES, LineBatch, LogLines, LogName, NameTable, STDIO};
use bm_session::Results;
use std::alloc::{AllocError, Global};
use std::marker::Model;

/// The logs of one command that have a block, and how the command ended.
#[derive(Drop)]
pub struct CommandLogs {
    named: Vec<NamedLog>,
    /// The places of the logs' names, where there may be more than a few.
    places: Option<NameTable>,
    ended: Option<Results>,
}

impl Model for CommandLogs {
    ghost use Rattle.bm_lines.specs.Places.{HasPlacesIfAny};
    ghost use Rattle.bm_store.specs.Kept.{Kept, names_kept, have_blocks};
    ghost use Rattle.std.specs.Prelude.{◌≡◌, true};

    ghost Value = { Kept };

    ghost view = { λ k. record { named = k.named.items; ended = k.ended } };

    ghost invariant = { λ k. (have_blocks k.named.items ≡ true)
        × HasPlacesIfAny k.places (names_kept k.named.items) };
}

/// The place of the log with the name, if there is one.
fn place_of(logs: &[NamedLog], name: &LogName) -> Option<usize>
    ensures { result ≡ position (λ l. bytes_eq l.name name.now) logs.now }
{
    logs.iter().position(|log| log.name().is(name.as_str()))
}

/// The log with the name, if there is one.
fn find<'a>(logs: &'a [NamedLog], name: &str) -> Option<&'a NamedLog>
    ensures { option_copied result ≡ find_named (λ l. bytes_eq l.name name.now) logs.now }
{
    logs.iter().find(|log| log.name().is(name))
}

fn log_at(logs: &[NamedLog], place: usize) -> Option<&NamedLog>
    ensures { option_copied result ≡ slice_get logs.now place }
{
    logs.get(place)
}

/// The log with the name, by the table where there is one.
fn known<'a>(places: &Option<NameTable>, logs: &'a [NamedLog], name: &str) -> Option<&'a NamedLog>
    requires { HasPlacesIfAny places.now (names_kept logs.now) }
    ensures { option_copied result ≡ find_named (λ l. bytes_eq l.name name.now) logs.now }
{
    let Some(places) = places else {
        return find(logs, name);
    };
    match places.place(name) {
        Some(place) => log_at(logs, place),
        None => None,
    }
}

/// Adds the block of a part under its name.
fn add(logs: &mut Vec<NamedLog>, part: &LogLines) -> Result<(), AllocError>
    ensures ok { OnOk result (logs.new.items
        ≡ with_block part.now.name part.now.block logs.old.items) }
    ensures err { OnErr result (logs.new.items ≡ logs.old.items) }
{
    let place = place_of(logs.as_slice(), &part.name);
    add_at(logs, place, part)
}

/// Adds the block of a part to the log at a place, or as a new log.
fn add_at(logs: &mut Vec<NamedLog>, place: Option<usize>, part: &LogLines) -> Result<(), AllocError>
    requires { place ≡ position (λ l. bytes_eq l.name part.now.name) logs.old.items }
    ensures ok { OnOk result (logs.new.items
        ≡ with_block part.now.name part.now.block logs.old.items) }
    ensures err { OnErr result (logs.new.items ≡ logs.old.items) }
{
    match place {
        Some(place) => logs[place].push(part.block.copy()?)?,
        None => {
            let log = NamedLog::new(*logs.allocator(), part.name.copy()?, part.block.copy()?)?;
            logs.push(log)?;
        }
    }
    Ok(())
}

/// Takes the last block under a name away, and a log that then has none.
fn remove_last(logs: &mut Vec<NamedLog>, name: &LogName)
    ensures { logs.new.items ≡ without_block name.now logs.old.items }
{
    match place_of(logs.as_slice(), name) {
        Some(place) => {
            if logs[place].blocks().len() > 1 {
                logs[place].pop();
            } else {
                let _ = logs.remove(place);
            }
        }
        None => {}
    }
}

/// Undoes the adding of parts, the last one first. It takes n times n comparisons of n names, and
/// only runs where memory is wanting.
fn take_back(logs: &mut Vec<NamedLog>, parts: &[LogLines])
    ensures { (base : List Named) → have_blocks base ≡ true
        → logs.old.items ≡ with_parts parts.now base → logs.new.items ≡ base }
{
    let mut left = parts.len();
    while left > 0 {
        left -= 1;
        remove_last(logs, &parts[left].name);
    }
}

/// Adds the blocks of all parts, or of none.
fn add_all(logs: &mut Vec<NamedLog>, parts: &[LogLines]) -> Result<(), AllocError>
    ensures ok { OnOk result (logs.new.items ≡ with_parts parts.now logs.old.items) }
    ensures err { OnErr result (have_blocks logs.old.items ≡ true
        → logs.new.items ≡ logs.old.items) }
{
    for done in 0..parts.len() {
        if add(logs, &parts[done]).is_err() {
            take_back(logs, &parts[..done]);
            return Err(AllocError);
        }
    }
    Ok(())
}

/// Adds the block of a part under its name, to the table too.
fn add_by_table(
    logs: &mut Vec<NamedLog>,
    places: NameTable,
    part: &LogLines,
) -> Result<NameTable, AllocError>
    requires { HasPlaces places (names_kept logs.old.items) }
    ensures ok { OnOk result (logs.new.items
        ≡ with_block part.now.name part.now.block logs.old.items) }
    ensures places { IfOk result
        (λ t. HasPlaces t (names_kept (with_block part.now.name part.now.block logs.old.items))) }
    ensures err { OnErr result (logs.new.items ≡ logs.old.items) }
{
    let place = places.place(part.name.as_str());
    if place.is_some() {
        add_at(logs, place, part)?;
        return Ok(places);
    }
    let mut places = places;
    places.add(*logs.allocator(), part.name.as_str(), logs.len())?;
    add_at(logs, place, part)?;
    Ok(places)
}

/// Adds the blocks of all parts, or of none, by a table of the logs. The one that comes back has
/// the new logs too.
fn add_all_by_table(
    logs: &mut Vec<NamedLog>,
    places: NameTable,
    parts: &[LogLines],
) -> Result<NameTable, AllocError>
    requires { HasPlaces places (names_kept logs.old.items) }
    ensures ok { OnOk result (logs.new.items ≡ with_parts parts.now logs.old.items) }
    ensures places { IfOk result
        (λ t. HasPlaces t (names_kept (with_parts parts.now logs.old.items))) }
    ensures err { OnErr result (have_blocks logs.old.items ≡ true
        → logs.new.items ≡ logs.old.items) }
{
    let mut places = places;
    for i in 0..parts.len() {
        match add_by_table(logs, places, &parts[i]) {
            Ok(more) => places = more,
            Err(_) => {
                take_back(logs, &parts[..i]);
                return Err(AllocError);
            }
        }
    }
    Ok(places)
}

/// The places of the logs' names.
fn table_of(logs: &Vec<NamedLog>) -> Result<NameTable, AllocError>
    ensures { IfOk result (λ t. HasPlaces t (names_kept logs.now.items)) }
{
    let alloc = *logs.allocator();
    let mut places = NameTable::new(alloc)?;
    for i in 0..logs.len() {
        places.add(alloc, logs[i].name().as_str(), i)?;
    }
    Ok(places)
}

impl CommandLogs {
    /// The logs of a command that was just started.
    pub fn new(alloc: Global) -> CommandLogs
        ensures { result ≡ nothing_kept }
    {
        CommandLogs {
            named: Vec::new(alloc),
            places: None,
            ended: None,
        }
    }

    /// The blocks of a log with their places: `stdio` is always there, another from its first
    /// block.
    pub fn blocks(&self, name: &str) -> Option<&[Placed]>
        ensures { option_copied result ≡ placed_log name.now (logs_kept self.now) }
    {
        match known(&self.places, self.named.as_slice(), name) {
            Some(log) => Some(log.blocks()),
            None if name == STDIO => Some(&[]),
            None => None,
        }
    }

    /// How many lines a log has, where it is there.
    fn count(&self, name: &str) -> Option<u64>
        ensures { result
            ≡ (if is_there name.now (logs_kept self.now)
            then Some (length (joined (blocks_of self.now.named name.now))) else None) }
    {
        match known(&self.places, self.named.as_slice(), name) {
            Some(log) => Some(log.lines()),
            None if name == STDIO => Some(0),
            None => None,
        }
    }

    /// How many lines a log has, and how the command ended.
    pub fn state(&self, name: &str) -> Option<LogState>
        ensures { result ≡ state_log name.now (logs_kept self.now) }
    {
        let lines = self.count(name)?;
        Some(LogState {
            lines,
            ended: self.ended,
        })
    }

    /// How many lines the log `stdio` has.
    pub fn stdio_lines(&self) -> u64
        ensures { result ≡ length (joined (blocks_of self.now.named stdio)) }
    {
        match known(&self.places, self.named.as_slice(), STDIO) {
            Some(log) => log.lines(),
            None => 0,
        }
    }

    /// Adds the blocks of a batch, where the command is open.
    pub fn add(&mut self, batch: &LineBatch) -> Result<(), AllocError>
        ensures ok { OnOk result (self.new ≡ kept_with_batch batch.now self.old) }
        ensures err { OnErr result (self.new ≡ self.old) }
    {
        if self.ended.is_some() {
            return Ok(());
        }
        let parts = batch.parts();
        if self.places.is_none() && self.named.len() < FEW_NAMES && parts.len() < FEW_NAMES {
            return add_all(&mut self.named, parts);
        }
        self.add_by_table(parts)
    }

    /// Adds the blocks of parts to an open command by a table, where walks would take long.
    ///
    /// After want of memory there is no table; the next call makes it.
    fn add_by_table(&mut self, parts: &[LogLines]) -> Result<(), AllocError>
        requires { self.old.ended ≡ None }
        ensures ok { OnOk result (self.new ≡ kept_with_batch parts.now self.old) }
        ensures err { OnErr result (self.new ≡ self.old) }
    {
        let places = match self.places.take() {
            Some(places) => places,
            None => table_of(&self.named)?,
        };
        let places = add_all_by_table(&mut self.named, places, parts)?;
        self.places = Some(places);
        Ok(())
    }

    /// Ends the command, where it is open.
    pub fn end(&mut self, results: Results)
        ensures { self.new ≡ kept_with_end results self.old }
    {
        if self.ended.is_none() {
            self.ended = Some(results);
        }
    }
}
