//! What an input does to the row of one command.

ghost use Rattle.std.specs.Prelude.{◌≡◌};
ghost use Rattle.bm_commands.specs.Rows.{cell, fresh_row, has_end, has_text, interrupted, is_command, is_due, is_gone, is_heard, is_lost, is_other, is_process, is_told, killed, lost, stop, with_pipe_end, with_text, without_memory};

use crate::ending::looked;
use crate::values::{CommandPhase, CommandRow, Effect, ProcessInput};
use bm_outbox::{CommandEnd, PipeEnd, Pipes, StopCause};

/// How many milliseconds lie between two glances at a process whose pipes are open.
pub(crate) const GLANCE_MS: u64 = 1_000;

/// The row of a command whose process starts now.
pub(crate) fn fresh_row(process: u64, command: u64, now: u64) -> CommandRow
    ensures { result ≡ fresh_row process command now }
{
    CommandRow {
        process,
        pipes: Pipes::open(command),
        texts: 0,
        has_heard: false,
        held_ms: None,
        looked_ms: now,
        pause_ms: GLANCE_MS,
        phase: CommandPhase::Runs,
    }
}

/// Whether the master is told of it.
pub(crate) fn is_told(row: &CommandRow) -> bool
    ensures { result ≡ is_told row.now }
{
    match row.phase {
        CommandPhase::Runs | CommandPhase::Over(_) | CommandPhase::Stopping(_, _) => true,
        CommandPhase::Lost | CommandPhase::Owed | CommandPhase::Gone => false,
    }
}

pub(crate) fn is_process(process: u64, row: &CommandRow) -> bool
    ensures { result ≡ is_process process row.now }
{
    row.process == process
}

/// Whether the master is told of it, under the number of this command.
pub(crate) fn is_command(command: u64, row: &CommandRow) -> bool
    ensures { result ≡ is_command command row.now }
{
    is_told(row) && row.pipes.command() == command
}

/// Whether the master is told of it, and it isn't this process.
pub(crate) fn is_other(process: u64, row: &CommandRow) -> bool
    ensures { result ≡ is_other process row.now }
{
    is_told(row) && row.process != process
}

/// Whether its end is to be told: all its texts were.
pub(crate) fn has_end(row: &CommandRow) -> bool
    ensures { result ≡ has_end row.now }
{
    match row.phase {
        CommandPhase::Over(_) => row.texts == 0,
        _ => false,
    }
}

/// Whether it has a text to be told.
pub(crate) fn has_text(row: &CommandRow) -> bool
    ensures { result ≡ has_text row.now }
{
    is_told(row) && row.texts > 0
}

pub(crate) fn is_lost(row: &CommandRow) -> bool
    ensures { result ≡ is_lost row.now }
{
    match row.phase {
        CommandPhase::Lost => true,
        _ => false,
    }
}

pub(crate) fn is_gone(row: &CommandRow) -> bool
    ensures { result ≡ is_gone row.now }
{
    match row.phase {
        CommandPhase::Gone => true,
        _ => false,
    }
}

/// Whether its process is to be looked at now.
pub(crate) fn is_due(now: u64, row: &CommandRow) -> bool
    ensures { result ≡ is_due now row.now }
{
    match row.phase {
        CommandPhase::Runs | CommandPhase::Stopping(_, _) | CommandPhase::Owed => {
            row.looked_ms.saturating_add(row.pause_ms) <= now
        }
        CommandPhase::Over(_) | CommandPhase::Lost | CommandPhase::Gone => false,
    }
}

/// Its session was lost: it is killed next, and nobody is told of it.
pub(crate) fn lost(row: CommandRow) -> CommandRow
    ensures { result ≡ lost row }
{
    match row.phase {
        CommandPhase::Runs | CommandPhase::Over(_) | CommandPhase::Stopping(_, _) => {
            CommandRow {
                phase: CommandPhase::Lost,
                ..row
            }
        }
        CommandPhase::Lost | CommandPhase::Owed | CommandPhase::Gone => row,
    }
}

/// It is killed now, and nobody is told of it.
pub(crate) fn killed(now: u64, row: CommandRow) -> CommandRow
    ensures { result ≡ killed now row }
{
    CommandRow {
        looked_ms: now,
        pause_ms: 1,
        phase: CommandPhase::Owed,
        ..row
    }
}

/// Whether what its pipes give is still told. It isn't once both count as ended, or the end of the
/// command is known: what comes then is of something else.
fn is_heard(row: CommandRow) -> bool
    ensures { result ≡ is_heard row.phase row.pipes }
{
    match row.phase {
        CommandPhase::Runs | CommandPhase::Stopping(_, _) => !row.pipes.are_over(),
        _ => false,
    }
}

fn with_text(row: CommandRow) -> (CommandRow, Effect)
    ensures { result ≡ with_text row }
{
    if !is_heard(row) {
        return (row, Effect::Nothing);
    }
    let row = CommandRow {
        texts: row.texts.saturating_add(1),
        has_heard: true,
        ..row
    };
    (row, Effect::Keep)
}

/// A pipe came to its end. Its process is looked at at once where that was the last one.
fn with_pipe_end(end: PipeEnd, row: CommandRow) -> CommandRow
    ensures { result ≡ with_pipe_end end row }
{
    if !is_heard(row) {
        return row;
    }
    let mut pipes = row.pipes;
    pipes.end(end);
    let pause_ms = if pipes.are_over() { 0 } else { row.pause_ms };
    CommandRow {
        pipes,
        pause_ms,
        ..row
    }
}

/// Its worker ends it from now on.
fn stop(why: StopCause, now: u64, row: CommandRow) -> (CommandRow, Effect)
    ensures { result ≡ stop why now row }
{
    let row = CommandRow {
        looked_ms: now,
        pause_ms: 0,
        phase: CommandPhase::Stopping(why, 0),
        ..row
    };
    (row, Effect::Kill(row.process))
}

/// The master asks for its end. One that is being ended, or was, goes on to its end.
fn interrupted(now: u64, row: CommandRow) -> (CommandRow, Effect)
    ensures { result ≡ interrupted now row }
{
    match row.phase {
        CommandPhase::Runs | CommandPhase::Over(CommandEnd::Code(_) | CommandEnd::Held(_)) => {
            stop(StopCause::Interrupted, now, row)
        }
        _ => (row, Effect::Nothing),
    }
}

/// Memory is wanting for what one of its pipes gave.
fn without_memory(now: u64, row: CommandRow) -> (CommandRow, Effect)
    ensures { result ≡ without_memory now row }
{
    match row.phase {
        CommandPhase::Runs if !row.pipes.are_over() => stop(StopCause::NoMemory, now, row),
        _ => (row, Effect::Nothing),
    }
}

/// The table of one command: its row after an input, and what is to be done.
pub(crate) fn cell(now: u64, row: CommandRow, input: ProcessInput) -> (CommandRow, Effect)
    ensures { result ≡ cell now row input }
{
    match input {
        ProcessInput::Text => with_text(row),
        ProcessInput::PipeEnded(end) => (with_pipe_end(end, row), Effect::Nothing),
        ProcessInput::NoMemory => without_memory(now, row),
        ProcessInput::Interrupted => interrupted(now, row),
        ProcessInput::Looked(seen) => (looked(now, seen, row), Effect::Nothing),
        ProcessInput::NotStarted => {
            let row = CommandRow {
                phase: CommandPhase::Gone,
                ..row
            };
            (row, Effect::Nothing)
        }
        ProcessInput::Unread => (lost(row), Effect::Nothing),
    }
}
