//! What a look at a command's process says of it.

ghost use Rattle.std.specs.Prelude.{◌≡◌};
ghost use Rattle.bm_commands.specs.Rows.{after_look, coded, end_effect, glanced, held_after, is_blocked, looked, owed_looked, paused, running_looked, stop_looked, swept};

use crate::row::GLANCE_MS;
use crate::values::{ChildState, CommandPhase, CommandRow, Effect, ProcessLook};
use bm_outbox::{CommandEnd, StopCause, Sweep, held_ms, stop_end, stopped_ms};

/// The pause before the next look at a process that is to end: 1, 2, .. 64 milliseconds. While a
/// command is being ended, 4 of them at the most.
fn after_look(is_stopping: bool, pause_ms: u64) -> u64
    ensures { result ≡ after_look is_stopping pause_ms }
{
    if pause_ms == 0 {
        1
    } else if is_stopping {
        if pause_ms < 4 { 2 * pause_ms } else { 4 }
    } else if pause_ms < 64 {
        2 * pause_ms
    } else {
        64
    }
}

/// Nothing has changed, and it is looked at again.
fn paused(is_stopping: bool, now: u64, row: CommandRow) -> CommandRow
    ensures { result ≡ paused is_stopping now row }
{
    CommandRow {
        looked_ms: now,
        pause_ms: after_look(is_stopping, row.pause_ms),
        ..row
    }
}

/// Whether what its pipes gave can't be told.
fn is_blocked(row: CommandRow) -> bool
    ensures { result ≡ is_blocked row }
{
    row.texts > 0 && !row.has_heard
}

/// For how long its pipes were held open by now.
fn held_after(now: u64, row: CommandRow) -> u64
    ensures { result ≡ held_after now row }
{
    match row.held_ms {
        Some(before) => held_ms(before, now.saturating_sub(row.looked_ms), is_blocked(row)),
        None => 0,
    }
}

/// Its process has ended although its pipes are open. How it ended is known once they were held
/// open for too long.
fn glanced(now: u64, code: Option<i32>, row: CommandRow) -> CommandRow
    ensures { result ≡ glanced now code row }
{
    let held = held_after(now, row);
    let mut pipes = row.pipes;
    let phase = if pipes.give_up(held) {
        CommandPhase::Over(CommandEnd::Held(pipes.exit_code(code)))
    } else {
        CommandPhase::Runs
    };
    CommandRow {
        pipes,
        has_heard: false,
        held_ms: Some(held),
        looked_ms: now,
        pause_ms: GLANCE_MS,
        phase,
        ..row
    }
}

/// A command that runs was looked at. Its exit code is known once both its pipes were read.
fn running_looked(now: u64, child: ChildState, row: CommandRow) -> CommandRow
    ensures { result ≡ running_looked now child row }
{
    match child {
        ChildState::Runs if row.pipes.are_over() => paused(false, now, row),
        ChildState::Runs => {
            CommandRow {
                looked_ms: now,
                pause_ms: GLANCE_MS,
                ..row
            }
        }
        ChildState::Ended(code) if row.pipes.are_over() => {
            CommandRow {
                phase: CommandPhase::Over(CommandEnd::Code(row.pipes.exit_code(code))),
                ..row
            }
        }
        ChildState::Ended(code) => glanced(now, code, row),
    }
}

/// What is known of the processes of a command that is ended. Its own is asked for its end first,
/// so that none stays as a zombie; only one that a kill doesn't end isn't awaited.
fn swept(seen: ProcessLook) -> Sweep
    ensures { result ≡ swept seen }
{
    match (seen.sweep, seen.child) {
        (Sweep::Left, _) => Sweep::Left,
        (sweep, ChildState::Ended(_)) => sweep,
        (_, ChildState::Runs) => Sweep::Going,
    }
}

/// A command that is being ended was looked at, for which so many milliseconds had counted before.
/// What its pipes still gave isn't told behind its end.
fn stop_looked(
    why: StopCause,
    before_ms: u64,
    now: u64,
    seen: ProcessLook,
    row: CommandRow,
) -> CommandRow
    ensures { result ≡ stop_looked why before_ms now seen row }
{
    let is_silent = row.texts == 0 && row.pipes.are_over();
    let stopped = stopped_ms(before_ms, now.saturating_sub(row.looked_ms));
    match stop_end(swept(seen), stopped, is_silent) {
        Some(left) => {
            CommandRow {
                texts: 0,
                phase: CommandPhase::Over(CommandEnd::Stopped(why, left)),
                ..row
            }
        }
        None => {
            CommandRow {
                phase: CommandPhase::Stopping(why, stopped),
                ..paused(true, now, row)
            }
        }
    }
}

/// A command that was killed, of which nobody is told, was looked at.
fn owed_looked(now: u64, seen: ProcessLook, row: CommandRow) -> CommandRow
    ensures { result ≡ owed_looked now seen row }
{
    match (seen.child, seen.sweep) {
        (ChildState::Runs, _) | (_, Sweep::Going) => paused(false, now, row),
        _ => {
            CommandRow {
                phase: CommandPhase::Gone,
                ..row
            }
        }
    }
}

/// Its process and its sweep were looked at.
pub(crate) fn looked(now: u64, seen: ProcessLook, row: CommandRow) -> CommandRow
    ensures { result ≡ looked now seen row }
{
    match row.phase {
        CommandPhase::Runs => running_looked(now, seen.child, row),
        CommandPhase::Stopping(why, before) => stop_looked(why, before, now, seen, row),
        CommandPhase::Owed => owed_looked(now, seen, row),
        CommandPhase::Over(_) | CommandPhase::Lost | CommandPhase::Gone => row,
    }
}

/// What is told of a command whose end is known. An exit code is told of the command whose pipes
/// gave it.
pub(crate) fn end_effect(row: CommandRow) -> Effect
    ensures { result ≡ end_effect row }
{
    match row.phase {
        CommandPhase::Over(end) => {
            let command = match end {
                CommandEnd::Code(code) | CommandEnd::Held(code) => code.command(),
                CommandEnd::Stopped(_, _) => row.pipes.command(),
            };
            Effect::TellEnd(row.process, command, end)
        }
        _ => Effect::Nothing,
    }
}
