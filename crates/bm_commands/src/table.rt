//! What an input does to the rows of all commands.

ghost use Rattle.std.specs.Prelude.{◌≡◌, map, position};
ghost use Rattle.bm_commands.specs.Rows.{has_end, has_text, is_command, is_due, is_gone, is_lost, is_other, is_process, lost, row_wake};
ghost use Rattle.bm_commands.specs.Queues.{changed, is_alone, killed_at, forgotten_at, look_at, sooner, ticked, told_end_at, told_text_at, turned, wake};

use crate::ending::end_effect;
use crate::row::{
    cell, has_end, has_text, is_command, is_due, is_gone, is_lost, is_other, is_process, killed,
    lost,
};
use crate::values::{CommandPhase, CommandRow, Effect, ProcessInput};

/// The place of a process.
pub(crate) fn place_of(rows: &[CommandRow], process: u64) -> Option<usize>
    ensures { result ≡ position (is_process process) rows.now }
{
    rows.iter().position(|row| is_process(process, row))
}

/// The place of a command of which the master is told.
pub(crate) fn place_of_command(rows: &[CommandRow], command: u64) -> Option<usize>
    ensures { result ≡ position (is_command command) rows.now }
{
    rows.iter().position(|row| is_command(command, row))
}

fn first_lost(rows: &[CommandRow]) -> Option<usize>
    ensures { result ≡ position is_lost rows.now }
{
    rows.iter().position(|row| is_lost(row))
}

fn first_gone(rows: &[CommandRow]) -> Option<usize>
    ensures { result ≡ position is_gone rows.now }
{
    rows.iter().position(|row| is_gone(row))
}

fn first_due(rows: &[CommandRow], now: u64) -> Option<usize>
    ensures { result ≡ position (is_due now) rows.now }
{
    rows.iter().position(|row| is_due(now, row))
}

fn first_end(rows: &[CommandRow]) -> Option<usize>
    ensures { result ≡ position has_end rows.now }
{
    rows.iter().position(|row| has_end(row))
}

fn first_text(rows: &[CommandRow]) -> Option<usize>
    ensures { result ≡ position has_text rows.now }
{
    rows.iter().position(|row| has_text(row))
}

/// The first other command of which the master is told.
fn first_other(rows: &[CommandRow], process: u64) -> Option<usize>
    ensures { result ≡ position (is_other process) rows.now }
{
    rows.iter().position(|row| is_other(process, row))
}

/// Whether the master is told of no other command.
fn is_alone(rows: &[CommandRow], process: u64) -> bool
    ensures { result ≡ is_alone process rows.now }
{
    match first_other(rows, process) {
        Some(_) => false,
        None => true,
    }
}

/// The row at this place is changed as the table of one command says.
pub(crate) fn change(
    rows: &mut [CommandRow],
    place: Option<usize>,
    now: u64,
    input: ProcessInput,
) -> Effect
    ensures effect { result ≡ (changed now input rows.old place).1 }
    ensures rows { rows.new ≡ (changed now input rows.old place).0 }
{
    match place {
        Some(at) if at < rows.len() => {
            let (row, effect) = cell(now, rows[at], input);
            rows[at] = row;
            effect
        }
        _ => Effect::Nothing,
    }
}

/// Of no command that runs is anybody told any more.
pub(crate) fn lose_all(rows: &mut [CommandRow])
    ensures { rows.new ≡ map lost rows.old }
{
    for row in rows.iter_mut() {
        *row = lost(*row);
    }
}

/// A command whose session was lost is killed.
fn kill_at(rows: &mut [CommandRow], at: usize, now: u64) -> Effect
    ensures effect { result ≡ (killed_at now rows.old at).1 }
    ensures rows { rows.new ≡ (killed_at now rows.old at).0 }
{
    if at >= rows.len() {
        return Effect::Nothing;
    }
    let row = killed(now, rows[at]);
    rows[at] = row;
    Effect::Kill(row.process)
}

/// A row goes of which nothing is left.
fn forget_at(rows: &mut Vec<CommandRow>, at: usize) -> Effect
    ensures effect { result ≡ (forgotten_at rows.old.items at).1 }
    ensures rows { rows.new.items ≡ (forgotten_at rows.old.items at).0 }
{
    if at >= rows.len() {
        return Effect::Nothing;
    }
    let row = rows[at];
    let _ = rows.remove(at);
    Effect::Forget(row.process)
}

/// What is done once a time has come. Lost commands are killed first, then processes are looked at.
pub(crate) fn tick(rows: &mut Vec<CommandRow>, now: u64) -> Effect
    ensures effect { result ≡ (ticked now rows.old.items).1 }
    ensures rows { rows.new.items ≡ (ticked now rows.old.items).0 }
{
    if let Some(at) = first_lost(rows.as_slice()) {
        return kill_at(rows.as_mut_slice(), at, now);
    }
    if let Some(at) = first_gone(rows.as_slice()) {
        return forget_at(rows, at);
    }
    match first_due(rows.as_slice(), now) {
        Some(at) => look_at(rows.as_slice(), at),
        None => Effect::Nothing,
    }
}

fn look_at(rows: &[CommandRow], at: usize) -> Effect
    ensures { result ≡ look_at rows.now at }
{
    if at >= rows.len() {
        return Effect::Nothing;
    }
    Effect::Look(rows[at].process)
}

/// The end of the command at this place is told, and its row goes.
fn tell_end_at(rows: &mut Vec<CommandRow>, at: usize) -> Effect
    ensures effect { result ≡ (told_end_at rows.old.items at).1 }
    ensures rows { rows.new.items ≡ (told_end_at rows.old.items at).0 }
{
    if at >= rows.len() {
        return Effect::Nothing;
    }
    let row = rows[at];
    let _ = rows.remove(at);
    end_effect(row)
}

/// A text of the command at this place is told, where texts may be told or the master is told of
/// no other command. It goes behind all others.
fn tell_text_at(rows: &mut Vec<CommandRow>, at: usize, may_say: bool) -> Effect
    ensures effect { result ≡ (told_text_at may_say rows.old.items at).1 }
    ensures rows { rows.new.items ≡ (told_text_at may_say rows.old.items at).0 }
{
    if at >= rows.len() {
        return Effect::Nothing;
    }
    let row = rows[at];
    if !may_say && !is_alone(rows.as_slice(), row.process) {
        return Effect::Nothing;
    }
    let _ = rows.remove(at);
    rows.push_reserved(CommandRow {
        texts: row.texts.saturating_sub(1),
        ..row
    });
    Effect::TellText(row.process, row.pipes.command())
}

/// Of which command is told next, and what. It is the first whose end is to be told, or else the
/// first that has a text. Then each command waits for one text of each of the others at the most.
/// In the order in which things come, one that prints without end would hold back every other end.
pub(crate) fn turn(rows: &mut Vec<CommandRow>, may_say: bool) -> Effect
    ensures effect { result ≡ (turned may_say rows.old.items).1 }
    ensures rows { rows.new.items ≡ (turned may_say rows.old.items).0 }
{
    if let Some(at) = first_end(rows.as_slice()) {
        return tell_end_at(rows, at);
    }
    match first_text(rows.as_slice()) {
        Some(at) => tell_text_at(rows, at, may_say),
        None => Effect::Nothing,
    }
}

/// When the process of a row is to be looked at or killed.
fn row_wake(row: &CommandRow) -> Option<u64>
    ensures { result ≡ row_wake row.now }
{
    match row.phase {
        CommandPhase::Runs | CommandPhase::Stopping(_, _) | CommandPhase::Owed => {
            Some(row.looked_ms.saturating_add(row.pause_ms))
        }
        CommandPhase::Lost | CommandPhase::Gone => Some(0),
        CommandPhase::Over(_) => None,
    }
}

/// The sooner of two times.
fn sooner(one: Option<u64>, other: Option<u64>) -> Option<u64>
    ensures { result ≡ sooner one other }
{
    match (one, other) {
        (None, _) => other,
        (_, None) => one,
        (Some(a), Some(b)) => Some(a.min(b)),
    }
}

/// When the first of them is to be looked at or killed.
#[tactic(auto, using(crate::proofs::Changing::wake_more))]
pub(crate) fn first_wake(rows: &[CommandRow]) -> Option<u64>
    ensures { result ≡ wake rows.now }
{
    let mut first = None;
    for row in rows {
        first = sooner(first, row_wake(row));
    }
    first
}
