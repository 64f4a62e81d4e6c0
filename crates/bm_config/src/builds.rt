//! The builds of a configuration.

ghost use Rattle.std.specs.Prelude.{◌≡◌, ◌==◌};
ghost use Rattle.std.specs.List.{list_any};
ghost use Rattle.toml.specs.View.{table_view};
ghost use Rattle.bm_config.specs.declared.keys.Key.TheVariants as keys;
ghost use Rattle.bm_config.specs.Rows.{Gives};
ghost use Rattle.bm_config.specs.Config.{named, free_lock, mode_of, worker_named, uses_of, steps_of, builds_of};

use crate::config::{LockConfig, WorkerConfig};
use crate::fault::Fault;
use crate::fields::{NumberRange, flag, number, text};
use crate::keys::Key;
use crate::rows::{ConfigRow, all_tables, few_tables, read_rows, table_of};
use crate::words::command;
use crate::workers::{MOST, lock_named, worker_named};
use bm_board::{Build, Listed, LockUse, LockUses, Mode, StepPlan, StepPlans};
use bm_lines::Text;
use std::alloc::Global;
use toml::{Table, Value};

const MOST_BUILDS: usize = 10_000;

const MAX_BYTES: NumberRange = NumberRange {
    low: 0,
    high: 0xffff_ffff,
    missing: 1 << 30,
};

/// Of `timeout_ticks` and of `silent_ticks`: 0 is no limit.
const TICKS: NumberRange = NumberRange {
    low: 0,
    high: MOST,
    missing: 0,
};

/// The workers and the locks that builds name.
#[derive(Drop)]
pub(crate) struct WorkersAndLocks {
    pub workers: Listed<WorkerConfig>,
    pub locks: Listed<LockConfig>,
}

impl ConfigRow<WorkersAndLocks> for Build {
    ghost use Rattle.bm_config.specs.Config.{build_row};

    ghost row_of = { λ places. build_row places.workers places.locks };

    fn read(
        alloc: Global,
        known: &WorkersAndLocks,
        _before: &[Build],
        value: &Value,
    ) -> Result<Build, Fault> {
        let table = table_of(value, Key::Build)?;
        let worker = worker_place(known.workers.as_slice(), table)?;
        let locks = uses(alloc, &known.locks, table)?;
        let steps = steps(alloc, table)?;
        Ok(Build {
            worker,
            locks,
            steps,
        })
    }
}

impl ConfigRow<Listed<LockConfig>> for LockUse {
    ghost use Rattle.bm_config.specs.Config.{use_row};

    ghost row_of = { use_row };

    fn read(
        _alloc: Global,
        known: &Listed<LockConfig>,
        before: &[LockUse],
        value: &Value,
    ) -> Result<LockUse, Fault> {
        let table = table_of(value, Key::Locks)?;
        let lock = lock_place(known.as_slice(), before, table)?;
        let mode = mode(table)?;
        Ok(LockUse { lock, mode })
    }
}

impl ConfigRow<()> for StepPlan {
    ghost use Rattle.bm_config.specs.Config.{step_row};

    ghost row_of = { λ _. step_row };

    fn read(
        alloc: Global,
        _known: &(),
        _before: &[StepPlan],
        value: &Value,
    ) -> Result<StepPlan, Fault> {
        let table = table_of(value, Key::Step)?;
        let name = text(table, Key::Name)?;
        let argv = command(alloc, table)?;
        let halt_on_failure = flag(table, Key::HaltOnFailure, false)?;
        let flunk_on_failure = flag(table, Key::FlunkOnFailure, true)?;
        let always_run = flag(table, Key::AlwaysRun, false)?;
        let max_bytes = number(table, Key::MaxBytes, MAX_BYTES)?;
        let timeout_ticks = number(table, Key::TimeoutTicks, TICKS)?;
        let silent_ticks = number(table, Key::SilentTicks, TICKS)?;
        Ok(StepPlan {
            name: Text::from_str(alloc, name)?,
            argv,
            halt_on_failure,
            flunk_on_failure,
            always_run,
            max_bytes,
            timeout_ticks,
            silent_ticks,
        })
    }
}

/// The rows of `[[build]]`: none where the array is missing, and at most 10,000.
pub(crate) fn builds(
    alloc: Global,
    places: &WorkersAndLocks,
    table: &Table,
) -> Result<Listed<Build>, Fault>
    ensures { Gives (builds_of places.now.workers places.now.locks (table_view table.now)) result }
{
    let values = few_tables(table, Key::Build, MOST_BUILDS)?;
    read_rows(alloc, Key::Build, places, values)
}

// The locks that a build holds.
fn uses(alloc: Global, locks: &Listed<LockConfig>, table: &Table) -> Result<LockUses, Fault>
    ensures { Gives (uses_of locks.now (table_view table.now)) result }
{
    let values = all_tables(table, Key::Locks)?;
    read_rows(alloc, Key::Locks, locks, values)
}

fn steps(alloc: Global, table: &Table) -> Result<StepPlans, Fault>
    ensures { Gives (steps_of (table_view table.now)) result }
{
    let values = all_tables(table, Key::Step)?;
    read_rows(alloc, Key::Step, &(), values)
}

// The place of the worker that a build names.
fn worker_place(workers: &[WorkerConfig], table: &Table) -> Result<usize, Key>
    ensures { result ≡ named keys.Worker (worker_named workers.now) (table_view table.now) }
{
    let name = text(table, Key::Worker)?;
    match worker_named(workers, name) {
        Some(place) => Ok(place),
        None => Err(Key::Worker),
    }
}

// The place of a lock that no use before names.
fn lock_place(locks: &[LockConfig], before: &[LockUse], table: &Table) -> Result<usize, Key>
    ensures { result ≡ named keys.Name (free_lock locks.now before.now) (table_view table.now) }
{
    let name = text(table, Key::Name)?;
    match free_lock(locks, before, name) {
        Some(place) => Ok(place),
        None => Err(Key::Name),
    }
}

fn free_lock(locks: &[LockConfig], before: &[LockUse], name: &str) -> Option<usize>
    ensures { result ≡ free_lock locks.now before.now name.now }
{
    match lock_named(locks, name) {
        Some(place) => {
            if is_used(before, place) {
                None
            } else {
                Some(place)
            }
        }
        None => None,
    }
}

fn is_used(before: &[LockUse], place: usize) -> bool
    ensures { result ≡ list_any (λ u. u.lock == place) before.now }
{
    before.iter().any(|other| other.lock == place)
}

// How a lock is held.
fn mode(table: &Table) -> Result<Mode, Key>
    ensures { result ≡ named keys.Mode mode_of (table_view table.now) }
{
    match text(table, Key::Mode)? {
        "counting" => Ok(Mode::Counting),
        "exclusive" => Ok(Mode::Exclusive),
        _ => Err(Key::Mode),
    }
}
