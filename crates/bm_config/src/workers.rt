//! The workers and the locks of a configuration.

ghost use Rattle.std.specs.Prelude.{◌≡◌, bytes_eq, position};
ghost use Rattle.std.specs.List.{list_any};
ghost use Rattle.std.specs.Result.{result_map_both};
ghost use Rattle.toml.specs.View.{table_view};
ghost use Rattle.bm_config.specs.declared.keys.Key.TheVariants as keys;
ghost use Rattle.bm_config.specs.Rows.{Gives};
ghost use Rattle.bm_config.specs.Config.{named, new_worker, new_lock, worker_named, workers_of, locks_of};

use crate::config::{LockConfig, WorkerConfig};
use crate::fault::Fault;
use crate::fields::{NumberRange, number, text};
use crate::keys::Key;
use crate::rows::{ConfigRow, all_tables, read_rows, some_tables, table_of};
use crate::words::program;
use bm_board::Listed;
use bm_lines::Text;
use std::alloc::Global;
use toml::{Table, Value};

/// The most that a number of ticks, and a lock's maximum, may be.
pub(crate) const MOST: u32 = 0x7fff_ffff;

const MOST_WORKERS: usize = 64;

const SLOTS: NumberRange = NumberRange {
    low: 1,
    high: 4,
    missing: 1,
};

const IDLE_TICKS: NumberRange = NumberRange {
    low: 1,
    high: MOST,
    missing: 100,
};

const RESUME_TICKS: NumberRange = NumberRange {
    low: 0,
    high: MOST,
    missing: 0,
};

const MAX: NumberRange = NumberRange {
    low: 1,
    high: MOST,
    missing: 1,
};

impl ConfigRow<()> for WorkerConfig {
    ghost use Rattle.bm_config.specs.Config.{worker_row};

    ghost row_of = { λ _. worker_row };

    fn read(
        alloc: Global,
        _known: &(),
        before: &[WorkerConfig],
        value: &Value,
    ) -> Result<WorkerConfig, Fault> {
        let table = table_of(value, Key::Worker)?;
        let name = worker_name(before, table)?;
        let password = text(table, Key::Password)?;
        let slots = number(table, Key::Slots, SLOTS)?;
        let latent = program(alloc, table)?;
        let idle_ticks = number(table, Key::IdleTicks, IDLE_TICKS)?;
        let resume_ticks = number(table, Key::ResumeTicks, RESUME_TICKS)?;
        Ok(WorkerConfig {
            name: Text::from_str(alloc, name)?,
            password: Text::from_str(alloc, password)?,
            slots: slots as u8,
            latent,
            idle_ticks,
            resume_ticks,
        })
    }
}

impl ConfigRow<()> for LockConfig {
    ghost use Rattle.bm_config.specs.Config.{lock_row};

    ghost row_of = { λ _. lock_row };

    fn read(
        alloc: Global,
        _known: &(),
        before: &[LockConfig],
        value: &Value,
    ) -> Result<LockConfig, Fault> {
        let table = table_of(value, Key::Lock)?;
        let name = lock_name(before, table)?;
        let max = number(table, Key::Max, MAX)?;
        Ok(LockConfig {
            name: Text::from_str(alloc, name)?,
            max,
        })
    }
}

// The name of a worker, which isn't empty and which none before it has.
fn worker_name<'a>(before: &[WorkerConfig], table: &'a Table) -> Result<&'a str, Key>
    ensures { result_map_both (λ s. s.now) (λ k. k) result
        ≡ named keys.Name (new_worker before.now) (table_view table.now) }
{
    let name = text(table, Key::Name)?;
    if name.len() == 0 || has_worker(before, name) {
        Err(Key::Name)
    } else {
        Ok(name)
    }
}

fn has_worker(before: &[WorkerConfig], name: &str) -> bool
    ensures { result ≡ list_any (λ w. bytes_eq w.name name.now) before.now }
{
    before.iter().any(|worker| is_named(&worker.name, name))
}

/// The place of the worker that has the name.
pub(crate) fn worker_named(workers: &[WorkerConfig], name: &str) -> Option<usize>
    ensures { result ≡ worker_named workers.now name.now }
{
    workers
        .iter()
        .position(|worker| is_named(&worker.name, name))
}

// The name of a lock, which none before it has.
fn lock_name<'a>(before: &[LockConfig], table: &'a Table) -> Result<&'a str, Key>
    ensures { result_map_both (λ s. s.now) (λ k. k) result
        ≡ named keys.Name (new_lock before.now) (table_view table.now) }
{
    let name = text(table, Key::Name)?;
    if has_lock(before, name) {
        Err(Key::Name)
    } else {
        Ok(name)
    }
}

fn has_lock(before: &[LockConfig], name: &str) -> bool
    ensures { result ≡ list_any (λ l. bytes_eq l.name name.now) before.now }
{
    before.iter().any(|lock| is_named(&lock.name, name))
}

/// The place of the lock that has the name.
pub(crate) fn lock_named(locks: &[LockConfig], name: &str) -> Option<usize>
    ensures { result ≡ position (λ l. bytes_eq l.name name.now) locks.now }
{
    locks.iter().position(|lock| is_named(&lock.name, name))
}

fn is_named(text: &Text, name: &str) -> bool
    ensures { result ≡ bytes_eq text.now name.now }
{
    text.as_str() == name
}

/// The rows of `[[worker]]`: at least one, and at most 64.
pub(crate) fn workers(alloc: Global, table: &Table) -> Result<Listed<WorkerConfig>, Fault>
    ensures { Gives (workers_of (table_view table.now)) result }
{
    let values = some_tables(table, Key::Worker, MOST_WORKERS)?;
    read_rows(alloc, Key::Worker, &(), values)
}

/// The rows of `[[lock]]`: none where the array is missing.
pub(crate) fn locks(alloc: Global, table: &Table) -> Result<Listed<LockConfig>, Fault>
    ensures { Gives (locks_of (table_view table.now)) result }
{
    let values = all_tables(table, Key::Lock)?;
    read_rows(alloc, Key::Lock, &(), values)
}
