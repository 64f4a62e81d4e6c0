//! The configuration that a text says.

ghost use Rattle.std.specs.Prelude.{◌≡◌, MatchResult, Ok};
ghost use Rattle.bm_config.specs.Places.{alone};
ghost use Rattle.toml.specs.View.{table_view};
ghost use Rattle.bm_config.specs.Rows.{Gives};
ghost use Rattle.bm_config.specs.Config.{Says, IsFaultOf, IsMistakeOf, config_of, form_at, told_address};

use crate::builds::{WorkersAndLocks, builds};
use crate::config::{Config, RemarkForm};
use crate::fault::{ConfigFault, ConfigMistake, Fault};
use crate::fields::{NumberRange, address, find, number};
use crate::keys::Key;
use crate::workers::{locks, workers};
use bm_lines::Text;
use std::alloc::Global;
use std::net::SocketAddr;
use toml::Table;

const CAPACITY: NumberRange = NumberRange {
    low: 1,
    high: 65_536,
    missing: 64,
};

const WRITERS: NumberRange = NumberRange {
    low: 1,
    high: 64,
    missing: 2,
};

/// The configuration that a text says, or why it says none. The text is no TOML, or a key is at
/// fault: the first in the order of [`Key`] and of the arrays. `Mem` says nothing of the text.
pub fn read_config(alloc: Global, text: &str) -> Result<Config, ConfigFault>
    ensures { MatchResult result (λ c. Says text.now (Ok c)) (IsFaultOf text.now) }
{
    match read_config_or_why(alloc, text) {
        Ok(config) => Ok(config),
        Err(ConfigMistake::Syntax(_)) => Err(ConfigFault::Syntax),
        Err(ConfigMistake::At(spot)) => match String::from_str(alloc, spot.key.name()) {
            Ok(name) => Err(ConfigFault::Key(name)),
            Err(_) => Err(ConfigFault::Mem),
        },
        Err(ConfigMistake::Mem) => Err(ConfigFault::Mem),
    }
}

/// The configuration that a text says, or why and where it says none: as [`read_config`], with the
/// place of the key at fault.
pub fn read_config_or_why(alloc: Global, text: &str) -> Result<Config, ConfigMistake>
    ensures { MatchResult result (λ c. Says text.now (Ok c)) (IsMistakeOf text.now) }
{
    let table = match toml::table_from_str(alloc, text) {
        Ok(table) => table,
        Err(e) if e.is_memory() => return Err(ConfigMistake::Mem),
        Err(e) => return Err(ConfigMistake::Syntax(e)),
    };
    let listen = address(&table, Key::Listen);
    let web = address(&table, Key::Web);
    match config_in(alloc, &table, listen, web) {
        Ok(config) => Ok(config),
        Err(Fault::At(spot)) => Err(ConfigMistake::At(spot)),
        Err(Fault::Mem) => Err(ConfigMistake::Mem),
    }
}

// The form of remarks.
fn form(table: &Table) -> Result<RemarkForm, Key>
    ensures { result ≡ form_at (table_view table.now) }
{
    match find(table, Key::Remarks) {
        Some(value) => match value.as_str() {
            Some("text") => Ok(RemarkForm::Text),
            Some("json") => Ok(RemarkForm::Json),
            _ => Err(Key::Remarks),
        },
        None => Ok(RemarkForm::Text),
    }
}

// The address that programs of workers are given, where the table has one.
fn told_address(alloc: Global, table: &Table) -> Result<Option<Text>, Fault>
    ensures { Gives (alone (told_address (table_view table.now))) result }
{
    let Some(value) = find(table, Key::Address) else {
        return Ok(None);
    };
    match value.as_str() {
        Some(text) if text.len() > 0 => Ok(Some(Text::from_str(alloc, text)?)),
        _ => Err(Fault::from(Key::Address)),
    }
}

// The configuration of a table, with the addresses that its texts write.
fn config_in(
    alloc: Global,
    table: &Table,
    listen: Option<SocketAddr>,
    web: Option<SocketAddr>,
) -> Result<Config, Fault>
    ensures { Gives (config_of listen web (table_view table.now)) result }
{
    let Some(listen) = listen else {
        return Err(Fault::from(Key::Listen));
    };
    let Some(web) = web else {
        return Err(Fault::from(Key::Web));
    };
    let address = told_address(alloc, table)?;
    let capacity = number(table, Key::Capacity, CAPACITY)?;
    let writers = number(table, Key::Writers, WRITERS)?;
    let remarks = form(table)?;
    let workers = workers(alloc, table)?;
    let locks = locks(alloc, table)?;
    let places = WorkersAndLocks { workers, locks };
    let builds = builds(alloc, &places, table)?;
    let WorkersAndLocks { workers, locks } = places;
    Ok(Config {
        listen,
        web,
        address,
        capacity,
        writers,
        remarks,
        workers,
        locks,
        builds,
    })
}
