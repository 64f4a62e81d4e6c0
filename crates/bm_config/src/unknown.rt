//! The keys of a configuration that nobody reads.

ghost use Rattle.std.specs.Prelude.{◌≡◌, ◌++◌, IfOk, OnOk, map, option_map};
ghost use Rattle.toml.specs.View.{table_view, view};
ghost use Rattle.bm_config.specs.declared.keys.Key.TheVariants as keys;
ghost use Rattle.bm_config.specs.Places.{top, within};
ghost use Rattle.bm_config.specs.Unknown.{added, all_unknown, in_array, in_build, in_rows, keys_of, rows_at, unknown_in, unknown_keys};

use crate::fields::find;
use crate::keys::Key;
use crate::place::Place;
use crate::rows::elements;
use crate::section::{Section, is_known, nearest};
use bm_lines::Text;
use std::alloc::{AllocError, Global};
use toml::{Table, Value};

/// A key that nobody reads.
#[derive(Drop)]
pub struct UnknownKey {
    /// The table that it stands in.
    pub place: Place,
    pub key: Text,
    /// The key that is read of that table and has nearly this name.
    pub near: Option<Key>,
}

/// The keys of a text that nobody reads, table by table; none where the text is no TOML.
/// They are found by a second reading. The configuration would else carry what only the master's
/// first remarks want.
pub fn unknown_keys(alloc: Global, text: &str) -> Result<Vec<UnknownKey>, AllocError>
    ensures { IfOk result (λ found. found.items ≡ unknown_keys text.now) }
{
    let mut found = Vec::new(alloc);
    match toml::table_from_str(alloc, text) {
        Ok(table) => add_all(alloc, &mut found, &table)?,
        Err(error) if error.is_memory() => return Err(AllocError),
        Err(_) => {}
    }
    Ok(found)
}

// Adds those of the whole table.
fn add_all(alloc: Global, found: &mut Vec<UnknownKey>, table: &Table) -> Result<(), AllocError>
    ensures { OnOk result (found.new.items ≡ found.old.items ++ all_unknown (table_view table.now)) }
{
    let top = Place::top();
    add_table(alloc, found, Section::Whole.keys(), top, table)?;
    add_array(alloc, found, Section::OfWorker, Key::Worker, top, table)?;
    add_array(alloc, found, Section::OfLock, Key::Lock, top, table)?;
    add_builds(alloc, found, rows_at(table, Key::Build))
}

fn add_builds(
    alloc: Global,
    found: &mut Vec<UnknownKey>,
    builds: &[Value],
) -> Result<(), AllocError>
    ensures { OnOk result (found.new.items
        ≡ found.old.items ++ in_rows in_build 0 (map view builds.now)) }
{
    let mut number = 0;
    for value in builds {
        if let Some(build) = value.as_table() {
            add_build(alloc, found, number, build)?;
        }
        number += 1;
    }
    Ok(())
}

fn add_build(
    alloc: Global,
    found: &mut Vec<UnknownKey>,
    number: usize,
    build: &Table,
) -> Result<(), AllocError>
    ensures { OnOk result (found.new.items
        ≡ found.old.items ++ in_build number (table_view build.now)) }
{
    let place = Place::top().within(Key::Build, number);
    add_table(alloc, found, Section::OfBuild.keys(), place, build)?;
    add_array(alloc, found, Section::OfUse, Key::Locks, place, build)?;
    add_array(alloc, found, Section::OfStep, Key::Step, place, build)
}

// Adds those of the rows of an array in a table that is at this place.
fn add_array(
    alloc: Global,
    found: &mut Vec<UnknownKey>,
    section: Section,
    key: Key,
    place: Place,
    table: &Table,
) -> Result<(), AllocError>
    ensures { OnOk result (found.new.items
        ≡ found.old.items ++ in_array section key place (table_view table.now)) }
{
    add_rows(
        alloc,
        found,
        section.keys(),
        key,
        place,
        rows_at(table, key),
    )
}

fn add_rows(
    alloc: Global,
    found: &mut Vec<UnknownKey>,
    known: &[Key],
    key: Key,
    place: Place,
    rows: &[Value],
) -> Result<(), AllocError>
    ensures { OnOk result (found.new.items ≡ found.old.items
        ++ in_rows (λ n row. unknown_in known.now (within key n place) row) 0 (map view rows.now)) }
{
    let mut number = 0;
    for value in rows {
        if let Some(row) = value.as_table() {
            add_table(alloc, found, known, place.within(key, number), row)?;
        }
        number += 1;
    }
    Ok(())
}

// The elements of the array at a key, none where there is no array.
fn rows_at(table: &Table, key: Key) -> &[Value]
    ensures { map view result.now ≡ rows_at key (table_view table.now) }
{
    match find(table, key) {
        Some(value) => match elements(value) {
            Some(rows) => rows,
            None => &[],
        },
        None => &[],
    }
}

// Adds the keys of a table that are none of these.
fn add_table(
    alloc: Global,
    found: &mut Vec<UnknownKey>,
    known: &[Key],
    place: Place,
    table: &Table,
) -> Result<(), AllocError>
    ensures { OnOk result (found.new.items
        ≡ found.old.items ++ unknown_in known.now place (table_view table.now)) }
{
    for (name, _) in table.iter() {
        add_key(alloc, found, known, place, name.as_str())?;
    }
    Ok(())
}

// Adds a key, where it is none of these.
fn add_key(
    alloc: Global,
    found: &mut Vec<UnknownKey>,
    known: &[Key],
    place: Place,
    name: &str,
) -> Result<(), AllocError>
    ensures { OnOk result (found.new.items ≡ found.old.items ++ added known.now place name.now) }
{
    if is_known(known, name) {
        return Ok(());
    }
    let near = nearest(alloc, name, known)?;
    let key = Text::from_str(alloc, name)?;
    found.push(UnknownKey { place, key, near })?;
    Ok(())
}
