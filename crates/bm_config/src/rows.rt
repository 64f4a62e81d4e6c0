//! Arrays of tables, and the rows that they make.

ghost use Rattle.std.specs.Prelude.{◌≡◌, map, option_map};
ghost use Rattle.std.specs.List.{list_all};
ghost use Rattle.std.specs.Result.{result_map_both};
ghost use Rattle.toml.specs.View.{view, table_view};
ghost use Rattle.bm_config.specs.Rows.{Gives, elements, table_of, rows, is_table, tables, tables_at, tables_or_none, few_tables};

use crate::fault::Fault;
use crate::fields::find;
use crate::keys::Key;
use bm_board::Listed;
use std::alloc::Global;
use toml::{Table, Value};

/// What an element of an array makes, after those before it. `C` is what it may name.
pub(crate) trait ConfigRow<C>: Sized + Drop {
    ghost use Rattle.std.specs.Prelude.{List, Result};
    ghost use Rattle.toml.specs.Data.{Data};
    ghost use Rattle.bm_config.specs.declared.place.Spot.{Spot};

    ghost row_of: { C → List Self → Data → Result Self Spot };

    /// The row of an element, or the first key at fault in it.
    fn read(alloc: Global, known: &C, before: &[Self], value: &Value) -> Result<Self, Fault>
        ensures { Gives (row_of known.now before.now (view value.now)) result };
}

/// The rows of the array at this key, or the first key at fault in it.
pub(crate) fn read_rows<C, T: ConfigRow<C>>(
    alloc: Global,
    section: Key,
    known: &C,
    values: &[Value],
) -> Result<Listed<T>, Fault>
    ensures { Gives (rows section (T.row_of known.now) (map view values.now)) result }
{
    let mut made: Vec<T> = Vec::new(alloc);
    for value in values {
        let row = match T::read(alloc, known, &made, value) {
            Ok(row) => row,
            Err(fault) => return Err(fault.under(section, made.len())),
        };
        made.push(row)?;
    }
    Ok(Listed::from_vec(made))
}

/// The table that an element is.
pub(crate) fn table_of(value: &Value, key: Key) -> Result<&Table, Key>
    ensures { result_map_both (λ t. table_view t.now) (λ k. k) result
        ≡ table_of key (view value.now) }
{
    value.as_table().ok_or(key)
}

/// The elements, or None where the value is no array.
pub(crate) fn elements(value: &Value) -> Option<&[Value]>
    ensures { option_map (λ s. map view s.now) result ≡ elements (view value.now) }
{
    match value.as_array() {
        Some(array) => Some(array.as_slice()),
        None => None,
    }
}

// The elements, or None where the value is no array or one of them is no table.
fn tables(value: &Value) -> Option<&[Value]>
    ensures { option_map (λ s. map view s.now) result ≡ tables (view value.now) }
{
    match elements(value) {
        Some(values) if are_tables(values) => Some(values),
        _ => None,
    }
}

// Restates `each_is_table` over the views, as the definitions have it.
fn are_tables(values: &[Value]) -> bool
    ensures { result ≡ list_all is_table (map view values.now) }
{
    each_is_table(values)
}

fn each_is_table(values: &[Value]) -> bool
    ensures { result ≡ list_all (λ v. is_table (view v)) values.now }
{
    values.iter().all(|value| value.is_table())
}

/// The tables at a key that mustn't be missing: at least one, and at most `high`.
pub(crate) fn some_tables(table: &Table, key: Key, high: usize) -> Result<&[Value], Key>
    ensures { result_map_both (λ s. map view s.now) (λ k. k) result
        ≡ tables_at 1 high key (table_view table.now) }
{
    match find(table, key) {
        Some(value) => match tables(value) {
            Some(rows) if rows.len() >= 1 && rows.len() <= high => Ok(rows),
            _ => Err(key),
        },
        None => Err(key),
    }
}

/// The tables at a key, none where it is missing.
pub(crate) fn all_tables(table: &Table, key: Key) -> Result<&[Value], Key>
    ensures { result_map_both (λ s. map view s.now) (λ k. k) result
        ≡ tables_or_none key (table_view table.now) }
{
    match find(table, key) {
        Some(value) => tables(value).ok_or(key),
        None => Ok(&[]),
    }
}

/// The tables at a key, none where it is missing, and at most `high`.
pub(crate) fn few_tables(table: &Table, key: Key, high: usize) -> Result<&[Value], Key>
    ensures { result_map_both (λ s. map view s.now) (λ k. k) result
        ≡ few_tables high key (table_view table.now) }
{
    match find(table, key) {
        Some(value) => match tables(value) {
            Some(rows) if rows.len() <= high => Ok(rows),
            _ => Err(key),
        },
        None => Ok(&[]),
    }
}
