//! What a table has at a key, in the forms that a configuration asks for. Nothing here takes
//! memory.

ghost use Rattle.std.specs.Prelude.{◌≡◌, ◌≤◌, option_map, option_copied, IfOk, Some};
ghost use Rattle.std.specs.Result.{result_map_both};
ghost use Rattle.toml.specs.View.{view, table_view};
ghost use Rattle.bm_config.specs.Fields.{find, text_in, text_at, number_at, flag_at, IsAddressOf};

use crate::keys::Key;
use std::net::SocketAddr;
use toml::{Table, Value};

/// The value at a key, if there is one.
pub(crate) fn find(table: &Table, key: Key) -> Option<&Value>
    ensures { option_map (λ v. view v.now) result ≡ find key (table_view table.now) }
{
    table.get(key.name())
}

/// The text at a key, if there is one.
pub(crate) fn find_text(table: &Table, key: Key) -> Option<&str>
    ensures { option_copied result ≡ text_in key (table_view table.now) }
{
    match find(table, key) {
        Some(value) => value.as_str(),
        None => None,
    }
}

/// The text at a key.
pub(crate) fn text(table: &Table, key: Key) -> Result<&str, Key>
    ensures { result_map_both (λ s. s.now) (λ k. k) result ≡ text_at key (table_view table.now) }
{
    match find_text(table, key) {
        Some(text) => Ok(text),
        None => Err(key),
    }
}

/// The address of an IP address and a port at a key, if its text writes one.
pub(crate) fn address(table: &Table, key: Key) -> Option<SocketAddr>
    ensures { IsAddressOf (text_in key (table_view table.now)) result }
{
    match find_text(table, key) {
        Some(text) => parsed(text),
        None => None,
    }
}

// The address that a text writes, if it writes one.
fn parsed(text: &str) -> Option<SocketAddr>
    ensures { IsAddressOf (Some text.now) result }
{
    match text.parse::<SocketAddr>() {
        Ok(address) => Some(address),
        Err(_) => None,
    }
}

/// The numbers that a key takes, and the one that stands where it is missing.
#[derive(Clone, Copy)]
pub(crate) struct NumberRange {
    pub low: u32,
    pub high: u32,
    pub missing: u32,
    ghost fits: { (low ≤ missing) × (missing ≤ high) },
}

/// The number at a key.
pub(crate) fn number(table: &Table, key: Key, limits: NumberRange) -> Result<u32, Key>
    ensures value { result
        ≡ number_at limits.low limits.high limits.missing key (table_view table.now) }
    ensures within { IfOk result (λ n. (limits.low ≤ n) × (n ≤ limits.high)) }
{
    match find(table, key) {
        Some(value) => match value.as_integer() {
            Some(n) if limits.low as i64 <= n && n <= limits.high as i64 => Ok(n as u32),
            _ => Err(key),
        },
        None => Ok(limits.missing),
    }
}

/// The flag at a key, or `missing` where there is none.
pub(crate) fn flag(table: &Table, key: Key, missing: bool) -> Result<bool, Key>
    ensures { result ≡ flag_at missing key (table_view table.now) }
{
    match find(table, key) {
        Some(value) => value.as_bool().ok_or(key),
        None => Ok(missing),
    }
}
