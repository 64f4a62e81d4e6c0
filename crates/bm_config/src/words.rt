//! The words of programs.

ghost use Rattle.std.specs.Prelude.{◌≡◌, nat_le, map, sum_by, length, option_map, IfOk};
ghost use Rattle.std.specs.List.{list_all};
ghost use Rattle.toml.specs.View.{view, table_view};
ghost use Rattle.bm_config.specs.Places.{alone};
ghost use Rattle.bm_config.specs.Rows.{Gives};
ghost use Rattle.bm_config.specs.Config.{is_text, text_array, texts_of, program_at, command_at};

use crate::fault::Fault;
use crate::fields::find;
use crate::keys::Key;
use crate::rows::elements;
use bm_board::Words;
use bm_lines::Text;
use std::alloc::{AllocError, Global};
use toml::{Table, Value};

/// The most words that a step may have.
const MOST_WORDS: usize = 10_000;

/// The most bytes that they may have together.
const MOST_BYTES: usize = 900_000;

/// The program that starts a worker on demand, where there is one.
pub(crate) fn program(alloc: Global, table: &Table) -> Result<Option<Words>, Fault>
    ensures { Gives (alone (program_at (table_view table.now))) result }
{
    let Some(value) = find(table, Key::Latent) else {
        return Ok(None);
    };
    let Some(values) = text_array(value) else {
        return Err(Fault::from(Key::Latent));
    };
    Ok(Some(texts(alloc, values)?))
}

/// The words of a step.
pub(crate) fn command(alloc: Global, table: &Table) -> Result<Words, Fault>
    ensures { Gives (alone (command_at (table_view table.now))) result }
{
    let Some(value) = find(table, Key::Command) else {
        return Err(Fault::from(Key::Command));
    };
    let Some(values) = text_array(value) else {
        return Err(Fault::from(Key::Command));
    };
    if values.len() <= MOST_WORDS && fit(values, MOST_BYTES) {
        Ok(texts(alloc, values)?)
    } else {
        Err(Fault::from(Key::Command))
    }
}

// The elements, or None where the value isn't an array of one or more texts.
fn text_array(value: &Value) -> Option<&[Value]>
    ensures { option_map (λ s. map view s.now) result ≡ text_array (view value.now) }
{
    match elements(value) {
        Some(values) if values.len() >= 1 && are_texts(values) => Some(values),
        _ => None,
    }
}

fn are_texts(values: &[Value]) -> bool
    ensures { result ≡ list_all is_text (map view values.now) }
{
    each_is_text(values)
}

fn each_is_text(values: &[Value]) -> bool
    ensures { result ≡ list_all (λ v. is_text (view v)) values.now }
{
    values.iter().all(|value| value.is_str())
}

// Whether the texts among the values have at most so many bytes together.
fn fit(values: &[Value], most: usize) -> bool
    ensures { result ≡ nat_le (sum_by length (texts_of (map view values.now))) most }
{
    let mut room = most;
    for value in values {
        if let Some(text) = value.as_str() {
            if text.len() > room {
                return false;
            }
            room -= text.len();
        }
    }
    true
}

// The texts among the values.
fn texts(alloc: Global, values: &[Value]) -> Result<Words, AllocError>
    ensures { IfOk result (λ ws. ws ≡ texts_of (map view values.now)) }
{
    let mut words = Vec::new(alloc);
    for value in values {
        if let Some(text) = value.as_str() {
            words.push(Text::from_str(alloc, text)?)?;
        }
    }
    Ok(Words::from_vec(words))
}
