//! The items of an update.

ghost use Rattle.std.specs.Prelude.{◌≡◌, [], ◌∷◌, codes, map, Some, IfOk, OnErr, IfSome, IfNone, IsSome};
ghost use Rattle.std.specs.Option.{option_copied, is_none};
ghost use Rattle.bm_value.specs.Tree.{Tree, Trees, none, item};
ghost use Rattle.bm_value.specs.View.{tree, trees_of, items_tree};
ghost use Rattle.bm_msg.specs.Items.{text_of, is_log_name, lettered, named, carried_by, item_fields, fields_of};
ghost use Rattle.bm_msg.specs.Reading.{carries, seen, named_field, log_item, item_parts};

use crate::field::{Field, Fields};
use crate::keys::str_of;
use bm_lines::{Letter, LogName, MOST_NAME_BYTES, Text};
use bm_value::{Items, Num, Value};
use std::alloc::{AllocError, Allocator, Global};

/// What an item tells, by texts that lie in the message.
#[derive(Clone, Copy)]
pub enum ReadItem<'a> {
    Text(Letter, &'a str),
    /// A name, which may be none of a log, and a text.
    Named(&'a str, &'a str),
    Rc(Num),
    /// It is of a kind that this master doesn't read, and is skipped.
    Nothing,
    /// It is of another kind than its name asks for.
    Wrong,
}

fn is_log_name(name: &str) -> bool
    ensures { result ≡ is_log_name name.now }
{
    !name.is_empty() && name.len() <= MOST_NAME_BYTES
}

/// The text of a str, or of an array's first item.
fn text_of<A: Allocator>(value: &Value<A>) -> Option<&str>
    ensures { option_copied result ≡ text_of (tree value.now) }
{
    match value {
        Value::Str(s) => Some(s.as_str()),
        Value::Array(items) => match items.vec.first() {
            Some(first) => str_of(first),
            None => None,
        },
        _ => None,
    }
}

fn lettered<A: Allocator>(letter: Letter, value: &Value<A>) -> ReadItem<'_>
    ensures { seen result ≡ lettered letter (tree value.now) }
{
    match text_of(value) {
        Some(text) => ReadItem::Text(letter, text),
        None => ReadItem::Wrong,
    }
}

/// An item of a named log: the name and the text.
fn log_item<'a, A: Allocator>(name: &'a Value<A>, value: &'a Value<A>) -> ReadItem<'a>
    ensures { seen result ≡ log_item (tree name.now) (tree value.now) }
{
    let Some(name) = str_of(name) else {
        return ReadItem::Wrong;
    };
    match text_of(value) {
        Some(text) => ReadItem::Named(name, text),
        None => ReadItem::Wrong,
    }
}

fn named<A: Allocator>(value: &Value<A>) -> ReadItem<'_>
    ensures { seen result ≡ named (tree value.now) }
{
    let Value::Array(items) = value else {
        return ReadItem::Wrong;
    };
    match items.vec.as_slice() {
        [name, value, ..] => log_item(name, value),
        _ => ReadItem::Wrong,
    }
}

fn carried_by<'a, A: Allocator>(name: &str, value: &'a Value<A>) -> ReadItem<'a>
    ensures { seen result ≡ carried_by name.now (tree value.now) }
{
    match name {
        "stdout" => lettered(Letter::O, value),
        "stderr" => lettered(Letter::E, value),
        "header" => lettered(Letter::H, value),
        "log" => named(value),
        "rc" => match value {
            Value::Int(n) => ReadItem::Rc(*n),
            _ => ReadItem::Nothing,
        },
        _ => ReadItem::Nothing,
    }
}

/// An item of an update: its name and value.
fn item_parts<'a, A: Allocator>(name: &Value<A>, value: &'a Value<A>) -> ReadItem<'a>
    ensures { seen result ≡ item_parts (tree name.now) (tree value.now) }
{
    match str_of(name) {
        Some(name) => carried_by(name, value),
        None => ReadItem::Wrong,
    }
}

fn seen_in<A: Allocator>(item: &Value<A>) -> ReadItem<'_>
    ensures { seen result ≡ item_fields (tree item.now) }
{
    let Value::Array(parts) = item else {
        return ReadItem::Wrong;
    };
    let parts = parts.vec.as_slice();
    if parts.len() != 2 {
        return ReadItem::Wrong;
    }
    item_parts(&parts[0], &parts[1])
}

/// Whether an item is of another kind than its name asks for.
fn is_wrong<A: Allocator>(item: &Value<A>) -> bool
    ensures { result ≡ is_none (item_fields (tree item.now)) }
{
    match seen_in(item) {
        ReadItem::Named(name, _) => !is_log_name(name),
        ReadItem::Text(..) | ReadItem::Rc(_) | ReadItem::Nothing => false,
        ReadItem::Wrong => true,
    }
}

/// Whether one of the items is of another kind than its name asks for.
fn has_wrong<A: Allocator>(parts: &[Value<A>]) -> bool
    ensures { result ≡ is_none (fields_of (trees_of (map tree parts.now))) }
{
    for part in parts {
        if is_wrong(part) {
            return true;
        }
    }
    false
}

/// The item of a named log, with texts of its own.
fn own_named(alloc: Global, name: &str, text: &str) -> Result<Field, AllocError>
    requires { IsSome (named_field name.now text.now) }
    ensures { IfOk result (λ f. Some (f ∷ []) ≡ named_field name.now text.now) }
{
    match LogName::new(alloc, name)? {
        Some(name) => Ok(Field::Named(name, Text::from_str(alloc, text)?)),
        None => unreachable!("a name of a log"),
    }
}

/// What an item carries, with texts of its own.
fn own(alloc: Global, item: ReadItem) -> Result<Option<Field>, AllocError>
    requires { IsSome (seen item) }
    ensures { IfOk result (λ f. carries f ≡ seen item.entry) }
{
    match item {
        ReadItem::Text(letter, text) => Ok(Some(Field::Text(letter, Text::from_str(alloc, text)?))),
        ReadItem::Named(name, text) => Ok(Some(own_named(alloc, name, text)?)),
        ReadItem::Rc(code) => Ok(Some(Field::Rc(code))),
        ReadItem::Nothing => Ok(None),
        ReadItem::Wrong => unreachable!("of the kind that its name asks for"),
    }
}

/// What the items carry, with texts of its own.
fn own_all<A: Allocator>(alloc: Global, parts: &[Value<A>]) -> Result<Fields, AllocError>
    requires { IsSome (fields_of (trees_of (map tree parts.now))) }
    ensures { IfOk result (λ f. Some f ≡ fields_of (trees_of (map tree parts.now))) }
{
    let mut fields = Vec::with_capacity(alloc, parts.len())?;
    for part in parts {
        if let Some(field) = own(alloc, seen_in(part))? {
            fields.push(field)?;
        }
    }
    Ok(Fields::from_vec(fields))
}

/// What the items of an update carry, or None where one of them is of another kind. All are looked
/// at before the first is copied, so None is told whatever memory there is.
pub fn fields<A: Allocator>(alloc: Global, items: &Items<A>) -> Result<Option<Fields>, AllocError>
    ensures found { IfOk result (λ f. f ≡ fields_of (items_tree items.now)) }
    ensures told { OnErr result (IsSome (fields_of (items_tree items.now))) }
{
    let parts = items.vec.as_slice();
    if has_wrong(parts) {
        return Ok(None);
    }
    Ok(Some(own_all(alloc, parts)?))
}

/// What the item of an update that has just one tells.
pub fn only_item<A: Allocator>(items: &Items<A>) -> Option<ReadItem<'_>>
    ensures some { IfSome result (λ s. seen s ≡ fields_of (items_tree items.now)) }
    ensures none { IfNone result ((only : Tree) → ¬ (items_tree items.now ≡ item only none)) }
{
    let parts = items.vec.as_slice();
    if parts.len() != 1 {
        return None;
    }
    Some(seen_in(&parts[0]))
}
