//! The lines that an update carries.

ghost use Rattle.std.specs.Prelude.{◌≡◌, ◌<◌, [], ◌∷◌, ◌++◌, true, OnOk, OnErr, bytes_eq, IfOk, length};
ghost use Rattle.std.specs.Option.{option_copied, option_to_list};
ghost use Rattle.std.specs.List.{position_or_len};
ghost use Rattle.bm_lines.specs.Lines.{lines_of};
ghost use Rattle.bm_lines.specs.Names.{Name};
ghost use Rattle.bm_lines.specs.OneOrMany.{items_of};
ghost use Rattle.bm_lines.specs.LineBatches.{are_distinct, names_of, with_item, block_under, blocks_under};
ghost use Rattle.bm_lines.specs.Places.{HasPlaces};

use crate::block::{Block, cut};
use crate::letter::Letter;
use crate::log_name::LogName;
use crate::name_table::NameTable;
use crate::one_or_many::OneOrMany;
use crate::text::Text;
use std::alloc::{AllocError, Global};
use std::marker::Model;

/// The lines that one update carries for one log.
#[derive(Drop)]
pub struct LogLines {
    pub name: LogName,
    pub block: Block,
}

impl LogLines {
    /// An equal part, whose block shares its lines with that of this one.
    fn copy(&self) -> Result<LogLines, AllocError>
        ensures { IfOk result (λ p. p ≡ self.now) }
    {
        Ok(LogLines {
            name: self.name.copy()?,
            block: self.block.copy()?,
        })
    }
}

/// The lines of an update: a part for each name, in the order of their first items.
#[derive(Drop)]
pub struct LineBatch {
    alloc: Global,
    parts: OneOrMany<LogLines>,
}

impl Model for LineBatch {
    ghost use Rattle.std.specs.Prelude.{List, true, ◌≡◌};
    ghost use Rattle.bm_lines.specs.declared.line_batch.LogLines.{LogLines};
    ghost use Rattle.bm_lines.specs.OneOrMany.{items_of};
    ghost use Rattle.bm_lines.specs.LineBatches.{are_distinct};

    ghost Value = { List LogLines };

    ghost view = { λ p. items_of p.parts };

    ghost invariant = { λ p. are_distinct (items_of p.parts) ≡ true };
}

impl LineBatch {
    /// No part.
    pub fn new(alloc: Global) -> LineBatch
        ensures { result ≡ [] }
    {
        LineBatch {
            alloc,
            parts: OneOrMany::new(alloc),
        }
    }

    /// The lines of a text under a name.
    pub fn of_str(
        alloc: Global,
        name: LogName,
        letter: Letter,
        text: &str,
    ) -> Result<LineBatch, AllocError>
        ensures { IfOk result (λ p. p ≡ with_item name (lines_of letter text.now) []) }
    {
        let block = cut(alloc, letter, text)?;
        Ok(LineBatch {
            alloc,
            parts: OneOrMany::One(LogLines { name, block }),
        })
    }

    /// The parts, whose names are distinct.
    pub fn parts(&self) -> &[LogLines]
        ensures parts { result.now ≡ self.now }
        ensures distinct { are_distinct self.now ≡ true }
    {
        self.parts.as_slice()
    }

    /// The block of the part with this name. No other part has the name.
    pub fn of(&self, name: &str) -> Option<&Block>
        ensures found { option_copied result ≡ block_under name.now self.now }
        ensures only { option_to_list (option_copied result) ≡ blocks_under name.now self.now }
    {
        let parts = self.parts.as_slice();
        let i = place(parts, name);
        if i < parts.len() {
            Some(&parts[i].block)
        } else {
            None
        }
    }

    /// Appends the lines of a text to the part with this name, or to a new part at the end.
    /// It only passes on, since two views of a value meet here: the parts, and the batch of them.
    pub fn add(&mut self, name: &LogName, letter: Letter, text: &str) -> Result<(), AllocError>
        ensures ok { OnOk result (self.new
            ≡ with_item name.now (lines_of letter text.now) self.old) }
        ensures err { OnErr result (self.new ≡ self.old) }
    {
        put(self.alloc, &mut self.parts, name, letter, text)
    }

    /// Appends the lines of a text, where a table tells the places of the parts' names. The one
    /// that comes back tells those of the new parts.
    pub(crate) fn add_by_table(
        &mut self,
        places: NameTable,
        name: &LogName,
        letter: Letter,
        text: &str,
    ) -> Result<NameTable, AllocError>
        requires { HasPlaces places (names_of self.old) }
        ensures ok { OnOk result (self.new
            ≡ with_item name.now (lines_of letter text.now) self.old) }
        ensures places { IfOk result
            (λ t. HasPlaces t (names_of (with_item name.now (lines_of letter text.now) self.old))) }
        ensures err { OnErr result (self.new ≡ self.old) }
    {
        put_by_table(self.alloc, &mut self.parts, places, name, letter, text)
    }

    /// An equal batch, whose blocks share their lines with those of this one.
    pub fn copy(&self) -> Result<LineBatch, AllocError>
        ensures { IfOk result (λ p. p ≡ self.now) }
    {
        let parts = match &self.parts {
            OneOrMany::One(part) => OneOrMany::One(part.copy()?),
            OneOrMany::Many(parts) => OneOrMany::Many(copies(self.alloc, parts.as_slice())?),
        };
        Ok(LineBatch {
            alloc: self.alloc,
            parts,
        })
    }
}

/// Appends the lines of a text to the part with this name, or to a new part at the end.
fn put(
    alloc: Global,
    parts: &mut OneOrMany<LogLines>,
    name: &LogName,
    letter: Letter,
    text: &str,
) -> Result<(), AllocError>
    ensures ok { OnOk result (items_of parts.new
        ≡ with_item name.now (lines_of letter text.now) (items_of parts.old)) }
    ensures err { OnErr result (items_of parts.new ≡ items_of parts.old) }
{
    let slice = parts.as_slice();
    let i = place(slice, name.as_str());
    if i < slice.len() {
        return add_at(parts, i, letter, text);
    }
    push(alloc, parts, name, letter, text)
}

/// Appends a new part with the lines of a text.
fn push(
    alloc: Global,
    parts: &mut OneOrMany<LogLines>,
    name: &LogName,
    letter: Letter,
    text: &str,
) -> Result<(), AllocError>
    ensures ok { OnOk result (items_of parts.new
        ≡ items_of parts.old ++ record { name = name.now; block = lines_of letter text.now } ∷ []) }
    ensures err { OnErr result (items_of parts.new ≡ items_of parts.old) }
{
    let block = cut(alloc, letter, text)?;
    let name = name.copy()?;
    parts.push(alloc, LogLines { name, block })
}

/// Appends the lines of a text to the part with this name, or to a new part at the end. The table
/// that is given tells the places of the old parts, the one that comes back those of the new.
fn put_by_table(
    alloc: Global,
    parts: &mut OneOrMany<LogLines>,
    places: NameTable,
    name: &LogName,
    letter: Letter,
    text: &str,
) -> Result<NameTable, AllocError>
    requires { HasPlaces places (names_of (items_of parts.old)) }
    ensures ok { OnOk result (items_of parts.new
        ≡ with_item name.now (lines_of letter text.now) (items_of parts.old)) }
    ensures places { IfOk result
        (λ t. HasPlaces t
        (names_of (with_item name.now (lines_of letter text.now) (items_of parts.old)))) }
    ensures err { OnErr result (items_of parts.new ≡ items_of parts.old) }
{
    if let Some(i) = places.place(name.as_str()) {
        add_at(parts, i, letter, text)?;
        return Ok(places);
    }
    let mut places = places;
    places.add(alloc, name.as_str(), parts.as_slice().len())?;
    push(alloc, parts, name, letter, text)?;
    Ok(places)
}

/// Appends the lines of a text to the part at a place.
fn add_at(
    parts: &mut OneOrMany<LogLines>,
    i: usize,
    letter: Letter,
    text: &str,
) -> Result<(), AllocError>
    requires { i < length (items_of parts.old) }
    ensures ok { (name : Name)
        → i ≡ position_or_len (λ p. bytes_eq p.name name) (items_of parts.old)
        → OnOk result (items_of parts.new
        ≡ with_item name (lines_of letter text.now) (items_of parts.old)) }
    ensures err { OnErr result (items_of parts.new ≡ items_of parts.old) }
{
    match parts {
        OneOrMany::One(part) => part.block.add(letter, text),
        OneOrMany::Many(parts) => {
            let part = &mut parts[i];
            part.block.add(letter, text)
        }
    }
}

/// Equal parts, whose blocks share their lines.
fn copies(alloc: Global, parts: &[LogLines]) -> Result<Vec<LogLines>, AllocError>
    ensures { IfOk result (λ v. v.items ≡ parts.now) }
{
    let mut out = Vec::with_capacity(alloc, parts.len())?;
    for part in parts {
        out.push(part.copy()?)?;
    }
    Ok(out)
}

/// The place of the first part with this name, or the number of parts.
fn place(parts: &[LogLines], name: &str) -> usize
    ensures { result ≡ position_or_len (λ p. bytes_eq p.name name.now) parts.now }
{
    let mut i = 0;
    for part in parts {
        if part.name.is(name) {
            return i;
        }
        i += 1;
    }
    i
}
