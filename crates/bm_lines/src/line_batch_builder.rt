//! A batch that is put together.

ghost use Rattle.std.specs.Prelude.{◌≡◌, [], OnOk, OnErr, IfOk};
ghost use Rattle.bm_lines.specs.Lines.{lines_of};
ghost use Rattle.bm_lines.specs.LineBatches.{names_of, with_item};
ghost use Rattle.bm_lines.specs.Places.{HasPlaces};

use crate::letter::Letter;
use crate::line_batch::{LineBatch, LogLines};
use crate::log_name::LogName;
use crate::name_table::{FEW_NAMES, NameTable};
use std::alloc::{AllocError, Global};
use std::marker::Model;

/// A batch that is put together, with a table of its names once there are more than a few. The
/// batch itself has none, so that it stays small where it is kept.
#[derive(Drop)]
pub struct LineBatchBuilder {
    alloc: Global,
    batch: LineBatch,
    places: Option<NameTable>,
}

impl Model for LineBatchBuilder {
    ghost use Rattle.std.specs.Prelude.{List};
    ghost use Rattle.bm_lines.specs.declared.line_batch.LogLines.{LogLines};
    ghost use Rattle.bm_lines.specs.LineBatches.{names_of};
    ghost use Rattle.bm_lines.specs.Places.{HasPlacesIfAny};

    ghost Value = { List LogLines };

    ghost view = { λ b. b.batch };

    ghost invariant = { λ b. HasPlacesIfAny b.places (names_of b.batch) };
}

impl LineBatchBuilder {
    /// No part.
    pub fn new(alloc: Global) -> LineBatchBuilder
        ensures { result ≡ [] }
    {
        LineBatchBuilder {
            alloc,
            batch: LineBatch::new(alloc),
            places: None,
        }
    }

    /// Appends the lines of a text to the part with this name, or to a new part at the end.
    pub fn add_text(&mut self, name: &LogName, letter: Letter, text: &str) -> Result<(), AllocError>
        ensures ok { OnOk result (self.new
            ≡ with_item name.now (lines_of letter text.now) self.old) }
        ensures err { OnErr result (self.new ≡ self.old) }
    {
        if self.places.is_none() && self.batch.parts().len() < FEW_NAMES {
            return self.batch.add(name, letter, text);
        }
        self.add_by_table(name, letter, text)
    }

    /// Appends the lines of a text, where a walk over the names would take long.
    ///
    /// After want of memory there is no table; the next call makes it.
    fn add_by_table(&mut self, name: &LogName, letter: Letter, text: &str) -> Result<(), AllocError>
        ensures ok { OnOk result (self.new
            ≡ with_item name.now (lines_of letter text.now) self.old) }
        ensures err { OnErr result (self.new ≡ self.old) }
    {
        let places = match self.places.take() {
            Some(places) => places,
            None => table_of(self.alloc, self.batch.parts())?,
        };
        let places = self.batch.add_by_table(places, name, letter, text)?;
        self.places = Some(places);
        Ok(())
    }

    /// Ends the building: what was added, log for log.
    pub fn into_batch(self) -> LineBatch
        ensures { result ≡ self }
    {
        self.batch
    }
}

/// The places of the parts' names.
fn table_of(alloc: Global, parts: &[LogLines]) -> Result<NameTable, AllocError>
    ensures { IfOk result (λ t. HasPlaces t (names_of parts.now)) }
{
    let mut places = NameTable::new(alloc)?;
    for i in 0..parts.len() {
        places.add(alloc, parts[i].name.as_str(), i)?;
    }
    Ok(places)
}
