//! The places of many names.

ghost use Rattle.std.specs.Prelude.{◌≡◌, List, [], ◌∷◌, ◌++◌, length, IfOk, OnOk, OnErr};
ghost use Rattle.bm_lines.specs.Names.{Name};
ghost use Rattle.bm_lines.specs.Places.{HasPlaces, place_in};

use std::alloc::{AllocError, Global};
use std::collections::BTreeMap;

/// As many names are looked through faster than a table of them is made. Below, a walk finds a name
/// and takes no memory.
pub const FEW_NAMES: usize = 8;

/// The places that names have in a list. A list may have a table beside it once a walk over its
/// names would take long.
#[derive(Drop)]
pub struct NameTable {
    /// In memory of its own, so that a list without a table stays small. An ordered map, since no
    /// choice of names makes that slow, as it could a hash whose seed is known.
    places: Box<BTreeMap<String, usize>>,
}

impl NameTable {
    /// The table of no name.
    pub fn new(alloc: Global) -> Result<NameTable, AllocError>
        ensures { IfOk result (λ t. HasPlaces t []) }
    {
        Ok(NameTable {
            places: Box::new(alloc, BTreeMap::new(alloc))?,
        })
    }

    /// The first place of the name, if it is there.
    pub fn place(&self, name: &str) -> Option<usize>
        ensures { result ≡ place_in self.now name.now }
    {
        self.places.get(name).copied()
    }

    /// Adds a name at the end of the list. One that is there already keeps its first place.
    pub fn add(&mut self, alloc: Global, name: &str, place: usize) -> Result<(), AllocError>
        ensures ok { OnOk result ((names : List Name) → place ≡ length names
            → HasPlaces self.old names → HasPlaces self.new (names ++ name.now ∷ [])) }
        ensures err { OnErr result ((names : List Name) → HasPlaces self.old names
            → HasPlaces self.new names) }
    {
        if self.place(name).is_none() {
            let key = String::from_str(alloc, name)?;
            self.places.insert(key, place)?;
        }
        Ok(())
    }
}
