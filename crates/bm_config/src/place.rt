//! Where in a configuration a key stands.

ghost use Rattle.std.specs.Prelude.{◌≡◌, ◌++◌, IfOk, codes, string_bytes};
ghost use Rattle.bm_config.specs.Places.{bare, expected_of, place_text, row_text, section_of, spot_text, top, under, within};

use crate::keys::Key;
use std::alloc::{AllocError, Global};

/// A row of an array of tables, by the array's key and the row's number from 0.
#[derive(Clone, Copy, Debug, PartialEq, Eq)]
pub struct ArrayRow {
    pub key: Key,
    pub number: usize,
}

/// The table that a key stands in: that of the whole text, or that of a row, or that of a row
/// inside it.
#[derive(Clone, Copy, Debug, PartialEq, Eq)]
pub struct Place {
    pub outer: Option<ArrayRow>,
    pub inner: Option<ArrayRow>,
}

impl Place {
    /// The table of the whole text.
    pub fn top() -> Place
        ensures { result ≡ top }
    {
        Place {
            outer: None,
            inner: None,
        }
    }

    /// The same place, seen from outside of a row that it is in.
    pub(crate) fn under(self, key: Key, number: usize) -> Place
        ensures { result ≡ under key number self }
    {
        Place {
            outer: Some(ArrayRow { key, number }),
            inner: self.outer,
        }
    }

    /// A row of an array that stands in this place.
    pub(crate) fn within(self, key: Key, number: usize) -> Place
        ensures { result ≡ within key number self }
    {
        let row = Some(ArrayRow { key, number });
        match self.outer {
            None => Place {
                outer: row,
                inner: None,
            },
            Some(outer) => Place {
                outer: Some(outer),
                inner: row,
            },
        }
    }

    /// Its text, as `build 3, step 1`; of the whole text's table it is `configuration`.
    pub fn text(&self, alloc: Global) -> Result<String, AllocError>
        ensures { IfOk result (λ s. string_bytes s ≡ place_text self.now) }
    {
        match (self.outer, self.inner) {
            (None, _) => String::from_str(alloc, "configuration"),
            (Some(outer), None) => outer.text(alloc),
            (Some(outer), Some(inner)) => both(alloc, outer, inner),
        }
    }
}

impl ArrayRow {
    // Its text, as `build 3`.
    fn text(&self, alloc: Global) -> Result<String, AllocError>
        ensures { IfOk result (λ s. string_bytes s ≡ row_text self.now) }
    {
        let (name, number) = (self.key.name(), self.number);
        format!(in alloc; "{name} {number}")
    }
}

// The text of a row inside another.
fn both(alloc: Global, outer: ArrayRow, inner: ArrayRow) -> Result<String, AllocError>
    ensures { IfOk result (λ s. string_bytes s ≡ row_text outer ++ (codes ", " ++ row_text inner)) }
{
    let outer = outer.text(alloc)?;
    let inner = inner.text(alloc)?;
    format!(in alloc; "{outer}, {inner}")
}

/// A key, and where it stands.
/// It is told by a text, in an object of JSON too. Numbers would take a member for each kind of
/// row.
#[derive(Clone, Copy, Debug, PartialEq, Eq)]
pub struct Spot {
    pub key: Key,
    pub place: Place,
}

impl Spot {
    /// The key in the table of the whole text.
    pub(crate) fn bare(key: Key) -> Spot
        ensures { result ≡ bare key }
    {
        Spot {
            key,
            place: Place::top(),
        }
    }

    /// What the key wants: `build 3, step 1: command: expected VALUE`.
    pub fn text(&self, alloc: Global) -> Result<String, AllocError>
        ensures { IfOk result (λ s. string_bytes s ≡ spot_text self.now) }
    {
        let place = self.place.text(alloc)?;
        let (name, expected) = (self.key.name(), self.expected());
        format!(in alloc; "{place}: {name}: expected {expected}")
    }

    /// The values that the key takes there.
    fn expected(&self) -> &'static str
        ensures { result.now ≡ expected_of self.now }
    {
        match (self.key, self.section()) {
            (Key::Listen, _) => "an IP address and a port, as \"127.0.0.1:9989\"",
            (Key::Web, _) => "an IP address and a port, as \"127.0.0.1:8010\"",
            (Key::Address, _) => "a text that isn't empty, HOST:PORT",
            (Key::Capacity, _) => "a number from 1 to 65536",
            (Key::Writers, _) => "a number from 1 to 64",
            (Key::Remarks, _) => "\"text\" or \"json\"",
            (Key::Worker, None) => "1 to 64 tables [[worker]]",
            (Key::Worker, _) => "the name of a worker",
            (Key::Name, Some(Key::Worker)) =>
                "a text that isn't empty and that no other worker has",
            (Key::Name, Some(Key::Lock)) => "a text that no other lock has",
            (Key::Name, Some(Key::Locks)) => "the name of a lock, each once in a build",
            (Key::Name, _) => "a text",
            (Key::Password, _) => "a text",
            (Key::Slots, _) => "a number from 1 to 4",
            (Key::Latent, _) => "an array of texts, the program first",
            (Key::IdleTicks, _) => "a number from 1 to 2147483647",
            (Key::ResumeTicks, _) => "a number from 0 to 2147483647",
            (Key::Lock, _) => "tables [[lock]]",
            (Key::Max, _) => "a number from 1 to 2147483647",
            (Key::Build, _) => "at most 10000 tables [[build]]",
            (Key::Locks, _) => "tables [[build.locks]]",
            (Key::Mode, _) => "\"counting\" or \"exclusive\"",
            (Key::Step, _) => "tables [[build.step]]",
            (Key::Command, _) => "an array of 1 to 10000 texts, of at most 900000 bytes together",
            (Key::HaltOnFailure, _) => "true or false",
            (Key::FlunkOnFailure, _) => "true or false",
            (Key::AlwaysRun, _) => "true or false",
            (Key::MaxBytes, _) => "a number from 0 to 4294967295",
            (Key::TimeoutTicks, _) => "a number from 0 to 2147483647",
            (Key::SilentTicks, _) => "a number from 0 to 2147483647",
        }
    }

    // The key of the array that it stands in, or None in the table of the whole text.
    fn section(&self) -> Option<Key>
        ensures { result ≡ section_of self.now.place }
    {
        match (self.place.outer, self.place.inner) {
            (_, Some(inner)) => Some(inner.key),
            (Some(outer), None) => Some(outer.key),
            (None, None) => None,
        }
    }
}
