//! The keys that are read of each table of a configuration.

ghost use Rattle.std.specs.Prelude.{◌≡◌, IfOk, None};
ghost use Rattle.std.specs.List.{list_any};
ghost use Rattle.bm_config.specs.Unknown.{edits, is_known, keys_of, nearest};

use crate::keys::Key;
use std::alloc::{AllocError, Global};
use strsim::levenshtein;

/// A kind of table.
#[derive(Clone, Copy)]
pub(crate) enum Section {
    /// The whole text.
    Whole,
    OfWorker,
    OfLock,
    OfBuild,
    /// A lock that a build holds.
    OfUse,
    OfStep,
}

impl Section {
    /// The keys that are read of it.
    pub(crate) fn keys(self) -> &'static [Key]
        ensures { result.now ≡ keys_of self }
    {
        match self {
            Section::Whole => &[
                Key::Listen,
                Key::Web,
                Key::Address,
                Key::Capacity,
                Key::Writers,
                Key::Remarks,
                Key::Worker,
                Key::Lock,
                Key::Build,
            ],
            Section::OfWorker => &[
                Key::Name,
                Key::Password,
                Key::Slots,
                Key::Latent,
                Key::IdleTicks,
                Key::ResumeTicks,
            ],
            Section::OfLock => &[Key::Name, Key::Max],
            Section::OfBuild => &[Key::Worker, Key::Locks, Key::Step],
            Section::OfUse => &[Key::Name, Key::Mode],
            Section::OfStep => &[
                Key::Name,
                Key::Command,
                Key::HaltOnFailure,
                Key::FlunkOnFailure,
                Key::AlwaysRun,
                Key::MaxBytes,
                Key::TimeoutTicks,
                Key::SilentTicks,
            ],
        }
    }
}

/// Whether one of these keys has the name.
pub(crate) fn is_known(known: &[Key], name: &str) -> bool
    ensures { result ≡ is_known known.now name.now }
{
    known.iter().any(|key| key.name() == name)
}

/// The one of these keys that is meant by a name. It is the first with the fewest edits, where they
/// are of at most a third of the name's bytes. A bound of two edits would find nothing for
/// `halt_on_failure`, and a larger one would find a key for each short name.
pub(crate) fn nearest(alloc: Global, name: &str, known: &[Key]) -> Result<Option<Key>, AllocError>
    ensures { IfOk result (λ key. key ≡ nearest name.now known.now) }
{
    let mut bound = name.len() / 3 + 1;
    let mut best = None;
    for key in known {
        let edits = edits(alloc, name, *key)?;
        if edits < bound {
            bound = edits;
            best = Some(*key);
        }
    }
    Ok(best)
}

// How many edits lead from the name to the key's.
fn edits(alloc: Global, name: &str, key: Key) -> Result<usize, AllocError>
    ensures { IfOk result (λ count. count ≡ edits name.now key) }
{
    levenshtein(alloc, name, key.name())
}
