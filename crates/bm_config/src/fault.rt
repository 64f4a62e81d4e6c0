//! Why a text is no configuration.

ghost use Rattle.std.specs.Prelude.{◌≡◌};
ghost use Rattle.bm_config.specs.declared.fault.Fault.TheVariants.{At, Mem};
ghost use Rattle.bm_config.specs.Places.{bare};
ghost use Rattle.bm_config.specs.Rows.{fault_under};

use crate::keys::Key;
use crate::place::Spot;
use std::alloc::{AllocError, AllocFailed};
use thiserror::Error;

/// Why a text is no configuration.
#[derive(Debug, PartialEq, Eq, Drop, Error)]
pub enum ConfigFault {
    /// The text is no TOML.
    #[error("syntax")]
    Syntax,
    /// The value at this key, by the last part of its name, is missing where it is needed, or the
    /// key doesn't take it.
    #[error("{0}")]
    Key(String),
    /// Memory is wanting: nothing is said of the text.
    #[error("out of memory")]
    Mem,
}

/// Why a text is no configuration, and where.
#[derive(Clone, Copy, Debug, Error)]
pub enum ConfigMistake {
    /// The text is no TOML, as its parser says.
    #[error("syntax")]
    Syntax(toml::de::Error),
    /// The first key at fault.
    #[error("a key is at fault")]
    At(Spot),
    /// Memory is wanting: nothing is said of the text.
    #[error("out of memory")]
    Mem,
}

/// Why a part of a table isn't taken.
#[derive(Clone, Copy, Debug, PartialEq, Eq, Error)]
pub enum Fault {
    /// The value of the key at this spot, as the part sees it, is at fault.
    #[error("a key is at fault")]
    At(Spot),
    /// Memory is wanting.
    #[error("out of memory")]
    Mem,
}

impl Fault {
    /// The same fault, seen from outside of a row that it is in.
    pub(crate) fn under(self, section: Key, number: usize) -> Fault
        ensures { result ≡ fault_under section number self }
    {
        match self {
            Fault::At(spot) => Fault::At(Spot {
                key: spot.key,
                place: spot.place.under(section, number),
            }),
            Fault::Mem => Fault::Mem,
        }
    }
}

impl From<Key> for Fault {
    ghost from_gives = { λ key fault. fault ≡ At (bare key) };

    fn from(key: Key) -> Fault {
        Fault::At(Spot::bare(key))
    }
}

impl From<AllocError> for Fault {
    ghost from_gives = { λ _ fault. fault ≡ Mem };

    fn from(_e: AllocError) -> Fault {
        Fault::Mem
    }
}

impl<T: Drop> From<AllocFailed<T>> for Fault {
    ghost from_gives = { λ _ fault. fault ≡ Mem };

    fn from(_e: AllocFailed<T>) -> Fault {
        Fault::Mem
    }
}
