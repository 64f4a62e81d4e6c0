//! The configuration of a build master: its addresses, workers, locks and builds. It is read from a
//! text in TOML (toml.io, version 1.1), or the first key at fault is told.
//!
//! Of this tree the crate stands over `bm_board` and `bm_lines` alone.
//!
//! Promised: what `read_config` makes is what the text's tree says, and the fault that is told is
//! the first one. A body could still want memory. That a text is the tree that it spells is the
//! word of the crate of TOML.
#![tactic(auto)]

mod builds;
mod config;
mod fault;
mod fields;
mod keys;
mod place;
mod reading;
mod rows;
mod section;
mod unknown;
mod words;
mod workers;

pub use config::{Config, LockConfig, RemarkForm, WorkerConfig};
pub use fault::{ConfigFault, ConfigMistake};
pub use keys::Key;
pub use place::{ArrayRow, Place, Spot};
pub use reading::{read_config, read_config_or_why};
pub use unknown::{UnknownKey, unknown_keys};
