//! Books of logs: what a lane's items make of the logs of its commands, and the slices that viewers
//! ask for.
//!
//! Promised: after each item a book has just the logs that the items make, and a slice is the asked
//! one, to the byte. A refused item changes nothing. A body could still want memory.
#![tactic(auto)]

mod book;
mod chunk;
mod command_logs;
mod gather;
pub mod laws;
mod named_log;
mod placed;
mod portion;

pub use book::Book;
pub use chunk::{Chunk, LogState, ViewRefusal};
pub use placed::Placed;
pub use portion::Portion;
