//! Lines of command logs, the names of logs, and the batches of lines that an update carries.
//!
//! A log of type `s` in the Buildbot manual is a list of lines. A letter before each stands for the
//! stream that it came from.
//!
//! Promised: a text is cut at its line ends alone, and a block has just the lines that were added,
//! in order. A batch has each name once, with all of its lines. A body could still want memory, and
//! copy lines where it should share them.
#![tactic(auto)]

mod block;
mod content;
mod letter;
mod line_batch;
mod line_batch_builder;
mod log_name;
mod name_table;
mod one_line;
mod one_or_many;
mod shared;
mod text;

pub use block::{Block, cut};
pub use letter::Letter;
pub use line_batch::{LineBatch, LogLines};
pub use line_batch_builder::LineBatchBuilder;
pub use log_name::{LogName, MOST_NAME_BYTES, STDIO};
pub use name_table::{FEW_NAMES, NameTable};
pub use text::Text;
