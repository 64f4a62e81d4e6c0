//! A lane for running threads. Its reader's end takes the events of a worker's connection, its
//! writer's end shows their items to viewers, and viewers never wait.
//!
//! An event's item goes through a bounded queue from the reader's end to the writer's. That end
//! publishes the book of all that it showed, and viewers read the published book without a lock.
//!
//! Promised: what viewers see is a beginning of the items of the lane's trace, never less than
//! before. [`settle`] ties all ends to one trace. A body could still be busy though its queue has
//! room by now, want memory, and drain nothing: tests find these.
#![tactic(auto)]

mod blank;
mod book_reader;
mod copy;
mod history;
pub mod laws;
mod mark;
mod pool;
mod published;
mod publisher;
mod questions;
mod reader_end;
mod refusals;
mod relay;
mod settling;
mod viewer;
mod writer_end;
mod yard;

pub use blank::{Blank, Ends, ends_of_all, open};
pub use mark::Mark;
pub use pool::{Gate, Pass, PoolFault, PoolReport, writers};
pub use reader_end::ReaderEnd;
pub use refusals::{HearRefusal, OpenError};
pub use settling::{Settled, same_lane, settle};
pub use viewer::Viewer;
pub use writer_end::{Drained, WriterEnd};
pub use yard::Yard;
