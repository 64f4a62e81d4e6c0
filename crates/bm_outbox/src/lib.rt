//! What a worker tells its master of its commands, and in which order: the texts of their pipes,
//! joined, and their ends. Nothing here knows sockets, processes or threads.
//!
//! So contracts and wrong bodies reach what is decided. When the program hears, looks and sends is
//! a loop of `bm_worker_threads`, which tests show.
//!
//! Promised: what waits is told in order, under the next numbers. What is said of a pipe is its
//! text, in order, with the same lines. An exit code is told only by an [`ExitCode`]. Only
//! [`Pipes`] give it, once they have noted the ends of both pipes of its command, or gave them up
//! after a minute. A body could still want memory. A driver could end a pipe that it has not read
//! to its end, or count a minute or a standstill wrongly.
#![tactic(auto)]

mod command_end;
mod ending;
mod joining;
mod keepalive;
mod outbox;
mod outbox_entry;
mod pipe_texts;
mod pipes;
mod progress;
mod said;
mod session;
mod start_fault;
mod stop_lines;
mod stopping;
mod stretch;
mod tries;
mod words;

pub use command_end::CommandEnd;
pub use ending::Ending;
pub use keepalive::{Keepalive, after_silence};
pub use outbox::Outbox;
pub use outbox_entry::OutboxEntry;
pub use pipe_texts::{PipeEnd, PipeTexts};
pub use pipes::{ExitCode, Pipes, held_ms};
pub use progress::Progress;
pub use said::{MOST_BYTES, Said};
pub use session::begin;
pub use start_fault::StartFault;
pub use stopping::{Leftover, StopCause, Sweep, stop_end, stopped_ms};
pub use tries::{ConnectFault, Tries};
