//! The coordinator of a master: the thread that drives the machine of `bm_master`, and the threads
//! of builds below it.
//!
//! [`coordinate`] is all of its work. `coordinator.rt` asks the machine what is to be done, and
//! `effects.rt` does it. `hearing.rt` hands in events, and `coordinator_end.rt` has what comes once
//! all builds are over. `build_thread.rt` runs a build. [`CoordinatorShared`] is what other threads
//! have of it.
//!
//! Promised: the machine hears of each event what `HearsOf` says, and in answer to each effect what
//! `IsAnswered` says. The coordinator goes on until the machine's flow says that it leaves. At the
//! end no worker's program has a process. A build's thread tells of the step that was reached.
//!
//! A body could still drop an event, or do another thing than an effect says where that is a signal
//! or a remark. What threads have of each other is behind channels, and only tested.
#![tactic(auto)]

mod build_thread;
mod coordinator;
mod coordinator_end;
mod effects;
mod events;
mod hearing;
mod host;
mod lines_ahead;
mod shared;
mod tick_wait;

pub use coordinator::{Coordinator, coordinate, write_line};
pub use events::{EventReceiver, EventSender, MasterEvent, open_events};
pub use host::MasterHost;
pub use shared::CoordinatorShared;
