//! A build master: its threads, from the first to the last. [`serve`] is all of it.
//!
//! `setup.rt` makes what all threads share and what each of them owns. `threads.rt` starts each and
//! joins it: `bm_lane_threads` has those of the lanes, and `bm_coordinator` the one that drives the
//! machine of `bm_master`. `ending.rt` settles the lanes.
//!
//! Promised: the exit status is that of `bm_operator` for how the builds ended and whether anything
//! failed. A build runs on its own worker's lane. Everything here is safe, and may wait.
//!
//! The coordinator begins with the configuration's builds, in their order. What a line of standard
//! input asks for has a clause. So has when the web ends.
//!
//! A body could still end a thread too early, or drop an event. The threads' work is put together
//! here, and only tested. So is why a master could not begin.
#![tactic(auto)]

mod begin_fault;
mod ending;
mod input;
mod serving;
mod setup;
mod threads;
mod waiting_stream;
mod web;

pub use begin_fault::BeginFault;
pub use bm_coordinator::MasterHost;
pub use serving::serve;
