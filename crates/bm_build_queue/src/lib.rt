//! Which builds of a build master run, on which workers, and what comes of them. Nothing here knows
//! threads, sockets or processes.
//!
//! A build is started only on a worker that is ready and has a free slot, and gets a viewer of that
//! worker's lane. Its result is kept once, under its number. It holds its slot until its commands
//! have ended, as a [`HeldBuild`].
//!
//! Promised: [`BuildQueue::next`] starts the first build that can be started, and each call changes
//! what its definition says. A body could still want memory: it could so pass over a build, which
//! `is_short` then tells.
#![tactic(auto)]

mod assignment;
mod build_queue;
mod held_build;
pub mod laws;
mod viewer_pool;

pub use assignment::Assignment;
pub use build_queue::{BuildQueue, Cancelled};
pub use held_build::HeldBuild;
pub use viewer_pool::ViewerPool;
