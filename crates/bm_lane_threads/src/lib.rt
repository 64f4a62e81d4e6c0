//! The threads of a master that serve lanes: an actor for each, the pool that drains them, and the
//! acceptor of workers' connections.
//!
//! `lane_threads.rt` starts and ends them. `acceptor.rt` has a connection up to its login, and
//! `sockets.rt` what the acceptor waits for. [`LaneThreadsShared`] is what they share.
//!
//! Promised: a lane's actor has the mailbox of its own lane. Lanes count as started only where each
//! has its actor, and the pool and the acceptor are there. A pool that wasn't there did no work.
//! How long the acceptor waits, and which connection is told as late, have a clause.
//!
//! A body could still drop a connection, or never come back. What threads and sockets do is only
//! tested.
#![tactic(auto)]

mod acceptor;
mod lane_threads;
mod shared;
mod sockets;

pub use lane_threads::{LaneThreads, start_lanes};
pub use shared::LaneThreadsShared;
pub use sockets::{AcceptorWaker, SocketEvents, open_sockets};
