//! A worker's session: its core, its outbox and the link to its master, in one value. It knows no
//! processes, threads or clocks.
//!
//! Promised: what the outbox has first is numbered by the core and handed to the link in the same
//! call, in order. The core keeps it until its answer comes. A new connection is handed what has
//! no answer yet, under its own numbers, before anything new. A lost link costs neither the core
//! nor the outbox anything. Where the answer to a login was read, the session has begun by it or
//! goes on, in the same call.
//!
//! A body could still wait for ever between two calls, or call nothing: that the session is driven
//! on is up to its owner. What a socket does with the bytes that it is handed is the system's.
#![tactic(auto)]

mod laws;
mod sending;
mod session_fault;
mod worker_session;

pub use laws::sent_requests_are_the_stream;
pub use session_fault::SessionFault;
pub use worker_session::WorkerSession;
