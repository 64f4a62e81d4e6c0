//! The chunk server over HTTP/1.1: connections are taken in, so many at once, and served until a
//! stop.
//!
//! [`serve`] takes them in and gives what they ask to a [`Handler`]. The one of a master is
//! [`LogService`], which answers by the routes of `bm_http` and a viewer of each lane. A
//! [`PauseSink`] is told where connections wait for want of descriptors or memory.
//!
//! The crate stands apart from `bm_http`, since what stands over `hyper` takes long to check.
//!
//! Promised: a response has the status and the text that the service gives for its request, or it
//! is 503. Before `hyper` adds its own fields it has `content-type` under each status but 503, for
//! JSON. Under 405 it has `allow` too, and no response has another. A request whose field `Host` is
//! no host gets 400 without a field, and no other does without the service. The pieces of a long
//! answer that is told to its end are its text, joined. Where [`LogService::into_viewers`] gives
//! viewers back, they are one of each lane, in the order of the lanes.
//!
//! A body could still close a connection early, serve nobody, or keep no limit: tests show these.
//! They show that no answer waits for an acknowledgement, and that readers of long logs take turns.
//! A client that closes its side gets the whole answer. Inside the crate the service of a
//! connection has clauses.
#![tactic(auto)]

mod admission;
mod connections;
mod handler;
pub mod laws;
mod log_service;
mod page_body;
mod pages;
mod serving;
mod write_deadline;

pub use admission::PauseSink;
pub use handler::{Handler, Served};
pub use log_service::LogService;
pub use serving::{WebLimits, serve};
