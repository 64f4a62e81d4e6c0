//! The session of a lane: the events that it took, in order, and what they mean.
//!
//! An event is taken in two steps. [`Session::ready`] decides, takes all memory that is needed, and
//! gives a [`Plan`]; [`Session::commit`] then can't fail, and [`Session::withdraw`] does nothing.
//!
//! Promised: an event is taken or refused just as the trace before it says. Replies, items, logs
//! and outcomes are those of the trace, and a cut or a giving up takes no memory. A body could
//! still want memory for all else.
#![tactic(auto)]

mod carried;
mod event;
mod item;
pub mod laws;
mod log;
mod open;
mod plan;
mod ranges;
mod refusal;
mod reply;
mod results;
mod run;
mod seen;
mod session;
mod table;
mod table_taking;

pub use event::{Body, Event};
pub use item::Item;
pub use plan::Plan;
pub use refusal::Refusal;
pub use reply::{Reply, Verdict};
pub use results::Results;
pub use run::Ran;
pub use seen::Seen;
pub use session::Session;
