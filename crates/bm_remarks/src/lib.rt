//! What a master's operator is told: which remark, of whom, and how often.
//!
//! [`Remarks`] is the thread that writes, so that nobody waits for who reads. [`Teller`] chooses
//! what is told of events, and tells a second's refused connections one by one only up to a bound.
//! [`tell_first`] tells what a configuration has. [`ReportedStep`] and [`RefusedConnection`] are
//! what other threads report.
//!
//! Promised: a remark is the one of its event, about the worker and the build of that number. It
//! stands in the form that the configuration asks for. A refused connection is told or counted.
//!
//! A body could still tell nothing, or tell a remark twice: that a line reaches the writer is
//! behind a channel, and only tested.
#![tactic(auto)]

mod first_remarks;
mod remarks;
mod reports;
mod teller;
mod tellings;

pub use first_remarks::tell_first;
pub use remarks::Remarks;
pub use reports::{RefusedConnection, ReportedStep};
pub use teller::Teller;
pub use tellings::name_at;
