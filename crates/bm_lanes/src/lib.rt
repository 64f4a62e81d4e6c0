//! The lanes of a build master as a whole: opened, dealt to those who own their ends, and settled.
//!
//! [`open_all`] opens a lane for each worker, [`deal`] gives each end to its owner, and
//! [`settle_all`] closes the lanes once every end is back. Nothing here knows threads or
//! processes, so its checks are quicker than those of the threads' crate.
//!
//! Promised: how many viewers a lane is opened with, and who has which of its ends, in the lanes'
//! order. A settled lane's logs, and what is told of it, are those of all that was heard.
//!
//! `deal` says of writers' ends only how many there are, since they lie under locks. A body could
//! still give one the place of another.
#![tactic(auto)]

mod all_ends;
mod config_lists;
mod dealt_lanes;
mod opening;

pub use all_ends::{AllEnds, LaneTotals, SettleError, settle_all, settle_lane};
pub use config_lists::{maxima_of, slots_of, users_of};
pub use dealt_lanes::{DealtLanes, deal};
pub use opening::open_all;
