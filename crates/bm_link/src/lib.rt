//! The ends of a WebSocket between a build master and a worker. Both stand here, so a worker's
//! program stands on the crates of lanes too. Frames, arena and faults would else want a third
//! crate.
//!
//! A master's link reads one message a turn, gives its event to the reader's end of a lane, and
//! writes the answer. A worker's link gives the message to the worker's core, and writes the
//! response. A [`ResumeState`] keeps what the next link needs to resume a session, and to send its
//! orders without an answer again.
//!
//! Promised: what each call sends, takes and keeps, and the causes of `BadMessage`, `BadLogin`,
//! `Closed`, `Full` and `Lane` after the handshake. A body could still tell `Stream`, `Mem` or
//! `Arena` without cause, or be always quiet: their causes are the ported crates' word. It could
//! fail each start and cut its lane. Tests refuse these bodies (`link_tests`).
//!
//! Tests also show which bytes of a handshake are refused, and that an answer is one write. A
//! close frame always turns `closed` true, and is answered.
#![tactic(auto)]

mod asks;
mod attaching;
mod control;
mod credentials;
mod ending;
mod fault;
mod frames;
mod greeting;
mod incoming;
pub mod laws;
mod limits;
mod login;
mod master;
mod orders;
mod reading;
mod received;
mod requests;
mod resume_state;
mod socket;
mod telling;
mod texts;
mod turn;
mod user;
mod worker;
mod writing;

pub use asks::Ask;
pub use attaching::Attached;
pub use fault::LinkFault;
pub use master::MasterLink;
pub use resume_state::ResumeState;
pub use texts::are_short;
pub use turn::Turn;
pub use user::User;
pub use worker::WorkerLink;
