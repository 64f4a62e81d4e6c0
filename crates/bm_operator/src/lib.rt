//! What a build master's operator writes, and what the operator reads.
//!
//! Written: the line `cancel I` ([`read_cancel`]) and the words of a latent worker's program
//! ([`place_master`]). Read: standard output ([`OutputLine`]), standard error ([`Remark`], with its
//! reasons, [`StepEvent`] and [`LogId`]) and the exit status. [`RateLimit`] says how many lines a
//! second are let through, and [`RefusalLimit`] which refused connections are told one by one.
//! [`WaitNotice`] says when it is told that something waits.
//!
//! Promised: each text, byte for byte, and each remark's object of JSON with the fields of its
//! line. No name ends a line or moves a cursor (`one_line`). A body could still want memory.
//! `Remark::write` and `OutputLine::write` have no clause: a body could write another line there,
//! and only tests would see it.
#![tactic(auto)]

mod build_parts;
mod cancel;
mod exit;
mod field;
mod log_id;
mod names;
mod output_line;
mod program_words;
mod rate_limit;
mod reasons;
mod refusal_limit;
mod remark;
mod remark_parts;
mod remark_told;
mod step_at;
mod step_event;
mod wait_notice;
mod worker_parts;

pub use cancel::read_cancel;
pub use exit::{REFUSED, status};
pub use log_id::LogId;
pub use names::one_line;
pub use output_line::OutputLine;
pub use program_words::place_master;
pub use rate_limit::RateLimit;
pub use reasons::{LoginRefusal, LossCause, ProgramRefusal, StartRefusal, StepLimit};
pub use refusal_limit::RefusalLimit;
pub use remark::Remark;
pub use step_at::StepAt;
pub use step_event::StepEvent;
pub use wait_notice::WaitNotice;
