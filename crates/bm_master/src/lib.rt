//! What a build master decides: which builds and programs it starts, which it ends, and what it
//! tells. It knows no thread, no clock and no stream.
//!
//! [`Master`] is one machine over those of its parts. They are the build queue, a [`KnownWorker`]
//! each, the builds that hold their slots, and the flow of the work. What comes is a
//! [`MasterInput`], what is to be done a [`MasterEffect`].
//!
//! Promised: each effect of [`Master::next_effect`] is one that `Follows` allows. So a build is
//! started only as the queue gives it, or as the one whose thread was refused. A program is
//! started, ended or told to shut down only as its worker's machine owes that. A build is told to
//! have ended with the result that it has on the board, or as was noted before. The master reports
//! and leaves only as its flow has it.
//!
//! [`Master::step`] does what `Takes` says. A cancel of a build that runs is kept for its effect. A
//! wait that is over gives no slot back, and nor does a count of events. An event is asked for once
//! the ticks before it are told. What comes of a worker reaches its machine, and the board hears
//! whether it takes builds.
//!
//! A body could still give no effect or give one too late. It could hold or end a build wrongly:
//! `hold`, `finish` and `release_free` promise next to nothing. The simulation shows that none
//! does.
#![tactic(auto)]

mod build_start;
mod held_builds;
mod known_worker;
mod master;
mod master_builds;
mod master_flow;
mod master_looks;
mod master_moves;
mod unstarted_build;
mod values;

pub use build_start::{BuildStart, StartFate};
pub use known_worker::{KnownWorker, OwedActs, WorkerAct};
pub use master::Master;
pub use master_flow::{FlowInput, FlowStep, MasterFlow, NextWait, next_wait};
pub use unstarted_build::UnstartedBuild;
pub use values::{FinishedBuild, MasterEffect, MasterInput, MasterRemark, StartFailure};
