//! The board of builds: which build runs on which worker, the locks that it holds, its steps and
//! its result. Source: Buildbot manual, "Build Steps", "Interlocks" and "Results".
//!
//! Promised: each call does just what its definition says, and refuses in the order of its
//! definition. No worker runs more builds than it has slots, and no lock is held beyond its
//! maximum. A body could still want memory.
#![tactic(auto)]

mod board;
mod counts;
mod listed;
mod locks;
mod outcomes;
mod plan;
mod refusal;
mod scheduled_build;
mod steps;
mod worker_slots;

pub use board::Board;
pub use listed::{Copied, Listed};
pub use outcomes::Outcomes;
pub use plan::{Build, LockUse, LockUses, Mode, StepPlan, StepPlans, Words};
pub use refusal::BoardRefusal;
pub use scheduled_build::{Phase, Started};
pub use steps::{Next, next_step};
pub use worker_slots::WorkerSlots;
