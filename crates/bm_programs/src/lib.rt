//! The programs that start workers on demand, and the processes that they run as.
//!
//! [`workers_of`] is what is known of a configuration's workers before anything was heard of them,
//! with the program of each that has one. [`WorkerPrograms`] starts, asks and kills them. When that
//! is done the worker's machine decides, not this crate.
//!
//! Promised: what is done to the program of a worker changes no other one. A start gives it a
//! process, and one that fails changes nothing and says why. An end is told once. A program has the
//! words of its worker, with the master's address in them.
//!
//! A body could still ask a process by another signal, or by another number. The tests show that
//! none does.
#![tactic(auto)]

mod programs;
mod worker_process;

pub use programs::{WorkerList, WorkerPrograms, workers_of};
