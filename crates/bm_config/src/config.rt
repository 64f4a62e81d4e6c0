//! A configuration.

use bm_board::{Build, Listed, Words};
use bm_lines::Text;
use std::net::SocketAddr;

/// What a build master is to do.
///
/// It has no invariant: the definition builds values of it, and would have to prove each one. So a
/// caller checks a limit once more where a call requires it.
#[derive(Drop)]
pub struct Config {
    /// Where it listens for workers. Port 0 lets the system choose.
    pub listen: SocketAddr,
    /// Where it serves logs.
    pub web: SocketAddr,
    /// The address that programs of workers are given, where it isn't the one it listens at.
    /// It is any text that isn't empty: only the worker that is given a name can look it up.
    pub address: Option<Text>,
    /// How many items wait at the most between a worker and its logs.
    pub capacity: u32,
    /// How many threads bring items to the logs.
    pub writers: u32,
    /// In which form remarks are told.
    pub remarks: RemarkForm,
    /// The workers, by their places.
    pub workers: Listed<WorkerConfig>,
    /// The locks, by their places.
    pub locks: Listed<LockConfig>,
    /// The builds, by their numbers. Each names its worker and its locks by their places.
    pub builds: Listed<Build>,
}

/// The form of remarks on standard error.
#[derive(Clone, Copy, Debug, PartialEq, Eq)]
pub enum RemarkForm {
    /// A line for people.
    Text,
    /// An object of JSON for programs.
    Json,
}

/// A worker of a configuration.
#[derive(Drop)]
pub struct WorkerConfig {
    /// Its name, which no other worker has and which isn't empty.
    pub name: Text,
    pub password: Text,
    /// How many builds it runs at a time: 1 to 4.
    pub slots: u8,
    /// The program that starts it and its words, where it is started on demand.
    pub latent: Option<Words>,
    /// After so many ticks without a build a worker that was started on demand is stopped.
    pub idle_ticks: u32,
    /// For so many ticks a worker whose connection was cut may resume its session.
    pub resume_ticks: u32,
}

/// A lock of a configuration.
#[derive(Drop)]
pub struct LockConfig {
    /// Its name, which no other lock has.
    pub name: Text,
    /// How many builds may hold it at a time in the counting mode.
    pub max: u32,
}
