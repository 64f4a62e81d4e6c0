//! What the worker asks of the system.

use std::process::{Processes, SystemProcess};
use std::sync::Wait;
use std::thread::Threads;
use std::time::Clock;

/// A system with threads that may wait, a clock, and processes.
pub trait Host: Wait
    + Threads
    + Clock
    + Processes<Started = SystemProcess>
    + Copy
    + Send
    + Sync
    + 'static {}

impl<R> Host for R
where
    R: Wait + Threads + Clock + Processes<Started = SystemProcess> + Copy + Send + Sync + 'static,
{}
