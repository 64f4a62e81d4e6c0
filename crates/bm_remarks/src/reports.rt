//! What other threads report, to be told.

use bm_lines::Text;
use bm_operator::{LoginRefusal, StepEvent};
use std::net::SocketAddr;

/// A step of a build, and what happened to it.
#[derive(Drop)]
pub struct ReportedStep {
    /// The build's number.
    pub build: u64,
    /// The step's place among those of its build, from 0 on.
    pub place: u64,
    /// Its name, where there was memory for it.
    pub name: Option<Text>,
    /// What its worker said last, where that is told.
    pub said: Option<Text>,
    pub event: StepEvent,
}

/// A connection that was not taken up.
#[derive(Drop)]
pub struct RefusedConnection {
    /// Where it came from.
    pub from: SocketAddr,
    /// The name that it logged in under, where that may be told.
    pub name: Option<Text>,
    pub why: LoginRefusal,
}
