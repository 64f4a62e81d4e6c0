//! The lines of a build master's standard error.

use crate::log_id::LogId;
use crate::reasons::{LoginRefusal, LossCause, ProgramRefusal, StartRefusal, StepLimit};
use crate::step_at::StepAt;
use bm_session::Results;
use std::net::SocketAddr;

/// Something that a build master's operator asks about, as its standard error tells it. Each case
/// has its line; names in it are shown on one line (`one_line`). Nothing here has room for a
/// password.
#[derive(Clone, Copy)]
pub enum Remark<'a> {
    /// A worker logged in, and a session began: `worker NAME logged in`.
    LoggedIn {
        worker: &'a str,
    },
    /// A worker whose connection was cut is back, and its session goes on: `worker NAME resumed`.
    Resumed {
        worker: &'a str,
    },
    /// A worker's connection was cut, and its session may be resumed: `worker NAME cut, CAUSE`.
    Cut {
        worker: &'a str,
        cause: LossCause,
    },
    /// A worker's session ended, and each command that ran on it with it: `worker NAME lost,
    /// CAUSE`.
    Lost {
        worker: &'a str,
        cause: LossCause,
    },
    /// A worker was told to shut down: `worker NAME told to shut down`.
    Dismissed {
        worker: &'a str,
    },
    /// A worker that was told to shut down is gone: `worker NAME shut down`.
    ShutDown {
        worker: &'a str,
    },
    /// A worker's lane takes no connection and no command any more: `worker NAME full`.
    Filled {
        worker: &'a str,
    },
    /// A connection that logged in was not taken up: `login refused, WHY, from ADDR: NAME`. The
    /// name may be no worker's.
    LoginRefused {
        name: &'a str,
        from: SocketAddr,
        why: LoginRefusal,
    },
    /// A connection that gave no name was not taken up: `connection refused, WHY, from ADDR`.
    ConnectionRefused {
        from: SocketAddr,
        why: LoginRefusal,
    },
    /// So many more connections were refused than are told one by one: `N more connections
    /// refused`.
    MoreRefused {
        count: u64,
    },
    /// So many remarks could not be told: `N remarks not told`.
    NotTold {
        count: u64,
    },
    /// No connection could be accepted just now; it is tried again: `accepting paused`.
    AcceptingPaused,
    /// What the master begins with: `2 workers, 3 builds, 7 steps`.
    Counted {
        workers: u64,
        builds: u64,
        steps: u64,
    },
    /// The configuration has a key that nobody reads: `PLACE: unknown key "KEY"`.
    UnknownKey {
        place: &'a str,
        key: &'a str,
    },
    /// The same where a key that is read has nearly this name: `PLACE: unknown key "KEY", near
    /// "NEAR"`.
    MisspeltKey {
        place: &'a str,
        key: &'a str,
        near: &'a str,
    },
    /// A line of standard input asks for nothing: `input not understood`.
    InputUnknown,
    /// A line of standard input names no build: `build I is not there`.
    BuildMissing {
        build: u64,
    },
    /// A build could start, but for its worker: `build I waits for NAME`.
    BuildWaits {
        build: u64,
        worker: &'a str,
    },
    /// A build could start, but the system refuses its thread, or memory for it. It is tried again
    /// each tick for a minute: `build I waits for a thread`.
    BuildUnstarted {
        build: u64,
    },
    /// A build started on a worker: `build I started on NAME`.
    BuildStarted {
        build: u64,
        worker: &'a str,
    },
    /// A build ended: `build I ended RESULT`.
    BuildEnded {
        build: u64,
        result: Results,
    },
    /// A build is to be cancelled, as a line of standard input asked: `build I to be cancelled`.
    BuildCancelled {
        build: u64,
    },
    /// A step of a build started, and its log has this id: `build I step started, log ID: STEP`.
    StepStarted {
        build: u64,
        log: LogId,
        step: StepAt<'a>,
    },
    /// A step of a build was not started: `build I step not started, WHY: STEP`.
    StepRefused {
        build: u64,
        why: StartRefusal,
        step: StepAt<'a>,
    },
    /// A step of a build has reached a limit, and is interrupted: `build I step stopped, LIMIT, log
    /// ID: STEP`.
    StepStopped {
        build: u64,
        log: LogId,
        limit: StepLimit,
        step: StepAt<'a>,
    },
    /// The command of a step has no exit code, though nobody interrupted it. Its worker said this
    /// last: `build I step failed on NAME, SAID, log ID: STEP`.
    StepFailed {
        build: u64,
        log: LogId,
        worker: &'a str,
        said: &'a str,
        step: StepAt<'a>,
    },
    /// A step of a build ended: `build I step ended RESULT, log ID: STEP`.
    StepEnded {
        build: u64,
        log: LogId,
        result: Results,
        step: StepAt<'a>,
    },
    /// The program of a latent worker was started: `program of NAME started`.
    ProgramStarted {
        worker: &'a str,
    },
    /// The program of a latent worker could not be started: `program of NAME not started, WHY`.
    ProgramFailed {
        worker: &'a str,
        why: ProgramRefusal,
    },
    /// The program of a latent worker ended: `program of NAME ended`.
    ProgramEnded {
        worker: &'a str,
    },
}
