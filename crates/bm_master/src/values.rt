//! What comes to a master's machine, and what it has its threads do.

use crate::unstarted_build::UnstartedBuild;
use bm_lane::{Viewer, Yard};
use bm_latent::{EndAct, WorkerEvent};
use bm_operator::ProgramRefusal;
use bm_session::Results;

/// Why a program isn't started just now. Nothing runs that did not run before.
#[derive(Clone, Copy, PartialEq, Eq)]
pub struct StartFailure {
    pub why: ProgramRefusal,
    /// Whether it may be started a moment later.
    pub may_pass: bool,
}

/// A build that has ended: its number, its result and the viewer, which its thread hands back.
#[derive(Drop)]
pub struct FinishedBuild<Y: Yard> {
    /// The build's number, by its place in the configuration.
    pub number: u64,
    /// Its result. None where memory was wanting before its first step.
    pub result: Option<Results>,
    pub viewer: Viewer<Y>,
}

/// What comes to a master's machine. Builds go by their numbers, workers by their places.
#[derive(Drop)]
pub enum MasterInput<Y: Yard> {
    /// A wait is over, in which so many ticks have ended. The event that it brought is handed in
    /// once it is asked for.
    Woke { ticks: u64 },
    /// So many events lie ready.
    Ready { events: u64 },
    /// No event lies ready.
    Quiet,
    /// This happened to the lane of a worker.
    Worker(usize, WorkerEvent),
    /// The program of a worker was started.
    ProgramStarted(usize),
    /// The system refuses to start the program of a worker.
    ProgramRefused(usize, StartFailure),
    /// The program of a worker has ended.
    ProgramEnded(usize),
    /// The thread of a build on this worker was started.
    BuildStarted { build: u64, worker: usize },
    /// The thread of a build could not be started.
    BuildRefused(UnstartedBuild<Y>),
    /// The thread of a build has ended.
    BuildEnded(FinishedBuild<Y>),
    /// A build has started this command of its worker's lane.
    Commanded { build: u64, command: u64 },
    /// The operator cancels a build.
    Cancel(u64),
    /// The operator's input has ended.
    InputEnded,
    /// Each build is over, and the results are written: all programs are to end.
    Over,
}

/// What the operator is told by a master's machine.
#[derive(Clone, Copy, PartialEq, Eq)]
pub enum MasterRemark {
    /// A build runs on this worker.
    BuildStarted { build: u64, worker: usize },
    /// A build waits for its thread.
    BuildUnstarted { build: u64 },
    /// A build has waited for a second for a worker that isn't there.
    BuildWaits { build: u64, worker: usize },
    /// A build has its result.
    BuildEnded { build: u64, result: Results },
    /// There is no build of this number.
    BuildMissing { build: u64 },
    /// The program of a worker runs.
    ProgramStarted { worker: usize },
    /// The program of a worker isn't started, and isn't tried any more.
    ProgramFailed { worker: usize, why: ProgramRefusal },
    /// The program of a worker has ended.
    ProgramEnded { worker: usize },
}

/// What a master's machine has its threads do.
#[derive(Drop)]
pub enum MasterEffect<Y: Yard> {
    /// Nothing: the next effect is asked for.
    Nothing,
    /// The thread of this build is to be started. The answer is `BuildStarted` or `BuildRefused`.
    StartBuild(UnstartedBuild<Y>),
    /// The build that runs is to be cancelled.
    CancelBuild(u64),
    /// The program of this worker is to be started. The answer is `ProgramStarted` or
    /// `ProgramRefused`.
    StartProgram(usize),
    /// It is looked whether the program of this worker has ended. If so the answer is
    /// `ProgramEnded`.
    LookAtProgram(usize),
    /// The program of this worker is asked to end, or killed.
    EndProgram(usize, EndAct),
    /// The worker is told to shut down.
    ShutDown(usize),
    /// The lane of this worker is told that its program has ended.
    TellEnded(usize),
    /// The operator is told.
    Tell(MasterRemark),
    /// The results of all builds are written.
    Report,
    /// It is counted how many events lie ready. The answer is `Ready`. `is_timed`: ticks count from
    /// now on.
    Count { is_timed: bool },
    /// An event that lies ready is taken: the answer is `Woke`, or `Quiet` where none does.
    Listen,
    /// The next event is waited for: the answer is `Woke`. `is_timed`: ticks count. `is_counted`:
    /// something is told once a second has passed.
    Wait { is_timed: bool, is_counted: bool },
    /// The ticks before it are told: the event that was taken last is handed in, if there is one.
    Hear,
    /// Each build is over, the results are written, and the input has ended.
    Leave,
}
