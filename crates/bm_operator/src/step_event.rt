//! What happens to a step, and what an operator is told of it.

ghost use Rattle.std.specs.Prelude.{◌≡◌};
ghost use Rattle.bm_operator.specs.Remark.{told};
ghost use Rattle.bm_operator.specs.StepEvents.{event_told, log_of};

use crate::log_id::LogId;
use crate::reasons::{StartRefusal, StepLimit};
use crate::remark::Remark;
use crate::step_at::StepAt;
use bm_session::Results;

/// What happened to a step. Commands are by their numbers on the worker's lane.
#[derive(Clone, Copy, PartialEq, Eq)]
pub enum StepEvent {
    /// It was started as this command.
    Started(u64),
    /// It was not started.
    Refused(StartRefusal),
    /// This command has reached a limit, and is interrupted.
    Stopped(u64, StepLimit),
    /// This command has no exit code, though nobody interrupted it.
    Failed(u64),
    /// This command ended so.
    Ended(u64, Results),
}

impl StepEvent {
    /// What is told of it, where it happened to this step of this build. The lane is that of this
    /// worker, at this place among so many. `said` is what the worker said last.
    pub fn remark<'a>(
        self,
        build: u64,
        lane: u64,
        lanes: u64,
        worker: &'a str,
        step: StepAt<'a>,
        said: &'a str,
    ) -> Remark<'a>
        ensures { told result ≡ event_told build lane lanes worker.now step.entry said.now self }
    {
        match self {
            StepEvent::Started(command) => {
                let log = log_of(command, lane, lanes);
                Remark::StepStarted { build, log, step }
            }
            StepEvent::Refused(why) => Remark::StepRefused { build, why, step },
            StepEvent::Stopped(command, limit) => Remark::StepStopped {
                build,
                log: log_of(command, lane, lanes),
                limit,
                step,
            },
            StepEvent::Failed(command) => Remark::StepFailed {
                build,
                log: log_of(command, lane, lanes),
                worker,
                said,
                step,
            },
            StepEvent::Ended(command, result) => Remark::StepEnded {
                build,
                log: log_of(command, lane, lanes),
                result,
                step,
            },
        }
    }
}

// The log of a command on the lane at this place among so many.
fn log_of(command: u64, lane: u64, lanes: u64) -> LogId
    ensures { result ≡ log_of lane lanes command }
{
    LogId {
        command,
        lane,
        lanes,
    }
}
