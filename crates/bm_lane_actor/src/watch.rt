//! Who is told of a build's steps.

use bm_board::StepPlan;
use bm_lines::Text;
use bm_operator::{StartRefusal, StepLimit};
use bm_session::Results;

/// Who is told of a build's steps as they run.
pub trait Watch {
    /// The step was started as this command of its lane.
    fn started(&mut self, step: &StepPlan, command: u64);

    /// The build obeys a cancel: from now on no step is started but those that always run. It is
    /// told once of each.
    fn cancelled(&mut self);

    /// The command has reached a limit of its step, and is interrupted.
    fn stopped(&mut self, command: u64, limit: StepLimit);

    /// The step was not started.
    fn refused(&mut self, step: &StepPlan, why: StartRefusal);

    /// The command failed without having reached a limit, and ends EXCEPTION. `said` is what its
    /// worker said last of it, where that is a short line of headers behind the first.
    fn failed(&mut self, command: u64, said: Option<Text>);

    /// The command ended so.
    fn ended(&mut self, command: u64, outcome: Results);
}
