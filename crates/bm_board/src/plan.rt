//! What a build is to do: its steps, its worker and its locks.

ghost use Rattle.std.specs.Prelude.{◌≡◌, IfOk};

use crate::listed::{Copied, Listed};
use bm_lines::Text;
use std::alloc::AllocError;

/// How a build holds a lock.
#[derive(Clone, Copy, PartialEq, Eq)]
pub enum Mode {
    /// Beside others, up to the lock's maximum.
    Counting,
    /// Beside no other holder.
    Exclusive,
}

/// A lock that a build needs, by its place on the board.
#[derive(Clone, Copy, PartialEq, Eq)]
pub struct LockUse {
    pub lock: usize,
    pub mode: Mode,
}

impl Copied for LockUse {
    fn copy(&self) -> Result<LockUse, AllocError> {
        Ok(*self)
    }
}

/// The locks that a build needs.
pub type LockUses = Listed<LockUse>;

impl Copied for Text {
    fn copy(&self) -> Result<Text, AllocError> {
        self.copy()
    }
}

/// A command's words: the program first, then its arguments, as no shell would split them again.
pub type Words = Listed<Text>;

/// A step of a build: a command, and what its outcome means for the build.
#[derive(Drop)]
pub struct StepPlan {
    pub name: Text,
    pub argv: Words,
    /// After a failure only steps that always run are run (`haltOnFailure`).
    pub halt_on_failure: bool,
    /// A failure fails the build (`flunkOnFailure`).
    pub flunk_on_failure: bool,
    /// The step runs although an earlier one halted the build (`alwaysRun`).
    pub always_run: bool,
    /// The step is stopped once its updates have carried more bytes (`max_bytes`); 0 is no limit.
    pub max_bytes: u32,
    /// The step is stopped once so many ticks have passed (`timeout_ticks`); 0 is no limit.
    pub timeout_ticks: u32,
    /// The step is stopped once its updates have carried nothing for so many ticks
    /// (`silent_ticks`); 0 is no limit.
    pub silent_ticks: u32,
}

impl Copied for StepPlan {
    fn copy(&self) -> Result<StepPlan, AllocError> {
        Ok(StepPlan {
            name: self.name.copy()?,
            argv: self.argv.copy()?,
            halt_on_failure: self.halt_on_failure,
            flunk_on_failure: self.flunk_on_failure,
            always_run: self.always_run,
            max_bytes: self.max_bytes,
            timeout_ticks: self.timeout_ticks,
            silent_ticks: self.silent_ticks,
        })
    }
}

/// The steps of a build, in their order.
pub type StepPlans = Listed<StepPlan>;

/// A build: its worker, by its place on the board, the locks that it holds while it runs, and its
/// steps.
#[derive(Drop)]
pub struct Build {
    pub worker: usize,
    pub locks: LockUses,
    pub steps: StepPlans,
}

impl Build {
    /// An equal build.
    pub fn copy(&self) -> Result<Build, AllocError>
        ensures { IfOk result (λ b. b ≡ self.now) }
    {
        Ok(Build {
            worker: self.worker,
            locks: self.locks.copy()?,
            steps: self.steps.copy()?,
        })
    }
}
