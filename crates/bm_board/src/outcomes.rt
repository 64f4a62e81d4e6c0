//! How a build's steps ended.

ghost use Rattle.std.specs.Prelude.{◌≡◌, ◌<◌, length, replicate, slice_set, IfOk};

use crate::listed::{Copied, Listed};
use bm_session::Results;
use std::alloc::{AllocError, Global};

/// The outcomes of a build's steps, in the order of the steps.
pub type Outcomes = Listed<Results>;

impl Copied for Results {
    fn copy(&self) -> Result<Results, AllocError> {
        Ok(*self)
    }
}

impl Listed<Results> {
    /// As many skipped steps.
    pub fn skipped(alloc: Global, steps: usize) -> Result<Outcomes, AllocError>
        ensures { IfOk result (λ o. o ≡ replicate steps Results.Skipped) }
    {
        let mut vec = Vec::new(alloc);
        vec.resize(steps, Results::Skipped)?;
        Ok(Listed { vec })
    }

    /// Puts down the outcome of a step.
    pub fn set(&mut self, step: usize, outcome: Results)
        requires { step < length self.old }
        ensures { self.new ≡ slice_set self.old step outcome }
    {
        self.vec[step] = outcome;
    }
}
