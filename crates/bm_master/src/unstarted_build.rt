//! A build that has its slot, and no thread yet.

ghost use Rattle.std.specs.Prelude.{◌≡◌, not, true};
ghost use Rattle.bm_latent.specs.StartTries.{tries_after};
ghost use Rattle.bm_master.specs.BuildStarts.{fate};
ghost use Rattle.bm_master.specs.Unstarted.{assigned};

use crate::build_start::{BuildStart, StartFate};
use bm_build_queue::Assignment;
use bm_lane::Yard;
use std::marker::Model;

/// A build whose thread isn't started yet.
#[derive(Drop)]
pub struct UnstartedBuild<Y: Yard> {
    assignment: Assignment<Y>,
    /// How far the start of its thread has come.
    start: BuildStart,
    is_cancelled: bool,
}

impl<Y: Yard> Model for UnstartedBuild<Y> {
    ghost use Rattle.bm_master.specs.Unstarted.{UnstartedView};

    ghost Value = { UnstartedView };

    ghost view = { λ b. record {
      number = b.assignment.number;
      worker = b.assignment.worker;
      viewer = b.assignment.viewer;
      start = b.start;
      cancelled = b.is_cancelled;
    } };
}

impl<Y: Yard> UnstartedBuild<Y> {
    /// A build that has waited for no tick yet.
    pub fn new(assignment: Assignment<Y>) -> UnstartedBuild<Y>
        ensures { result ≡ assigned assignment.number assignment.worker assignment.viewer }
    {
        UnstartedBuild {
            assignment,
            start: BuildStart::new(),
            is_cancelled: false,
        }
    }

    /// Its number.
    pub fn number(&self) -> u64
        ensures { result ≡ self.now.number }
    {
        self.assignment.number
    }

    /// What becomes of it now.
    pub fn fate(&self) -> StartFate
        ensures { result ≡ fate self.now.start self.now.cancelled }
    {
        self.start.fate(self.is_cancelled)
    }

    /// Its thread could not be started: whether that is told. It is at the first.
    pub fn refused(&mut self) -> bool
        ensures told { self.new ≡ record self.old { start = record self.old.start { told = true } } }
        ensures first { result ≡ not self.old.start.told }
    {
        self.start.refused()
    }

    /// A tick has passed.
    pub fn tick(&mut self)
        ensures { self.new ≡ record self.old {
          start = record self.old.start { tries = tries_after self.old.start.tries };
        } }
    {
        self.start.tick();
    }

    /// It is cancelled.
    pub fn cancel(&mut self)
        ensures { self.new ≡ record self.old { cancelled = true } }
    {
        self.is_cancelled = true;
    }

    /// What a thread is given of it, and how far its start has come.
    pub fn into_parts(self) -> (Assignment<Y>, BuildStart)
        ensures number { result.0.number ≡ self.number }
        ensures worker { result.0.worker ≡ self.worker }
        ensures viewer { result.0.viewer ≡ self.viewer }
        ensures start { result.1 ≡ self.start }
    {
        (self.assignment, self.start)
    }

    /// No thread took it: its start has come so far.
    pub fn again(assignment: Assignment<Y>, start: BuildStart) -> UnstartedBuild<Y>
        ensures { result ≡ record (assigned assignment.number assignment.worker assignment.viewer) {
          start = start;
        } }
    {
        UnstartedBuild {
            assignment,
            start,
            is_cancelled: false,
        }
    }
}
