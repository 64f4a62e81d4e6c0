//! For how long the thread of a build is tried to be started, and what is told of that.

ghost use Rattle.std.specs.Prelude.{◌≡◌, not, true};
ghost use Rattle.bm_latent.specs.StartTries.{tries_after};
ghost use Rattle.bm_master.specs.BuildStarts.{fate, untried};

use bm_latent::StartTries;
use std::marker::Model;

/// What becomes of a build whose thread isn't started yet.
#[derive(Clone, Copy, PartialEq, Eq)]
pub enum StartFate {
    /// Its thread is to be started now.
    Try,
    /// It ends, since it was cancelled.
    Cancelled,
    /// It ends, since it was tried for too long. The master's status says so.
    Failed,
}

/// How far the start of a build's thread has come.
#[derive(Drop)]
pub struct BuildStart {
    tries: StartTries,
    /// Whether the operator was told that the build waits for its thread.
    is_told: bool,
}

impl Model for BuildStart {
    ghost use Rattle.bm_master.specs.BuildStarts.{StartView};

    ghost Value = { StartView };

    ghost view = { λ s. record { tries = s.tries; told = s.is_told } };
}

impl BuildStart {
    /// No start was tried yet.
    pub fn new() -> BuildStart
        ensures { result ≡ untried }
    {
        BuildStart {
            tries: StartTries::new(),
            is_told: false,
        }
    }

    /// What becomes of the build now.
    pub fn fate(&self, is_cancelled: bool) -> StartFate
        ensures { result ≡ fate self.now is_cancelled }
    {
        if is_cancelled {
            StartFate::Cancelled
        } else if self.tries.is_given_up(false) {
            StartFate::Failed
        } else {
            StartFate::Try
        }
    }

    /// A start was refused: whether that is told. It is at the first.
    pub fn refused(&mut self) -> bool
        ensures told { self.new ≡ record self.old { told = true } }
        ensures first { result ≡ not self.old.told }
    {
        let is_first = !self.is_told;
        self.is_told = true;
        is_first
    }

    /// A tick has passed.
    pub fn tick(&mut self)
        ensures { self.new ≡ record self.old { tries = tries_after self.old.tries } }
    {
        self.tries.tick();
    }
}
