//! A build that has its result while a command of it may be open.

ghost use Rattle.std.specs.Prelude.{◌≡◌, ℕ, Some, None, false, nat_lt, length, slice_get};
ghost use Rattle.bm_build_queue.specs.HeldBuilds.{LooksAt, has_ended};

use bm_lane::{Viewer, Yard};
use bm_lines::STDIO;
use bm_store::{LogState, ViewRefusal};
use std::marker::Model;

/// Whether a command has ended whose log is seen so. One whose log isn't seen may be open.
fn has_ended(state: Result<LogState, ViewRefusal>) -> bool
    ensures { result ≡ has_ended state }
{
    matches!(state, Ok(LogState { ended: Some(_), .. }))
}

/// A build that has its result, and the commands that it started. It holds its slot and its locks
/// until each of these was seen to have ended: by itself, or since its session is over. Contracts
/// see how many of them were, in their order.
#[derive(Drop)]
pub struct HeldBuild<Y: Yard> {
    number: u64,
    viewer: Viewer<Y>,
    commands: Vec<u64>,
    ended: usize,
}

impl<Y: Yard> Model for HeldBuild<Y> {
    ghost use Rattle.bm_build_queue.specs.HeldBuilds.{HeldState};

    ghost Value = { HeldState };

    ghost view = { λ h. record {
      number = h.number;
      viewer = h.viewer;
      commands = h.commands.items;
      ended = h.ended;
    } };
}

impl<Y: Yard> HeldBuild<Y> {
    /// The build of this number, which started these commands of the viewer's lane. None of them
    /// was seen to have ended.
    pub fn new(number: u64, viewer: Viewer<Y>, commands: Vec<u64>) -> HeldBuild<Y>
        ensures { result ≡ record {
          number = number;
          viewer = viewer;
          commands = commands.items;
          ended = 0;
        } }
    {
        HeldBuild {
            number,
            viewer,
            commands,
            ended: 0,
        }
    }

    /// Its number.
    pub fn number(&self) -> u64
        ensures { result ≡ self.now.number }
    {
        self.number
    }

    /// How many commands it started.
    pub fn commands(&self) -> usize
        ensures { result ≡ length self.now.commands }
    {
        self.commands.len()
    }

    /// Whether a command of it may be open.
    pub fn has_open_command(&self) -> bool
        ensures { result ≡ nat_lt self.now.ended (length self.now.commands) }
    {
        self.ended < self.commands.len()
    }

    /// Looks whether the first of its commands that may be open has ended. False where none is
    /// left.
    pub fn look(&mut self) -> bool
        ensures none { slice_get self.old.commands self.old.ended ≡ None
            → (self.new ≡ self.old) × (result ≡ false) }
        ensures one { (k : ℕ) → slice_get self.old.commands self.old.ended ≡ Some k
            → LooksAt self.old k result self.new }
    {
        let Some(command) = self.commands.get(self.ended) else {
            return false;
        };
        let is_over = has_ended(self.viewer.state(*command, STDIO));
        if is_over {
            self.ended += 1;
        }
        is_over
    }

    /// Its number and its viewer.
    pub fn into_parts(self) -> (u64, Viewer<Y>)
        ensures { (result.0 ≡ self.number) × (result.1 ≡ self.viewer) }
    {
        (self.number, self.viewer)
    }
}
