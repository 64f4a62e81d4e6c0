//! What belongs to a process of the worker, under its number.

ghost use Rattle.std.specs.Prelude.{◌≡◌, OnOk, position};
ghost use Rattle.std.specs.Process.{child_status};
ghost use Rattle.bm_worker_threads.specs.Carrying.{AddsText, IsKilled, IsSeen, KeepsRest, sweep_of};
ghost use Rattle.bm_worker_threads.specs.Turns.{is_of};

use crate::host::Host;
use crate::marks::Marks;
use crate::sweeping::Sweeper;
use bm_commands::{ChildState, ProcessLook};
use bm_outbox::{Said, Sweep};
use crossbeam_channel::Sender;
use std::alloc::{AllocError, Global};
use std::collections::VecDeque;
use std::mem;
use std::process::Child;

/// What belongs to a process of the worker. Where its command stands says its row of the machine.
#[derive(Drop)]
pub(crate) struct ProcessParts {
    pub(crate) process: u64,
    pub(crate) child: Child,
    /// What its pipes gave and isn't told yet.
    pub(crate) texts: VecDeque<Said>,
    /// Each of these permits one more text. Without them its pipes' threads end.
    pub(crate) permits: Sender<()>,
    /// The sweep of what it started, once that was begun.
    pub(crate) sweeper: Option<Sweeper>,
}

impl ProcessParts {
    /// Takes its texts that were kept.
    pub(crate) fn take_texts(&mut self, alloc: Global) -> VecDeque<Said>
        ensures { result ≡ self.old.texts }
    {
        mem::replace(&mut self.texts, VecDeque::new(alloc))
    }

    /// Keeps a text behind those that were kept.
    pub(crate) fn keep(&mut self, said: Said) -> Result<(), AllocError>
        ensures { OnOk result (AddsText said self.old self.new) }
    {
        match self.texts.push_back(said) {
            Ok(()) => Ok(()),
            Err(_) => Err(AllocError),
        }
    }

    /// Kills it, and begins the sweep of what it started.
    pub(crate) fn kill<R: Host>(
        &mut self,
        rt: &R,
        alloc: Global,
        marks: &Marks,
    ) -> Result<(), AllocError>
        ensures killed { OnOk result (IsKilled marks.now self.old self.new) }
        ensures kept { KeepsRest self.old self.new }
    {
        // A child that can't be killed has ended, or runs as another user.
        let _ = self.child.kill();
        let mark = marks.of_process(self.process)?;
        self.sweeper = Some(Sweeper::kill(rt, alloc, mark.as_str()));
        Ok(())
    }

    /// What a look shows of it. A process that can't be asked has ended.
    pub(crate) fn look<R: Host>(&mut self, rt: &R) -> ProcessLook
        ensures kept { KeepsRest self.old self.new }
        ensures sweep { result.sweep ≡ sweep_of self.new.sweeper }
        ensures child { IsSeen result.child (child_status self.new.child) }
    {
        let sweep = match &mut self.sweeper {
            Some(sweeper) => sweeper.look(rt),
            None => Sweep::Going,
        };
        let child = match self.child.try_wait() {
            Ok(None) => ChildState::Runs,
            Ok(Some(status)) => ChildState::Ended(status.code()),
            Err(_) => ChildState::Ended(None),
        };
        ProcessLook { child, sweep }
    }
}

/// The place of what belongs to a process.
pub(crate) fn place_of(parts: &[ProcessParts], process: u64) -> Option<usize>
    ensures { result ≡ position (is_of process) parts.now }
{
    parts.iter().position(|part| is_of(process, part))
}

fn is_of(process: u64, part: &ProcessParts) -> bool
    ensures { result ≡ is_of process part.now }
{
    part.process == process
}
