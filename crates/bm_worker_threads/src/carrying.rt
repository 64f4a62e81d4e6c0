//! What the machine of the commands asks of the worker's first thread is carried out here.

ghost use Rattle.std.specs.Prelude.{◌≡◌, ◌≤◌, ◌++◌, ◌∷◌, [], IfOk, IsSomeAnd, OnOk, false, position};
ghost use Rattle.bm_commands.specs.Queues.{IsOwn, stepped};
ghost use Rattle.bm_commands.specs.declared.values.Input.TheVariants.{Ends, Tick, Turn};
ghost use Rattle.bm_outbox.specs.Opening.{waiting_texts};
ghost use Rattle.bm_worker_threads.specs.Carrying.{ChangesOf, IsKilled, LooksAt, PutsBy};
ghost use Rattle.bm_worker_threads.specs.Sweeps.{LooksFor};
ghost use Rattle.bm_worker_threads.specs.Ticks.{AsksOnce, DoesAt, Loses, Ticks, is_asked};
ghost use Rattle.bm_worker_threads.specs.Turns.{KeepsBy, TakesText, TellsBy, TellsText, first_text, is_of, part_of, texts_of, without};

use crate::host::Host;
use crate::process_parts::{ProcessParts, place_of};
use crate::processes::Processes;
use crate::sweeping::Sweeper;
use bm_commands::{ChildState, Effect, Input, ProcessInput, ProcessLook};
use bm_outbox::{Outbox, OutboxEntry, Said, Sweep};
use std::alloc::{AllocError, Global};
use std::collections::VecDeque;
use std::mem;
use std::sync::Wait;
use std::time::Clock;

impl Processes {
    /// Hands in what came, and carries out what is to be done by that.
    pub(crate) fn put<R: Host>(
        &mut self,
        rt: &R,
        alloc: Global,
        input: Input,
    ) -> Result<(), AllocError>
        ensures heard { self.new.queues
            ≡ (stepped self.old.queues self.new.time.last_ms input).0 }
        ensures later { self.old.time.last_ms ≤ self.new.time.last_ms }
        ensures parts { OnOk result (PutsBy self.old.marks
            (stepped self.old.queues self.new.time.last_ms input).1
            self.old.parts.items self.new.parts.items) }
        ensures marks { self.new.marks ≡ self.old.marks }
    {
        let now_ms = self.time.now(rt);
        let effect = self.queues.step(input, now_ms);
        self.carry(rt, alloc, effect)
    }

    /// Kills what is to be killed by this.
    fn carry<R: Host>(&mut self, rt: &R, alloc: Global, effect: Effect) -> Result<(), AllocError>
        ensures parts { OnOk result
            (PutsBy self.old.marks effect self.old.parts.items self.new.parts.items) }
        ensures machine { self.new.queues ≡ self.old.queues }
        ensures time { self.new.time ≡ self.old.time }
        ensures marks { self.new.marks ≡ self.old.marks }
    {
        match effect {
            Effect::Kill(process) => self.kill(rt, alloc, process),
            Effect::SweepAll => {
                self.sweep_all(rt, alloc);
                Ok(())
            }
            _ => Ok(()),
        }
    }

    /// Kills all commands, since their session was lost. Nobody is told.
    ///
    /// # Errors
    ///
    /// Want of memory. Those that are left are killed as the worker ends.
    pub(crate) fn lose<R: Host>(&mut self, rt: &R, alloc: Global) -> Result<(), AllocError>
        ensures done { OnOk result (Loses self.old.marks self.new.time.last_ms self.old.queues
            self.old.parts.items self.new.queues self.new.parts.items) }
        ensures later { self.old.time.last_ms ≤ self.new.time.last_ms }
    {
        self.put(rt, alloc, Input::SessionLost)?;
        self.tick(rt, alloc)
    }

    /// Does all that the time asks for: lost commands are killed, and processes looked at.
    pub(crate) fn tick<R: Host>(&mut self, rt: &R, alloc: Global) -> Result<(), AllocError>
        ensures done { OnOk result (Ticks self.old.marks self.new.time.last_ms self.old.queues
            self.old.parts.items self.new.queues self.new.parts.items) }
        ensures later { self.old.time.last_ms ≤ self.new.time.last_ms }
    {
        let now_ms = self.time.now(rt);
        for _ in rt.forever() {
            if !self.ask(rt, alloc, now_ms)? {
                return Ok(());
            }
        }
        unreachable!()
    }

    /// Asks the machine once what is to be done at this time, and does that. False where nothing
    /// more is.
    fn ask<R: Host>(&mut self, rt: &R, alloc: Global, now_ms: u64) -> Result<bool, AllocError>
        ensures asked { IfOk result
            (λ more. more ≡ is_asked (stepped self.old.queues now_ms Tick).1) }
        ensures done { OnOk result (AsksOnce self.old.marks now_ms self.old.queues
            self.old.parts.items self.new.queues self.new.parts.items) }
        ensures time { self.new.time ≡ self.old.time }
        ensures marks { self.new.marks ≡ self.old.marks }
    {
        let effect = self.queues.step(Input::Tick, now_ms);
        self.answer(rt, alloc, effect, now_ms)
    }

    /// Does what the machine asks for at this time. False where that is nothing.
    fn answer<R: Host>(
        &mut self,
        rt: &R,
        alloc: Global,
        effect: Effect,
        now_ms: u64,
    ) -> Result<bool, AllocError>
        ensures asked { IfOk result (λ more. more ≡ is_asked effect) }
        ensures done { OnOk result (DoesAt self.old.marks now_ms effect self.old.queues
            self.old.parts.items self.new.queues self.new.parts.items) }
        ensures time { self.new.time ≡ self.old.time }
        ensures marks { self.new.marks ≡ self.old.marks }
    {
        match effect {
            Effect::Kill(process) => self.kill(rt, alloc, process)?,
            Effect::Look(process) => {
                let told = ProcessInput::Looked(self.look(rt, process));
                let _ = self.queues.step(Input::Process(process, told), now_ms);
            }
            Effect::Forget(process) => drop(self.take_part(process)),
            _ => return Ok(false),
        }
        Ok(true)
    }

    /// Puts what the machine tells next at this time into the outbox, if it tells anything. Texts
    /// are told where they may be, or no other command runs.
    pub(crate) fn turn<R: Wait>(
        &mut self,
        rt: &R,
        alloc: Global,
        now_ms: u64,
        may_say: bool,
        outbox: &mut Outbox,
    ) -> Result<(), AllocError>
        ensures told { OnOk result (TellsBy (stepped self.old.queues now_ms (Turn may_say)).1
            self.old.parts.items outbox.old outbox.new) }
        ensures kept { KeepsBy (stepped self.old.queues now_ms (Turn may_say)).1
            self.old.parts.items self.new.parts.items }
    {
        let effect = self.queues.step(Input::Turn(may_say), now_ms);
        self.tell(rt, alloc, effect, outbox)
    }

    /// Puts into the outbox what this tells: the first text that was kept of a command, or its end.
    /// No end is told before a text that was kept, whatever the machine counted.
    fn tell<R: Wait>(
        &mut self,
        rt: &R,
        alloc: Global,
        effect: Effect,
        outbox: &mut Outbox,
    ) -> Result<(), AllocError>
        requires { IsOwn effect }
        ensures told { OnOk result (TellsBy effect self.old.parts.items outbox.old outbox.new) }
        ensures kept { KeepsBy effect self.old.parts.items self.new.parts.items }
    {
        match effect {
            Effect::TellText(process, command) => {
                let said = self.take_text(rt, process);
                push_text(command, said, outbox)
            }
            Effect::TellEnd(process, command, end) => {
                let texts = self.take_texts(alloc, process);
                push_texts(command, texts, outbox)?;
                outbox.end(alloc, command, end)
            }
            _ => Ok(()),
        }
    }

    /// Takes out what belongs to a process, and answers the texts that were kept of it.
    fn take_texts(&mut self, alloc: Global, process: u64) -> VecDeque<Said>
        ensures texts { result.items ≡ texts_of (part_of process self.old.parts.items) }
        ensures kept { self.new.parts.items ≡ without process self.old.parts.items }
    {
        match self.take_part(process) {
            Some(mut part) => part.take_texts(alloc),
            None => VecDeque::new(alloc),
        }
    }

    /// The first text that was kept of a process, whose pipes are permitted another one.
    fn take_text<R: Wait>(&mut self, rt: &R, process: u64) -> Option<Said>
        ensures first { result ≡ first_text process self.old.parts.items }
        ensures kept { TakesText (position (is_of process) self.old.parts.items)
            self.old.parts.items self.new.parts.items }
    {
        match place_of(self.parts.as_slice(), process) {
            Some(at) if at < self.parts.len() => {
                let part = &mut self.parts[at];
                let said = part.texts.pop_front();
                // It fails where both pipes have ended, and then nobody asks for it.
                let _ = part.permits.send(rt, ());
                said
            }
            _ => None,
        }
    }

    /// What a look shows of a process. One of which nothing is there has ended.
    fn look<R: Host>(&mut self, rt: &R, process: u64) -> ProcessLook
        ensures look { LooksAt (position (is_of process) self.old.parts.items) result
            self.old.parts.items self.new.parts.items }
        ensures machine { self.new.queues ≡ self.old.queues }
        ensures time { self.new.time ≡ self.old.time }
        ensures marks { self.new.marks ≡ self.old.marks }
    {
        match place_of(self.parts.as_slice(), process) {
            Some(at) if at < self.parts.len() => {
                let part = &mut self.parts[at];
                part.look(rt)
            }
            _ => {
                ProcessLook {
                    child: ChildState::Ended(None),
                    sweep: Sweep::Clean,
                }
            }
        }
    }

    /// Takes out what belongs to a process.
    fn take_part(&mut self, process: u64) -> Option<ProcessParts>
        ensures part { result ≡ part_of process self.old.parts.items }
        ensures kept { self.new.parts.items ≡ without process self.old.parts.items }
        ensures others { self.new ≡ record self.old { parts = self.new.parts } }
    {
        let at = place_of(self.parts.as_slice(), process)?;
        Some(self.parts.remove(at))
    }

    /// Kills a process, and begins the sweep of what it started.
    fn kill<R: Host>(&mut self, rt: &R, alloc: Global, process: u64) -> Result<(), AllocError>
        ensures parts { OnOk result (ChangesOf process (IsKilled self.old.marks)
            self.old.parts.items self.new.parts.items) }
        ensures machine { self.new.queues ≡ self.old.queues }
        ensures time { self.new.time ≡ self.old.time }
        ensures marks { self.new.marks ≡ self.old.marks }
    {
        match place_of(self.parts.as_slice(), process) {
            Some(at) if at < self.parts.len() => {
                let part = &mut self.parts[at];
                part.kill(rt, alloc, &self.marks)
            }
            _ => Ok(()),
        }
    }

    /// Kills all processes, and begins the sweep of all that the worker's commands started.
    fn sweep_all<R: Host>(&mut self, rt: &R, alloc: Global)
        ensures parts { self.new.parts.items ≡ [] }
        ensures sweep { IsSomeAnd self.new.last_sweeper (LooksFor (self.old.marks.worker ∷ [])) }
        ensures machine { self.new.queues ≡ self.old.queues }
        ensures time { self.new.time ≡ self.old.time }
        ensures marks { self.new.marks ≡ self.old.marks }
    {
        for mut part in mem::replace(&mut self.parts, Vec::new(alloc)) {
            // A child that can't be killed has ended, or runs as another user.
            let _ = part.child.kill();
        }
        self.last_sweeper = Some(Sweeper::kill(rt, alloc, self.marks.of_worker()));
    }

    /// Ends all that the worker's commands started, and waits for that for some seconds at the
    /// most.
    pub(crate) fn end<R: Host>(&mut self, rt: &R, alloc: Global)
        ensures heard { self.new.queues
            ≡ (stepped self.old.queues self.new.time.last_ms Ends).0 }
        ensures later { self.old.time.last_ms ≤ self.new.time.last_ms }
        ensures killed { self.old.queues.is_ending ≡ false → self.new.parts.items ≡ [] }
    {
        let now_ms = self.time.now(rt);
        if let Effect::SweepAll = self.queues.step(Input::Ends, now_ms) {
            self.sweep_all(rt, alloc);
        }
        if let Some(sweeper) = &mut self.last_sweeper {
            sweeper.wait(rt);
        }
    }
}

/// Puts a text of a command into the outbox, where there is one.
fn push_text(command: u64, said: Option<Said>, outbox: &mut Outbox) -> Result<(), AllocError>
    ensures { OnOk result (TellsText command said outbox.old outbox.new) }
{
    match said {
        Some(said) => outbox.push(OutboxEntry::Text { command, said }),
        None => Ok(()),
    }
}

/// Puts texts of a command behind what waits.
fn push_texts(command: u64, texts: VecDeque<Said>, outbox: &mut Outbox) -> Result<(), AllocError>
    ensures { OnOk result (outbox.new ≡ outbox.old ++ waiting_texts command texts.items) }
{
    for said in texts {
        outbox.push(OutboxEntry::Text { command, said })?;
    }
    Ok(())
}
