//! The processes of the commands that run, and what is told of them.

ghost use Rattle.std.specs.Prelude.{◌≡◌, ◌≤◌, ◌+◌, ◌-◌, [], IfNone, IfOk, IfSome, None, OnOk, false, max};
ghost use Rattle.bm_commands.specs.Queues.{admitted, fresh_queues, stepped, wake};
ghost use Rattle.bm_outbox.specs.Opening.{Starts};
ghost use Rattle.bm_worker_threads.specs.Carrying.{AddsText, ChangesOf, KeepsText, KeepsTold, PushesStarted, text_input, told_input};

use crate::host::Host;
use crate::mailbox::{PipeEvent, ProcessEvent, WorkerMail};
use crate::marks::Marks;
use crate::pipe_threads::PipeTask;
use crate::process_parts::{ProcessParts, place_of};
use crate::starting::{permits, started};
use crate::sweeping::Sweeper;
use crate::thread_time::ThreadTime;
use bm_commands::{CommandQueues, Effect, Input, ProcessInput};
use bm_lines::{Letter, Text};
use bm_outbox::{Outbox, Said, StartFault};
use bm_work::Argv;
use crossbeam_channel::{Receiver, Sender};
use std::alloc::{AllocError, Global};
use std::collections::VecDeque;
use std::process::{ChildStderr, ChildStdout};
use std::sync::Wait;
use std::time::{Clock, Duration, Instant};

/// How much mail lies before the owner until the threads wait in turn.
pub const MOST_MAIL: usize = 16;

/// The processes of the worker: what is decided of them, and what belongs to each.
#[derive(Drop)]
pub struct Processes {
    pub(crate) queues: CommandQueues,
    pub(crate) parts: Vec<ProcessParts>,
    pub(crate) time: ThreadTime,
    pub(crate) marks: Marks,
    /// The sweep of all that the worker started, once it ends.
    pub(crate) last_sweeper: Option<Sweeper>,
    pub owner: Sender<WorkerMail>,
    mailbox: Receiver<WorkerMail>,
}

impl Processes {
    /// No process was started.
    pub(crate) fn new(alloc: Global, marks: Marks) -> Result<Processes, AllocError>
        ensures machine { IfOk result (λ p. p.queues ≡ fresh_queues) }
        ensures parts { IfOk result (λ p. p.parts.items ≡ []) }
        ensures time { IfOk result (λ p. p.time ≡ record { begun = None; last_ms = 0 }) }
        ensures marks { IfOk result (λ p. p.marks ≡ marks) }
        ensures sweep { IfOk result (λ p. p.last_sweeper ≡ None) }
    {
        let (owner, mailbox) = crossbeam_channel::bounded(alloc, MOST_MAIL)?;
        Ok(Processes {
            queues: CommandQueues::new(alloc),
            parts: Vec::new(alloc),
            time: ThreadTime::new(),
            marks,
            last_sweeper: None,
            owner,
            mailbox,
        })
    }

    /// The mail that comes next. The answer is None where a tick is due first.
    pub fn wait<R: Wait + Clock>(&mut self, rt: &R) -> Option<WorkerMail>
        ensures due { IfNone result
            (IfSome (wake self.old.queues.rows) (λ wake_ms. wake_ms ≤ self.new.time.last_ms)) }
        ensures later { self.old.time.last_ms ≤ self.new.time.last_ms }
        ensures machine { self.new.queues ≡ self.old.queues }
        ensures parts { self.new.parts ≡ self.old.parts }
    {
        let Some(wake_ms) = self.queues.wake_at() else {
            return self.mailbox.recv(rt).ok();
        };
        let pause_ms = pause_until(wake_ms, self.time.now(rt));
        let pause = Duration::from_millis(pause_ms);
        match self.mailbox.recv_timeout(rt, pause) {
            Ok(mail) => Some(mail),
            Err(_) => {
                self.time.slept(pause_ms);
                None
            }
        }
    }

    /// The mail that comes next, if any does until then.
    pub fn wait_until<R: Wait + Clock>(&mut self, rt: &R, deadline: Instant) -> Option<WorkerMail>
        ensures { self.new ≡ self.old }
    {
        self.mailbox.recv_deadline(rt, deadline).ok()
    }

    /// The mail that lies ready, if any does.
    pub fn mail<R: Wait>(&mut self, rt: &R) -> Option<WorkerMail>
        ensures { self.new ≡ self.old }
    {
        self.mailbox.try_recv(rt).ok()
    }

    /// Starts a command. The line of its words is told first. Where its process can't be started,
    /// the reason is told as its end.
    pub fn run<R>(
        &mut self,
        rt: &R,
        alloc: Global,
        command: u64,
        argv: &Argv,
        outbox: &mut Outbox,
    ) -> Result<(), AllocError>
    where
        R: Host,
        ensures { OnOk result (Starts command argv.now outbox.old outbox.new) }
    {
        outbox.open(alloc, command, argv.as_slice())?;
        match self.starts(rt, alloc, command, argv.as_slice())? {
            Some(why) => outbox.fail(alloc, command, why),
            None => Ok(()),
        }
    }

    /// Takes a command in and starts its process, or answers why that can't be started.
    fn starts<R: Host>(
        &mut self,
        rt: &R,
        alloc: Global,
        command: u64,
        words: &[Text],
    ) -> Result<Option<StartFault>, AllocError>
        ensures number { OnOk result (self.new.queues.started ≡ self.old.queues.started + 1) }
        ensures heard { IfOk result (λ why. IfNone why
            (self.new.queues ≡ admitted command self.new.time.last_ms self.old.queues)) }
    {
        self.parts.reserve(1)?;
        let now_ms = self.time.now(rt);
        let process = self.queues.admit(command, now_ms)?;
        let (why, told) = match self.started(rt, alloc, process, command, words)? {
            Ok(true) => return Ok(None),
            Ok(false) => (StartFault::NoThread, ProcessInput::Unread),
            Err(why) => (why, ProcessInput::NotStarted),
        };
        self.put(rt, alloc, Input::Process(process, told))?;
        Ok(Some(why))
    }

    /// Starts the threads of a process's pipes, and then the process. The answer is whether those
    /// were given their pipes, or why one of them can't be started.
    fn started<R: Host>(
        &mut self,
        rt: &R,
        alloc: Global,
        process: u64,
        command: u64,
        words: &[Text],
    ) -> Result<Result<bool, StartFault>, AllocError>
        ensures part { PushesStarted process result self.old.parts.items self.new.parts.items }
        ensures machine { self.new.queues ≡ self.old.queues }
        ensures time { self.new.time ≡ self.old.time }
    {
        let (permits, given) = permits(rt, alloc)?;
        let mark = self.marks.value(process)?;
        let task = |letter| PipeTask {
            process,
            command,
            letter,
            owner: &self.owner,
            permits: &given,
        };
        let output: Option<Sender<ChildStdout>> = task(Letter::O).start(rt, alloc);
        let Some(output) = output else {
            return Ok(Err(StartFault::NoThread));
        };
        let errors: Option<Sender<ChildStderr>> = task(Letter::E).start(rt, alloc);
        let Some(errors) = errors else {
            return Ok(Err(StartFault::NoThread));
        };
        let mut child = match started(rt, alloc, words, mark.as_str()) {
            Ok(child) => child,
            Err(why) => return Ok(Err(why)),
        };
        let are_given = gives(rt, &output, child.stdout.take())
            && gives(rt, &errors, child.stderr.take());
        self.parts.push(ProcessParts {
            process,
            child,
            texts: VecDeque::new(alloc),
            permits,
            sweeper: None,
        })?;
        Ok(Ok(are_given))
    }

    /// Hands in what a pipe's thread tells.
    pub fn keep<R: Host>(
        &mut self,
        rt: &R,
        alloc: Global,
        told: ProcessEvent,
    ) -> Result<(), AllocError>
        ensures heard { self.new.queues
            ≡ (stepped self.old.queues self.new.time.last_ms (told_input told.process told.event)).0 }
        ensures later { self.old.time.last_ms ≤ self.new.time.last_ms }
        ensures kept { OnOk result (KeepsTold self.old.marks told.process told.event
            (stepped self.old.queues self.new.time.last_ms (told_input told.process told.event)).1
            self.old.parts.items self.new.parts.items) }
    {
        let process = told.process;
        match told.event {
            PipeEvent::Text(said) => self.keep_text(rt, process, said),
            PipeEvent::End(end) => {
                self.put(
                    rt,
                    alloc,
                    Input::Process(process, ProcessInput::PipeEnded(end)),
                )
            }
            PipeEvent::NoMemory => {
                self.put(rt, alloc, Input::Process(process, ProcessInput::NoMemory))
            }
        }
    }

    /// Keeps a text until its command's turn, where it is to be told.
    fn keep_text<R: Clock>(&mut self, rt: &R, process: u64, said: Said) -> Result<(), AllocError>
        ensures heard { self.new.queues
            ≡ (stepped self.old.queues self.new.time.last_ms (text_input process)).0 }
        ensures later { self.old.time.last_ms ≤ self.new.time.last_ms }
        ensures kept { OnOk result (KeepsText process said
            (stepped self.old.queues self.new.time.last_ms (text_input process)).1
            self.old.parts.items self.new.parts.items) }
    {
        let now_ms = self.time.now(rt);
        let input = Input::Process(process, ProcessInput::Text);
        let effect = self.queues.step(input, now_ms);
        self.keep_by(effect, process, said)
    }

    /// Keeps a text where this says so.
    fn keep_by(&mut self, effect: Effect, process: u64, said: Said) -> Result<(), AllocError>
        ensures kept { OnOk result
            (KeepsText process said effect self.old.parts.items self.new.parts.items) }
        ensures machine { self.new.queues ≡ self.old.queues }
        ensures time { self.new.time ≡ self.old.time }
    {
        match effect {
            Effect::Keep => self.add_text(process, said),
            _ => Ok(()),
        }
    }

    /// Keeps a text at the end of those of its process.
    fn add_text(&mut self, process: u64, said: Said) -> Result<(), AllocError>
        ensures kept { OnOk result (ChangesOf process (AddsText said)
            self.old.parts.items self.new.parts.items) }
        ensures machine { self.new.queues ≡ self.old.queues }
        ensures time { self.new.time ≡ self.old.time }
    {
        match place_of(self.parts.as_slice(), process) {
            Some(at) if at < self.parts.len() => {
                let part = &mut self.parts[at];
                part.keep(said)
            }
            _ => Ok(()),
        }
    }
}

/// How long mail is waited for where a tick is due then. It is a millisecond at the least, so that
/// the time goes on where the clock fails.
fn pause_until(wake_ms: u64, now_ms: u64) -> u64
    ensures { result ≡ max (wake_ms - now_ms) 1 }
{
    wake_ms.saturating_sub(now_ms).max(1)
}

/// False where there is no pipe, or no thread that takes it.
fn gives<R: Wait, P: Drop>(rt: &R, thread: &Sender<P>, pipe: Option<P>) -> bool
    ensures { IfNone pipe (result ≡ false) }
{
    match pipe {
        Some(pipe) => thread.send(rt, pipe).is_ok(),
        None => false,
    }
}
