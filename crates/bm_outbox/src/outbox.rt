//! What waits to be told, in its order.

ghost use Rattle.std.specs.Prelude.{◌≡◌, ◌==◌, ◌∷◌, ◌++◌, [], length, IfOk, OnOk, OnErr};
ghost use Rattle.bm_lines.specs.declared.letter.Letter.TheVariants.{H};
ghost use Rattle.bm_outbox.specs.Faults.{fault_line};
ghost use Rattle.bm_outbox.specs.Headers.{exit_line};
ghost use Rattle.bm_outbox.specs.OutboxEntries.{Tells, TellsOwnCode};
ghost use Rattle.bm_outbox.specs.Opening.{Closes, Fails, IsHeader, Opens, waiting_texts};
ghost use Rattle.bm_outbox.specs.Stopping.{ClosesHeld, Ends, IsOwnEnd, Stops};
ghost use Rattle.bm_outbox.specs.Telling.{TellsNext};

use crate::command_end::CommandEnd;
use crate::ending::Ending;
use crate::outbox_entry::OutboxEntry;
use crate::pipe_texts::PipeTexts;
use crate::pipes::ExitCode;
use crate::progress::Progress;
use crate::said::Said;
use crate::start_fault::StartFault;
use crate::stop_lines::{ending_of, held_text, stop_texts};
use crate::stopping::{Leftover, StopCause};
use crate::words::{exit_line, fault_line, words_line};
use bm_lines::{Letter, Text};
use bm_work::{WorkRefusal, Worker};
use std::alloc::{AllocError, Global};
use std::collections::VecDeque;
use std::marker::Model;

/// What waits to be told of all commands, oldest first.
#[derive(Drop)]
pub struct Outbox {
    waiting: VecDeque<OutboxEntry>,
}

impl Model for Outbox {
    ghost use Rattle.std.specs.Prelude.{List};
    ghost use Rattle.bm_outbox.specs.declared.outbox_entry.OutboxEntry.{OutboxEntry as Waiting};

    ghost Value = { List Waiting };

    ghost view = { λ o. o.waiting.items };
}

impl Outbox {
    /// Nothing waits.
    pub fn new(alloc: Global) -> Outbox
        ensures { result ≡ [] }
    {
        Outbox {
            waiting: VecDeque::new(alloc),
        }
    }

    /// Whether nothing waits.
    pub fn is_empty(&self) -> bool
        ensures { result ≡ (length self.now == 0) }
    {
        self.waiting.is_empty()
    }

    /// Puts an entry behind the others. Want of memory changes nothing. That an exit code is of its
    /// own command is a condition. As a refusal it would be a fault that no caller can meet.
    pub fn push(&mut self, entry: OutboxEntry) -> Result<(), AllocError>
        requires { TellsOwnCode entry }
        ensures ok { OnOk result (self.new ≡ self.old ++ entry ∷ []) }
        ensures err { OnErr result (self.new ≡ self.old) }
    {
        match self.waiting.push_back(entry) {
            Ok(()) => Ok(()),
            Err(_) => Err(AllocError),
        }
    }

    /// Begins to tell of a command: the line of its words waits behind the others.
    ///
    /// # Errors
    ///
    /// Want of memory. A part of the line may wait then.
    pub fn open(&mut self, alloc: Global, command: u64, words: &[Text]) -> Result<(), AllocError>
        ensures { OnOk result (Opens command words.now [] self.old self.new) }
    {
        let line = words_line(alloc, words)?;
        self.push_all(command, header_texts(alloc, command, line.as_str())?)
    }

    /// Tells the end of a command whose process can't be started for this reason. The line that
    /// says why waits behind the others, and the end behind it.
    ///
    /// # Errors
    ///
    /// Want of memory. The line may wait then.
    pub fn fail(&mut self, alloc: Global, command: u64, why: StartFault) -> Result<(), AllocError>
        ensures { OnOk result (Fails command why self.old self.new) }
    {
        let said = fault_text(alloc, why)?;
        self.push(OutboxEntry::Text { command, said })?;
        let ending = Ending::CannotStart;
        self.push(OutboxEntry::End { command, ending })?;
        Ok(())
    }

    /// Tells the end of the command whose ended pipes gave this exit code. The line of that code
    /// waits behind the others, and the end behind it.
    ///
    /// # Errors
    ///
    /// Want of memory. A part of the line may wait then.
    #[tactic(auto, using(crate::proofs::Queue::closes))]
    pub fn close(&mut self, alloc: Global, code: ExitCode) -> Result<(), AllocError>
        ensures { OnOk result (Closes code self.old self.new) }
    {
        let command = code.command();
        let texts = exit_texts(alloc, command, code.get())?;
        self.push_all(command, texts)?;
        let ending = Ending::Code(code);
        self.push(OutboxEntry::End { command, ending })?;
        Ok(())
    }

    /// Tells the end of the command whose pipes gave this exit code, one of which was held open.
    /// The line that says so waits behind the others, and all that closes a command behind it.
    ///
    /// # Errors
    ///
    /// Want of memory. A part of the lines may wait then.
    pub fn close_held(&mut self, alloc: Global, code: ExitCode) -> Result<(), AllocError>
        ensures { OnOk result (ClosesHeld code self.old self.new) }
    {
        let text = OutboxEntry::Text {
            command: code.command(),
            said: held_text(alloc)?,
        };
        self.push(text)?;
        self.close(alloc, code)?;
        Ok(())
    }

    fn push_all(&mut self, command: u64, texts: Vec<Said>) -> Result<(), AllocError>
        ensures { OnOk result (self.new ≡ self.old ++ waiting_texts command texts.items) }
    {
        for said in texts {
            self.push(OutboxEntry::Text { command, said })?;
        }
        Ok(())
    }

    /// Tells the end of a command that its worker ended: which processes may go on, and why it was
    /// ended. These lines wait behind the others, and the end behind them.
    ///
    /// # Errors
    ///
    /// Want of memory. A part of the lines may wait then.
    #[tactic(auto, using(crate::proofs::Queue::stops))]
    pub fn stop(
        &mut self,
        alloc: Global,
        command: u64,
        why: StopCause,
        left: Leftover,
    ) -> Result<(), AllocError>
        ensures { OnOk result (Stops command why left self.old self.new) }
    {
        let texts = stop_texts(alloc, why, left)?;
        self.push_all(command, texts)?;
        let ending = ending_of(why);
        self.push(OutboxEntry::End { command, ending })?;
        Ok(())
    }

    /// Tells how a command ended, behind all that waits.
    ///
    /// # Errors
    ///
    /// Want of memory. A part of its lines may wait then.
    pub fn end(&mut self, alloc: Global, command: u64, end: CommandEnd) -> Result<(), AllocError>
        requires { IsOwnEnd command end }
        ensures { OnOk result (Ends command end self.old self.new) }
    {
        match end {
            CommandEnd::Code(code) => self.close(alloc, code),
            CommandEnd::Held(code) => self.close_held(alloc, code),
            CommandEnd::Stopped(why, left) => self.stop(alloc, command, why, left),
        }
    }

    /// Forgets all that waits.
    pub fn clear(&mut self)
        ensures { self.new ≡ [] }
    {
        self.waiting.clear();
    }

    /// Tells what waits first, by the worker's core. What can't be told yet waits on.
    ///
    /// # Errors
    ///
    /// Want of memory. Nothing was changed.
    pub fn tell(&mut self, alloc: Global, worker: &mut Worker) -> Result<Progress, AllocError>
        ensures { TellsNext self.old worker.old result self.new worker.new }
    {
        let Some(entry) = self.waiting.front() else {
            return Ok(Progress::Nothing);
        };
        match tell_entry(alloc, worker, entry) {
            Ok(Progress::Full) => Ok(Progress::Full),
            Ok(told) => {
                self.waiting.pop_front();
                Ok(told)
            }
            Err(error) => Err(error),
        }
    }
}

fn tell_entry(
    alloc: Global,
    worker: &mut Worker,
    entry: &OutboxEntry,
) -> Result<Progress, AllocError>
    ensures { Tells entry.now worker.old result worker.new }
{
    match entry {
        OutboxEntry::Text { command, said } => {
            match worker.say(*command, said.letter, said.text.as_str()) {
                Ok(sent) => Ok(Progress::Text(sent)),
                Err(WorkRefusal::NoSuchCommand) => Ok(Progress::Passed),
                Err(WorkRefusal::Window) => Ok(Progress::Full),
                Err(WorkRefusal::Mem) => Err(AllocError),
            }
        }
        OutboxEntry::End { command, ending } => {
            match worker.finish(*command, ending.finish(alloc)?) {
                Ok(requests) => Ok(Progress::End(requests)),
                Err(WorkRefusal::NoSuchCommand) => Ok(Progress::Passed),
                Err(WorkRefusal::Window) => Ok(Progress::Full),
                Err(WorkRefusal::Mem) => Err(AllocError),
            }
        }
    }
}

/// What is said of a line of headers of a command.
fn header_texts(alloc: Global, command: u64, line: &str) -> Result<Vec<Said>, AllocError>
    ensures { IfOk result (λ v. IsHeader line.now v.items) }
{
    let mut texts = PipeTexts::new(alloc, command, Letter::H);
    let mut all = match texts.take(alloc, line.as_bytes()) {
        Ok(all) => all,
        Err(error) => return Err(error),
    };
    match texts.last() {
        Ok(Some(last)) => all.push(last)?,
        Ok(None) => {}
        Err(error) => return Err(error),
    }
    Ok(all)
}

fn exit_texts(alloc: Global, command: u64, code: i64) -> Result<Vec<Said>, AllocError>
    ensures { IfOk result (λ v. IsHeader (exit_line code) v.items) }
{
    let line = exit_line(alloc, code)?;
    let texts = header_texts(alloc, command, line.as_str())?;
    Ok(texts)
}

fn fault_text(alloc: Global, why: StartFault) -> Result<Said, AllocError>
    ensures letter { IfOk result (λ said. said.letter ≡ H) }
    ensures text { IfOk result (λ said. said.text ≡ fault_line why) }
{
    let line = fault_line(alloc, why)?;
    Ok(Said {
        letter: Letter::H,
        text: Text::from_string(line),
    })
}
