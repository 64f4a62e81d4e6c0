//! A replay: the steps of a script are done on a lane one by one, and each is answered.

ghost use Rattle.std.specs.Prelude.{◌≤◌};

use crate::answers::{write_answer, write_log};
use crate::incoming::{Unread, read_event};
use crate::script::{MOST_BYTES, ReplayRequest, ScriptLine, cut_line, read_line, read_up_to};
use bm_lines::Text;
use bm_session::Event;
use bm_world::{Step, World};
use bumpalo::Bump;
use std::alloc::{AllocError, Global};
use std::io;
use std::io::{BufWriter, Read, Write};

/// Why a replay ends before its script does. It has no `thiserror`: what is told of it is made
/// elsewhere, and a text of its own would be read by nobody.
#[derive(Drop)]
enum Halt {
    /// A line of another form, with its number, counted from 1.
    NotUnderstood(u64),
    /// A read or a write failed, the input was too long or memory was refused.
    Failed,
}

impl From<io::Error> for Halt {
    fn from(_error: io::Error) -> Halt {
        Halt::Failed
    }
}

impl From<AllocError> for Halt {
    fn from(_error: AllocError) -> Halt {
        Halt::Failed
    }
}

/// Replays the script that the input holds over a queue of `capacity` items, and writes an answer
/// for each line that asks for one. The input is read to its end before the first answer. It has no
/// clause: what a step does to the lane is proved (`World::step`), and tests compare the answers
/// row by row.
///
/// The result is the exit status. It is 0 at the script's end, and 1 after a line of another form,
/// which is told on `faults`. It is 1 also after a failed read or write, too long an input or want
/// of memory. Of these nothing is told. After a read that failed or too long an input nothing
/// stands on `output`, and else the answers of the lines before.
pub fn replay_run<R: Read + Drop, W: Write + Drop, F: Write + Drop>(
    alloc: Global,
    capacity: u32,
    input: R,
    output: W,
    faults: F,
) -> u8
    requires some { 1 ≤ capacity }
    requires few { capacity ≤ 65536 }
{
    match replay(alloc, capacity, input, output) {
        Ok(()) => 0,
        Err(Halt::Failed) => 1,
        Err(Halt::NotUnderstood(number)) => {
            let mut faults = faults;
            // Where the line can't be told, the status still says that something went wrong.
            let _ = writeln!(faults, "line {number}: not understood");
            1
        }
    }
}

fn replay<R: Read + Drop, W: Write + Drop>(
    alloc: Global,
    capacity: u32,
    input: R,
    output: W,
) -> Result<(), Halt>
    requires some { 1 ≤ capacity }
    requires few { capacity ≤ 65536 }
{
    let mut input = input;
    let script = read_up_to(MOST_BYTES, alloc, &mut input)?;
    let mut lane = Lane::new(alloc, capacity)?;
    let mut output = BufWriter::new(alloc, output)?;
    let ended = lane.answer_lines(script.as_slice(), &mut output);
    output.flush()?;
    ended
}

/// The lane that a script's steps are done on.
#[derive(Drop)]
struct Lane {
    alloc: Global,
    world: World,
    /// Holds the tree of one message at a time.
    arena: Bump,
    /// The number of the line that was answered last, from 1.
    number: u64,
}

impl Lane {
    /// A lane whose queue takes up to `capacity` items, before the first line.
    fn new(alloc: Global, capacity: u32) -> Result<Lane, AllocError>
        requires some { 1 ≤ capacity }
        requires few { capacity ≤ 65536 }
    {
        Ok(Lane {
            alloc,
            world: World::new(alloc, capacity as usize)?,
            arena: Bump::new(alloc),
            number: 0,
        })
    }

    /// Answers the lines of a script, up to its end or to one of another form.
    fn answer_lines<W: Write>(&mut self, lines: &[u8], output: &mut W) -> Result<(), Halt> {
        let mut left = Some(lines);
        'lines: while let Some(text) = left {
            let (line, rest) = cut_line(text);
            self.answer_line(line, output)?;
            left = rest;
        }
        Ok(())
    }

    fn answer_line<W: Write>(&mut self, line: &[u8], output: &mut W) -> Result<(), Halt> {
        self.number = self.number.saturating_add(1);
        match read_line(line) {
            ScriptLine::Blank => Ok(()),
            ScriptLine::In(digits) => self.take_in(digits, output),
            ScriptLine::Drain => self.step(Step::Drain, "ok", output),
            ScriptLine::Asks(request) => self.answer(request, output),
            ScriptLine::Unknown => Err(Halt::NotUnderstood(self.number)),
        }
    }

    /// Answers what is neither a message nor a drain.
    fn answer<W: Write>(&mut self, request: ReplayRequest<'_>, output: &mut W) -> Result<(), Halt> {
        let step = match request {
            ReplayRequest::Up => Step::Hear(Event::Up),
            ReplayRequest::Cut => Step::Hear(Event::Cut),
            ReplayRequest::Down => Step::Hear(Event::Down),
            ReplayRequest::Go => Step::Hear(Event::Go),
            ReplayRequest::Stop(command) => Step::Hear(Event::Stop(command)),
            ReplayRequest::Look {
                command,
                offset,
                limit,
                name,
            } => Step::Look(command, Text::from_str(self.alloc, name)?, offset, limit),
            ReplayRequest::Log { command, name } => return self.show_log(command, name, output),
        };
        self.step(step, "ok", output)
    }

    /// Does the step, and answers `silent` where an event was taken that nothing is sent for.
    fn step<W: Write>(&mut self, step: Step, silent: &str, output: &mut W) -> Result<(), Halt> {
        match self.world.step(step) {
            Ok(answer) => Ok(write_answer(output, answer, silent)?),
            Err(_) => Err(Halt::Failed),
        }
    }

    fn take_in<W: Write>(&mut self, digits: &[u8], output: &mut W) -> Result<(), Halt> {
        let read = read_event(self.alloc, &self.arena, digits);
        if self.arena.reset().is_err() {
            return Err(Halt::Failed);
        }
        match read {
            Ok(event) => self.step(Step::Hear(event), "noted", output),
            Err(Unread::Hex) => Err(Halt::NotUnderstood(self.number)),
            Err(Unread::OutOfMemory) => Err(Halt::Failed),
            Err(unread) => Ok(writeln!(output, "bad {unread}")?),
        }
    }

    fn show_log<W: Write>(&self, command: u64, name: &str, output: &mut W) -> Result<(), Halt> {
        let session = self.world.session();
        match session.log(self.alloc, command, name)? {
            None => Ok(writeln!(output, "no log")?),
            Some(log) => {
                let outcome = session.outcome(command);
                Ok(write_log(output, command, &log, outcome)?)
            }
        }
    }
}
