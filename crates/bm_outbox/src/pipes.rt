//! Which pipes of a command are open, and the exit code that is told once none is.

ghost use Rattle.std.specs.Prelude.{◌≡◌, true};
ghost use Rattle.bm_outbox.specs.Pipes.{after_wait, are_held, held_ms};
ghost use Rattle.bm_outbox.specs.Pipes.{are_over, exit_code, with_end};

use crate::pipe_texts::PipeEnd;
use bm_lines::Letter;

/// For how many milliseconds pipes are waited for that are held open behind the end of their
/// command's process.
const HELD_LIMIT_MS: u64 = 60_000;

/// How many milliseconds count at most between two glances at such a process.
const GLANCE_LIMIT_MS: u64 = 2_000;

/// Which pipes of a command are open.
#[derive(Clone, Copy, PartialEq, Eq)]
pub struct Pipes {
    pub(crate) command: u64,
    pub(crate) output: bool,
    pub(crate) errors: bool,
}

impl Pipes {
    /// Both pipes of this command are open.
    pub const fn open(command: u64) -> Pipes
        ensures { result ≡ record { command = command; output = true; errors = true } }
    {
        Pipes {
            command,
            output: true,
            errors: true,
        }
    }

    /// The command that they are of.
    pub fn command(self) -> u64
        ensures { result ≡ self.command }
    {
        self.command
    }

    /// A pipe came to this end. That of another command is none of these, and a command has no pipe
    /// of headers. That is no condition of the call: an end comes through a channel, which carries
    /// no fact.
    pub fn end(&mut self, end: PipeEnd)
        ensures { self.new ≡ with_end end self.old }
    {
        if end.command() != self.command {
            return;
        }
        match end.letter() {
            Letter::O => self.output = false,
            Letter::E => self.errors = false,
            Letter::H => {}
        }
    }

    /// Pipes may be waited for no more once they were held open for so many milliseconds behind the
    /// end of their command's process. They count as ended then. The answer is whether that is so.
    /// What held them may write on, and is not heard.
    pub fn give_up(&mut self, held_ms: u64) -> bool
        ensures told { result ≡ are_held held_ms self.old }
        ensures pipes { self.new ≡ after_wait held_ms self.old }
    {
        if self.are_over() || held_ms < HELD_LIMIT_MS {
            return false;
        }
        self.output = false;
        self.errors = false;
        true
    }

    /// Both came to their ends, or are waited for no more.
    pub fn are_over(self) -> bool
        ensures { result ≡ are_over self }
    {
        !self.output && !self.errors
    }

    /// The exit code that is told of a command whose process gave this one: -1 stands for none.
    /// There is none to be told before all that its pipes gave was taken, or is waited for no more.
    pub fn exit_code(self, code: Option<i32>) -> ExitCode
        requires { are_over self ≡ true }
        ensures { result ≡ record { command = self.command; code = exit_code code } }
    {
        let code = match code {
            Some(code) => i64::from(code),
            None => -1,
        };
        ExitCode {
            command: self.command,
            code,
        }
    }
}

/// An exit code that may be told of a command. Its pipes alone give it, once both have come to
/// their ends or are waited for no more.
#[derive(Clone, Copy)]
pub struct ExitCode {
    command: u64,
    code: i64,
}

impl ExitCode {
    /// The number of the command whose pipes gave it.
    pub fn command(&self) -> u64
        ensures { result ≡ self.now.command }
    {
        self.command
    }

    /// The exit code of the process; -1 where it has none.
    pub fn get(&self) -> i64
        ensures { result ≡ self.now.code }
    {
        self.code
    }
}

/// For how many milliseconds pipes were held open behind the end of their command's process. So
/// many had counted before, and so many have passed since the last glance. A glance counts for
/// nothing while what the pipes gave can't be told: what they still hold is the command's own then.
pub fn held_ms(before_ms: u64, passed_ms: u64, is_blocked: bool) -> u64
    ensures { result ≡ held_ms before_ms passed_ms is_blocked }
{
    if is_blocked || before_ms >= HELD_LIMIT_MS {
        return before_ms;
    }
    before_ms + GLANCE_LIMIT_MS.min(passed_ms)
}
