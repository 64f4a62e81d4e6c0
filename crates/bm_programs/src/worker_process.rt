//! The program that starts a worker on demand, and its process.

ghost use Rattle.std.specs.Prelude.{◌≡◌, [], ◌∷◌, ◌++◌, codes, IfErr, IfOk, IfSome, OnOk};
ghost use Rattle.std.specs.IoError.{error_kind, raw_os_error};
ghost use Rattle.std.specs.Process.{command_args, command_program};
ghost use Rattle.std.specs.declared.io.Error.{Error};
ghost use Rattle.bm_programs.specs.Programs.{asking, failure_of, may_pass, refusal_of, unmade};
ghost use Rattle.bm_programs.specs.WorkerPrograms.{Ends, Looks, Starts, without_process};

use bm_board::Words;
use bm_latent::EndAct;
use bm_lines::Text;
use bm_master::StartFailure;
use bm_operator::ProgramRefusal;
use std::alloc::{AllocError, Global};
use std::io;
use std::io::ErrorKind;
use std::process::{Child, Command, Processes, Stdio, SystemProcess};

/// Where there is no program, no later try succeeds.
pub fn no_program() -> StartFailure
    ensures { result ≡ unmade [] }
{
    StartFailure {
        why: ProgramRefusal::NotFound,
        may_pass: false,
    }
}

// Gives a command the words behind its first one.
fn add_words(command: &mut Command, words: &[Text]) -> Result<(), AllocError>
    ensures args { OnOk result (command_args command.new ≡ command_args command.old ++ words.now) }
    ensures program { OnOk result (command_program command.new ≡ command_program command.old) }
{
    for word in words {
        command.arg(word.as_str())?;
    }
    Ok(())
}

// The command of these words, the first of which is the program.
fn command_of(alloc: Global, words: &[Text]) -> Result<Command, StartFailure>
    ensures words { IfOk result (λ c. command_program c ∷ command_args c ≡ words.now) }
    ensures why { IfErr result (λ why. why ≡ unmade words.now) }
{
    let Some((program, rest)) = words.split_first() else {
        return Err(no_program());
    };
    let wanting = StartFailure {
        why: ProgramRefusal::Memory,
        may_pass: true,
    };
    let Ok(mut command) = Command::new(alloc, program.as_str()) else {
        return Err(wanting);
    };
    match add_words(&mut command, rest) {
        Ok(()) => Ok(command),
        Err(_) => Err(wanting),
    }
}

// The command of the shell that has these words. None where memory is wanting.
fn shell(alloc: Global, words: &str) -> Option<Command>
    ensures program { IfSome result (λ c. command_program c ≡ codes "/bin/sh") }
    ensures args { IfSome result (λ c. command_args c ≡ codes "-c" ∷ words.now ∷ []) }
{
    let mut command = Command::new(alloc, "/bin/sh").ok()?;
    command.arg("-c").ok()?;
    command.arg(words).ok()?;
    command.stdin(Stdio::null());
    command.stdout(Stdio::null());
    command.stderr(Stdio::null());
    Some(command)
}

// By what the shell asks a process to end. None where memory is wanting.
fn asking(alloc: Global, id: u32) -> Option<Command>
    ensures program { IfSome result (λ c. command_program c ≡ codes "/bin/sh") }
    ensures args { IfSome result (λ c. command_args c ≡ codes "-c" ∷ asking id ∷ []) }
{
    let words = format!(in alloc; "kill {id}").ok()?;
    shell(alloc, words.as_str())
}

// Asks a process to end, by SIGTERM. The shell sends it: the process can't be mistaken, since
// nobody has waited for it. Where no shell can be started it isn't asked. The toolchain kills
// alone, and a scheduler's client may have something to take back.
fn ask<R: Processes<Started = SystemProcess>>(rt: &R, alloc: Global, id: u32) {
    let Some(mut command) = asking(alloc, id) else {
        return;
    };
    if let Ok(mut child) = command.spawn(rt) {
        let _ = child.wait();
    }
}

fn refusal_of(kind: ErrorKind) -> ProgramRefusal
    ensures { result ≡ refusal_of kind }
{
    match kind {
        ErrorKind::NotFound => ProgramRefusal::NotFound,
        ErrorKind::PermissionDenied => ProgramRefusal::Denied,
        ErrorKind::OutOfMemory => ProgramRefusal::Memory,
        _ => ProgramRefusal::System,
    }
}

// Whether a later try may succeed. A want of descriptors has no kind: 23 and 24 are ENFILE
// and EMFILE of errno(3).
fn may_pass(error: &io::Error) -> bool
    ensures { result ≡ may_pass (raw_os_error error.now) (error_kind error.now) }
{
    match error.raw_os_error() {
        Some(23 | 24) => true,
        _ => matches!(error.kind(), ErrorKind::WouldBlock | ErrorKind::OutOfMemory),
    }
}

// What the coordinator is told of an error of the system.
fn failure_of(error: &io::Error) -> StartFailure
    ensures { result ≡ failure_of error.now }
{
    StartFailure {
        why: refusal_of(error.kind()),
        may_pass: may_pass(error),
    }
}

// A process of this command, or what the system's error is called.
fn spawned<R: Processes<Started = SystemProcess>>(
    rt: &R,
    command: &mut Command,
) -> Result<Child, StartFailure>
    ensures { IfErr result (λ why. (e : Error) × (why ≡ failure_of e)) }
{
    match command.spawn(rt) {
        Ok(child) => Ok(child),
        Err(error) => Err(failure_of(&error)),
    }
}

/// The program that starts a worker, and its process where one was started and hasn't ended. When
/// it is started, asked and killed the worker's machine decides.
#[derive(Drop)]
pub struct WorkerProcess {
    words: Words,
    child: Option<Child>,
}

impl WorkerProcess {
    ghost use Rattle.std.specs.Prelude.{None};

    /// No process was started.
    pub fn new(words: Words) -> WorkerProcess
        ensures { result ≡ record { words = words; child = None } }
    {
        WorkerProcess { words, child: None }
    }

    /// Starts the process. It has an empty input, and what it prints is dropped; its errors go
    /// where those of the master go.
    pub fn start<R: Processes<Started = SystemProcess>>(
        &mut self,
        rt: &R,
        alloc: Global,
    ) -> Result<(), StartFailure>
        ensures { Starts result self.old self.new }
    {
        let mut command = match command_of(alloc, self.words.as_slice()) {
            Ok(command) => command,
            Err(why) => return Err(why),
        };
        command.stdin(Stdio::null());
        command.stdout(Stdio::null());
        command.stderr(Stdio::inherit());
        match spawned(rt, &mut command) {
            Ok(child) => {
                self.child = Some(child);
                Ok(())
            }
            Err(why) => Err(why),
        }
    }

    /// Whether the process has ended, told once.
    pub fn has_ended(&mut self) -> bool
        ensures { Looks result self.old self.new }
    {
        let Some(child) = &mut self.child else {
            return false;
        };
        if let Ok(None) = child.try_wait() {
            return false;
        }
        self.child = None;
        true
    }

    /// Asks the process to end, or kills it.
    pub fn end<R: Processes<Started = SystemProcess>>(&mut self, rt: &R, alloc: Global, act: EndAct)
        ensures { Ends act self.old self.new }
    {
        let Some(child) = &mut self.child else {
            return;
        };
        match act {
            EndAct::None => {}
            EndAct::Ask => ask(rt, alloc, child.id()),
            EndAct::Kill => {
                let _ = child.kill();
            }
        }
    }

    /// Ends a process that is still there, and waits for its end.
    pub fn kill(&mut self)
        ensures { self.new ≡ without_process self.old }
    {
        if let Some(mut child) = self.child.take()
            && child.kill().is_ok()
        {
            let _ = child.wait();
        }
    }
}
