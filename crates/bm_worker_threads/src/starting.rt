//! How the process of a command is started.

ghost use Rattle.std.specs.Prelude.{◌≡◌, ◌++◌, IfOk, OnOk, Some, drop};
ghost use Rattle.std.specs.Process.{SameEnv, SameOtherVars, SameProgramAndArgs, clears_env, command_args, command_program, command_var};
ghost use Rattle.bm_worker_threads.specs.Starting.{IsCommand, may_pass, program_of, variable};

use crate::host::Host;
use crate::marks::VARIABLE;
use bm_lines::Text;
use bm_outbox::StartFault;
use crossbeam_channel::{Receiver, Sender};
use std::alloc::{AllocError, Global};
use std::process::{Child, Command, Stdio};
use std::sync::Wait;
use std::thread;
use std::time::Duration;

/// How many texts of a command wait to be told before its pipes' threads wait in turn.
const MOST_TEXTS: usize = 8;

/// How often the start of a process or a thread is tried. So a machine that is short of them for a
/// moment costs no command.
pub(crate) const MOST_TRIES: u32 = 20;

/// How long lies between two tries. All that the worker does waits for them.
pub(crate) const PAUSE_MS: u64 = 10;

/// Whether a later try may succeed.
fn may_pass(why: StartFault) -> bool
    ensures { result ≡ may_pass why }
{
    matches!(
        why,
        StartFault::NoProcess | StartFault::NoDescriptor | StartFault::NoMemory
    )
}

/// The permits of the first texts of a command, and where more of them are given.
pub(crate) fn permits<R: Wait>(
    rt: &R,
    alloc: Global,
) -> Result<(Sender<()>, Receiver<()>), AllocError> {
    let (permits, given) = crossbeam_channel::bounded(alloc, MOST_TEXTS)?;
    for _ in 0..MOST_TEXTS {
        let _ = permits.send(rt, ());
    }
    Ok((permits, given))
}

/// The process of these words, as [`started_once`] has it. Where what is wanting may come back it
/// is tried again.
pub(crate) fn started<R>(
    rt: &R,
    alloc: Global,
    words: &[Text],
    mark: &str,
) -> Result<Child, StartFault>
where
    R: Host,
{
    for _ in 1..MOST_TRIES {
        match started_once(rt, alloc, words, mark) {
            Ok(child) => return Ok(child),
            Err(why) => {
                if !may_pass(why) {
                    return Err(why);
                }
            }
        }
        thread::sleep(rt, Duration::from_millis(PAUSE_MS));
    }
    started_once(rt, alloc, words, mark)
}

/// A process of these words with an empty input, and with pipes for its output and its errors; or
/// why it can't be started. Its environment is the worker's, with this mark.
fn started_once<R: Host>(
    rt: &R,
    alloc: Global,
    words: &[Text],
    mark: &str,
) -> Result<Child, StartFault> {
    let Ok(mut command) = command_of(alloc, words, mark) else {
        return Err(StartFault::NoMemory);
    };
    match command.spawn(rt) {
        Ok(child) => Ok(child),
        Err(error) => Err(StartFault::of(&error)),
    }
}

/// The command of these words and this mark. One without words has no program.
fn command_of(alloc: Global, words: &[Text], mark: &str) -> Result<Command, AllocError>
    ensures { IfOk result (IsCommand words.now mark.now) }
{
    let mut command = Command::new(alloc, program_of(words))?;
    set_streams(&mut command, mark)?;
    add_words(&mut command, words)?;
    Ok(command)
}

fn program_of(words: &[Text]) -> &str
    ensures { result.now ≡ program_of words.now }
{
    match words.first() {
        Some(first) => first.as_str(),
        None => "",
    }
}

/// Gives a command its streams and its mark.
fn set_streams(command: &mut Command, mark: &str) -> Result<(), AllocError>
    ensures marked { OnOk result (command_var command.new variable ≡ Some (Some mark.now)) }
    ensures others { OnOk result (SameOtherVars command.old command.new variable) }
    ensures words { OnOk result (SameProgramAndArgs command.old command.new) }
    ensures inherits { OnOk result (clears_env command.new ≡ clears_env command.old) }
{
    command.stdin(Stdio::null());
    command.stdout(Stdio::piped());
    command.stderr(Stdio::piped());
    command.env(VARIABLE, mark)?;
    Ok(())
}

/// Gives a command the words behind the first one.
fn add_words(command: &mut Command, words: &[Text]) -> Result<(), AllocError>
    ensures words { OnOk result
        (command_args command.new ≡ command_args command.old ++ drop 1 words.now) }
    ensures program { OnOk result (command_program command.new ≡ command_program command.old) }
    ensures env { OnOk result (SameEnv command.old command.new) }
{
    let Some((_, rest)) = words.split_first() else {
        return Ok(());
    };
    for word in rest {
        command.arg(word.as_str())?;
    }
    Ok(())
}
