//! What a worker hears.

ghost use Rattle.std.specs.Prelude.{◌≡◌, ◌<◌, IfOk, Some, None};
ghost use Rattle.std.specs.Option.{option_to_list};
ghost use Rattle.bm_msg.specs.Meaning.{asked};
ghost use Rattle.bm_work.specs.Core.{runs_among, start_answer, answer_among, words_in, act_of, started_by};

use crate::act::WorkAct;
use crate::argv::Argv;
use crate::worker_answer::WorkerAnswer;
use bm_msg::{Request, Response};
use bm_value::Value;
use std::alloc::{AllocError, Global};

/// How many commands run at most.
const COMMANDS: usize = 4;

pub(crate) fn runs(running: &[u64], command: u64) -> bool
    ensures { result ≡ runs_among running.now command }
{
    running.iter().any(|&other| other == command)
}

/// The answer to a request that comes for the first time, and the words of a command that it names.
pub(crate) fn judge(
    alloc: Global,
    running: &[u64],
    request: &Request,
) -> Result<(WorkerAnswer, Option<Argv>), AllocError>
    ensures answer { IfOk result (λ r. r.0 ≡ answer_among running.now (asked request.now)) }
    ensures argv { IfOk result (λ r. r.1 ≡ words_in (asked request.now)) }
{
    let answer = match request {
        Request::StartCommand {
            command,
            name,
            args,
        } => {
            let argv = Argv::of_args(alloc, args)?;
            let answer = start(running, *command, name.as_str(), &argv);
            return Ok((answer, argv));
        }
        Request::InterruptCommand { command, .. } => {
            if runs(running, *command) {
                WorkerAnswer::Done
            } else {
                WorkerAnswer::NoSuchCommand
            }
        }
        Request::Print { .. } | Request::Keepalive | Request::Shutdown => WorkerAnswer::Done,
        Request::GetWorkerInfo => WorkerAnswer::Info,
        _ => WorkerAnswer::NoSuchOperation,
    };
    Ok((answer, None))
}

/// The answer to a start of the command with these words.
fn start(running: &[u64], command: u64, name: &str, argv: &Option<Argv>) -> WorkerAnswer
    ensures { result ≡ start_answer running.now command name.now argv.now }
{
    if name != "shell" {
        WorkerAnswer::NoSuchCommandName
    } else if argv.is_none() {
        WorkerAnswer::BadArguments
    } else if runs(running, command) {
        WorkerAnswer::AlreadyRuns
    } else if running.len() >= COMMANDS {
        WorkerAnswer::TooManyCommands
    } else {
        WorkerAnswer::Done
    }
}

/// What is to be done for the request, where this is its answer.
pub(crate) fn act(request: Request, answer: WorkerAnswer, argv: Option<Argv>) -> WorkAct
    requires { argv ≡ words_in (asked request) }
    ensures { result ≡ act_of (asked request) answer }
{
    match request {
        Request::StartCommand { command, .. } => match argv {
            Some(argv) if answer.is_done() => WorkAct::Run { command, argv },
            _ => WorkAct::Nothing,
        },
        Request::InterruptCommand { command, .. } => {
            if answer.is_done() {
                WorkAct::Interrupt(command)
            } else {
                WorkAct::Nothing
            }
        }
        Request::Print { message } => WorkAct::Print(message),
        Request::GetWorkerInfo => WorkAct::Info,
        Request::Shutdown => WorkAct::Shutdown,
        _ => WorkAct::Nothing,
    }
}

/// The command that the request starts, where this is its answer.
pub(crate) fn started(request: &Request, answer: WorkerAnswer) -> Option<u64>
    ensures { option_to_list result ≡ started_by (asked request.now) answer }
{
    match request {
        Request::StartCommand { command, .. } if answer.is_done() => Some(*command),
        _ => None,
    }
}
