//! The build master: serves the workers, builds and logs of a configuration, or replays the
//! recorded events of a worker's lane.
//!
//! Promised: it is safe. All else is promised by libraries: what a configuration says by
//! `bm_config`, what a replay answers by `bm_replay`, the threads by `bm_master_threads`.
//!
//! A body could still take one command line for another: what is read of it is only tested.
#![tactic(auto)]

mod serving;

use bm_replay::{MasterArguments, read_arguments, replay_run, tell_usage};
use serving::serve_file;
use std::alloc::{AllocError, AllocGlobal};
use std::process::ExitCode;
use std::rt::Env;
use std::{env, io};

fn main(rt: HostRuntime) -> ExitCode {
    let Ok(words) = words(&rt) else {
        return ExitCode::FAILURE;
    };
    let (input, output, faults) = (rt.stdin(), rt.stdout(), rt.stderr());
    ExitCode::from(match read_arguments(words.as_slice()) {
        Some(MasterArguments::Replay { capacity }) => {
            replay_run(rt.alloc(), capacity.items, input, output, faults)
        }
        Some(MasterArguments::Serve { file }) => {
            serve_file(&rt, file, input, output, faults, rt.stderr())
        }
        None => tell_usage(faults),
    })
}

/// The words of the command line, of which the first is the program's name. Where one isn't UTF-8
/// there are none, and so they ask for nothing. The worker's program has such a function too: the
/// two share no crate of the system.
fn words<R: Env + AllocGlobal>(rt: &R) -> Result<Vec<String>, AllocError> {
    match env::args(rt) {
        Ok(words) => words.collect(rt.alloc()),
        Err(error) if error.kind() == io::ErrorKind::OutOfMemory => Err(AllocError),
        Err(_) => Ok(Vec::new(rt.alloc())),
    }
}
