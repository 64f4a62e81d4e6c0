//! What a build master knows of its workers, and what it does with a worker's process. It decides
//! alone: who drives it starts, stops and ends the process.
//!
//! [`Latent`] is the table of a latent worker (Buildbot manual, "Latent Workers"). Its process is
//! started once a build wants it, and stopped once it has been idle for long enough.
//! [`WorkerState`] says which worker takes builds, [`WorkerMachine`] what is done with its program.
//! [`Deadline`] says when a process that is to end is killed, and [`StartTries`] for how long a
//! start is tried. [`TickCounter`] counts the ticks that have passed.
//!
//! Promised: each call is what `specs/` says, and the laws of `MachineLaws.antt` over whatever
//! comes. A body could still get away with nothing here; a driver could, which tells an event too
//! late, twice or never.
#![tactic(auto)]

mod deadline;
mod event;
mod machine;
mod machine_laws;
mod start_tries;
mod tick_counter;
mod worker_event;
mod worker_input;
mod worker_machine;
mod worker_state;

pub use deadline::{Deadline, EndAct};
pub use event::{Act, LatentEvent, LatentState};
pub use machine::Latent;
pub use machine_laws::{
    none_is_forgotten, none_is_killed_unasked, none_is_started_unwanted, one_program_runs,
    told_once_to_shut_down,
};
pub use start_tries::StartTries;
pub use tick_counter::{TICK_MS, TickCounter, millis};
pub use worker_event::{ProcessAction, WorkerAction, WorkerEvent};
pub use worker_input::{WorkerEffect, WorkerInput};
pub use worker_machine::WorkerMachine;
pub use worker_state::WorkerState;
