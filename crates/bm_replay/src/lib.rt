//! The command line of `buildmaster`, and its replay of the recorded events of a worker's lane.
//!
//! Promised: exactly which words of a command line ask for what (`specs/Arguments.antt`). Exactly
//! what each line of a script is (`specs/Script.antt`): inside the crate `read_line` says so. The
//! bytes of what a worker can say are read as the event that `specs/Wire.antt` has for them. An
//! input is read whole, up to its bound. By the laws of `laws.rt` what a worker said stands in its
//! logs.
//!
//! A body could still do another step than a line asks for, and answer it in other words. What is
//! done and written for a line is only tested. A definition of the answers would write the table of
//! texts once more. Inside the crate `read_hex`, `read_event` and `cut_line` have clauses too.
#![tactic(auto)]

mod answers;
mod arguments;
mod capacity;
mod incoming;
pub mod laws;
mod replay;
mod script;

pub use arguments::{MasterArguments, read_arguments, tell_usage};
pub use capacity::Capacity;
pub use replay::replay_run;
pub use script::{MOST_BYTES, read_up_to};
