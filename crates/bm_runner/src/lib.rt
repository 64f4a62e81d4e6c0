//! The runner of a build's steps, one after the other, over a port to what carries out commands.
//!
//! Promised: the report follows from what the port told, and each started step has its one entry. A
//! body could still hand the port another step's command. It could interrupt a command too soon,
//! too late or never: only tests see that. It could also want memory before the first start.
#![tactic(auto)]

mod entries;
mod port;
mod run;
mod step_place;

pub use entries::Entries;
pub use port::{Polled, Port, Told};
pub use run::{Report, run_build};
pub use step_place::place_of;
