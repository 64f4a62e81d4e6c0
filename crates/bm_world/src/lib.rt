//! The core of a lane over every interleaving of its steps. It has a session, the queue of what its
//! events do to the logs, and the book that viewers look at. It is the reference for `bm_lane`, for
//! one thread, and what a replay runs. No server runs it, and a lane with threads can't be stepped.
//!
//! Promised: each answer is the one that the definition of a step gives. A log that is seen is a
//! beginning of what the session's trace says. A body could still want memory.
#![tactic(auto)]

mod answer;
pub mod laws;
mod step;
mod world;

pub use answer::Answer;
pub use step::Step;
pub use world::World;
