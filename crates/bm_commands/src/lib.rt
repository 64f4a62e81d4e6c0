//! What a worker does with its commands: of which is told next and what, and how a command ended.
//! It says which process is killed or looked at, and when.
//!
//! A step goes from what the worker's first thread hands in to what it carries out. It waits for
//! nothing and reads no clock. Texts, processes and pipes stay with the thread.
//!
//! Promised: the table of `Rows.antt` and `Queues.antt`, input for input, and the laws of
//! `Laws.antt` over whatever comes. A body could still want memory where a command begins. A thread
//! could leave an effect undone, hand in what it hasn't seen, or count its time wrongly.
#![tactic(auto)]

mod ending;
mod laws;
mod queues;
mod row;
mod table;
mod values;

pub use laws::{
    ends_are_told_once, interrupted_commands_give_no_code, lost_commands_are_silent,
    standstills_end_nothing, ticks_wait_for_the_wake, turns_are_fair,
};
pub use queues::CommandQueues;
pub use values::{ChildState, CommandPhase, CommandRow, Effect, Input, ProcessInput, ProcessLook};
