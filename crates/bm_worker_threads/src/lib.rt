//! What a build worker does around its session: processes of commands, and a thread for each of
//! their pipes and for its connection. One mailbox tells it of all of them.
//!
//! `bm_commands` decides about commands. Here its effects are carried out, and what is told is put
//! into the session's outbox, which `bm_worker_session` sends.
//!
//! Promised: what the machine tells next is what waits next, of the command that it names. A
//! command begins with the line of its words. Words of the command line ask for a worker exactly
//! where `Arguments` of the specs says. A ready stream gives and takes what its own stream does.
//! What a turn of a link gives is followed by what it asks, and by nothing else of the session.
//!
//! Inside the crate the machine of the commands hears what a pipe or a process tells once. Where
//! the machine keeps a text, it goes to the end of its own process's texts. An effect touches its
//! own process alone (`Carrying.antt`). A tick does what the machine asks, until it asks no more.
//! Exact is how a connection ends by what its link answers, what a login names, and when a silent
//! master is asked. So are the words and marks by which programs are started.
//!
//! A body could still leave mail lying, read no pipe, or never come back. What threads, pipes,
//! processes and scripts do has no contract: `worker_tests` and the tests of the programs stand in
//! for that.
#![tactic(auto)]

mod arguments;
mod build_worker;
mod carrying;
mod closing;
mod connection;
mod elapsed;
mod hearing;
mod host;
mod mailbox;
mod marks;
mod pipe_reader;
mod pipe_threads;
mod process_parts;
mod processes;
mod ready_stream;
mod run;
mod session;
mod session_texts;
mod silence;
mod socket_watch;
mod spare_threads;
mod starting;
mod sweeping;
mod thread_time;

pub use arguments::{Arguments, USAGE, read_arguments, words};
pub use mailbox::{PipeEvent, ProcessEvent, WorkerMail};
pub use marks::Marks;
pub use pipe_reader::PipeReader;
pub use ready_stream::ReadyStream;
pub use run::work_run;
pub use session::new_session;
pub use session_texts::SessionTexts;
