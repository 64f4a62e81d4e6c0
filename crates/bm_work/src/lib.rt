//! A build worker's side of the protocol, without sockets and processes. It has the texts of a
//! pipe, what a worker answers to its master, and the requests that it numbers, keeps and sends
//! again.
//!
//! Promised: each request has a number of its own and is kept until it is answered, and is sent
//! again with the same bytes. A repeat is answered as the first was. A pipe's texts joined are what
//! it gave, cut at line ends. A body could still want memory.
#![tactic(auto)]

mod act;
mod argv;
mod assembler;
mod hearing;
mod history;
pub mod laws;
mod reply_cache;
mod sent;
mod text_update;
mod wire;
mod worker;
mod worker_answer;

pub use act::{WorkAct, WorkRefusal};
pub use argv::Argv;
pub use assembler::Assembler;
pub use sent::{Finish, Sent};
pub use worker::Worker;
pub use worker_answer::WorkerAnswer;
