//! What a lane answers.
ghost use Rattle.std.specs.Prelude.{◌≡◌, IfOk};

use bm_session::{Refusal, Reply};
use bm_store::Chunk;
use std::alloc::AllocError;

/// What a lane answers to a step.
#[derive(Drop)]
pub enum Answer {
    /// The event was taken: what the master sends.
    Heard(Reply),
    /// The event isn't taken. The reason is never want of memory.
    Refused(Refusal),
    /// The event would give an item, and the queue is full.
    Busy,
    /// An item went into the book.
    Took,
    /// The queue has no item.
    Empty,
    /// The asked lines.
    Chunk(Chunk),
    /// The log isn't there.
    NoLog,
}

impl Answer {
    /// An equal answer.
    pub fn copy(&self) -> Result<Answer, AllocError>
        ensures { IfOk result (λ answer. answer ≡ self.now) }
    {
        Ok(match self {
            Answer::Heard(reply) => Answer::Heard(*reply),
            Answer::Refused(reason) => Answer::Refused(*reason),
            Answer::Busy => Answer::Busy,
            Answer::Took => Answer::Took,
            Answer::Empty => Answer::Empty,
            Answer::Chunk(chunk) => Answer::Chunk(chunk.copy()?),
            Answer::NoLog => Answer::NoLog,
        })
    }
}
