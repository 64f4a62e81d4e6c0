//! What a viewer is answered.

ghost use Rattle.std.specs.Prelude.{◌≡◌, IfOk};

use bm_lines::Text;
use bm_session::Results;
use std::alloc::AllocError;
use thiserror::Error;

/// Lines of a log that a viewer asked for.
#[derive(Drop)]
pub struct Chunk {
    /// The place that was asked for, also where the log ends before it.
    pub first_line: u64,
    /// How many lines there are.
    pub lines: u64,
    /// For each line its letter in lower case, its text and a line end.
    pub content: Text,
}

impl Chunk {
    /// An equal chunk.
    pub fn copy(&self) -> Result<Chunk, AllocError>
        ensures { IfOk result (λ c. c ≡ self.now) }
    {
        Ok(Chunk {
            first_line: self.first_line,
            lines: self.lines,
            content: self.content.copy()?,
        })
    }
}

/// How far a log is.
#[derive(Clone, Copy, PartialEq, Eq)]
pub struct LogState {
    /// How many lines it has; 2^64-1 where it has more.
    pub lines: u64,
    /// How its command ended, once it did.
    pub ended: Option<Results>,
}

/// Why a viewer gets no lines.
#[derive(Clone, Copy, Debug, PartialEq, Eq, Error)]
pub enum ViewRefusal {
    /// The log isn't there.
    #[error("no log")]
    NoLog,
    /// The published copy of a book couldn't be entered. A book itself never answers this.
    #[error("closed")]
    Closed,
    /// Memory is wanting.
    #[error("out of memory")]
    Mem,
}
