//! A block of a log at its place.

ghost use Rattle.std.specs.Prelude.{◌≡◌, IfOk};

use bm_lines::Block;
use std::alloc::AllocError;

/// A block of a log, and how many lines of the log stand before it.
#[derive(Drop)]
pub struct Placed {
    pub first: u64,
    pub block: Block,
}

impl Placed {
    /// An equal one, which shares the lines.
    pub fn copy(&self) -> Result<Placed, AllocError>
        ensures { IfOk result (λ p. p ≡ self.now) }
    {
        Ok(Placed {
            first: self.first,
            block: self.block.copy()?,
        })
    }
}
