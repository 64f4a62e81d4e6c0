//! Lines of a log from a place on, gathered from its blocks.

ghost use Rattle.std.specs.Prelude.{◌≡◌, ◌++◌, ◌≤◌, ◌<◌, ◌+◌, length, map, drop, Some, IfOk, string_bytes, slice_get};
ghost use Rattle.bm_lines.specs.Lines.{content_of};
ghost use Rattle.bm_session.specs.Trace.{joined, slice};
ghost use Rattle.bm_store.specs.Book.{chunk_of, placed};
ghost use Rattle.bm_store.specs.Placing.{block_at};
ghost use Rattle.bm_store.specs.declared.placed.Placed.{Placed};

use crate::chunk::Chunk;
use crate::placed::Placed;
use bm_lines::{Block, Text};
use std::alloc::{AllocError, Global};

/// The place of the last block that begins at or before the line `offset`, or 0 without blocks.
/// Also how many lines stand before that line, counted from the block's first.
pub fn seek(blocks: &[Placed], offset: u64) -> (usize, u64)
    requires { blocks.now ≡ placed (map block_at blocks.now) }
    ensures inside { result.0 ≤ length blocks.now }
    ensures rest { drop offset (joined (map block_at blocks.now))
        ≡ drop result.1 (joined (map block_at (drop result.0 blocks.now))) }
    ensures last { (p : Placed) → slice_get blocks.now (result.0 + 1) ≡ Some p → offset < p.first }
{
    let mut low = 0;
    let mut before = 0;
    let mut high = blocks.len();
    while high - low > 1 {
        let middle = low + (high - low) / 2;
        let first = blocks[middle].first;
        if first <= offset {
            low = middle;
            before = first;
        } else {
            high = middle;
        }
    }
    (low, offset - before)
}

/// How many lines of a block are those behind the first `skip`, `limit` at most.
pub fn lines_of_part(block: &Block, skip: u64, limit: u64) -> u64
    ensures { result ≡ length (slice block.now skip limit) }
{
    (block.len() as u64).saturating_sub(skip).min(limit)
}

/// Appends the content of lines, and counts them. They are those of the blocks from the place
/// `start` on, behind the first `skip` lines, `limit` at most.
///
/// To keep the text of small blocks side by side would save visits at the next look. It doubles the
/// code of a look.
fn gather(
    out: &mut String,
    blocks: &[Placed],
    start: usize,
    skip: u64,
    limit: u64,
) -> Result<u64, AllocError>
    ensures content { IfOk result (λ _. string_bytes out.new
        ≡ string_bytes out.old
        ++ content_of (slice (joined (map block_at (drop start blocks.now))) skip limit)) }
    ensures count { IfOk result
        (λ n. n ≡ length (slice (joined (map block_at (drop start blocks.now))) skip limit)) }
{
    let mut at = start;
    let mut skip = skip;
    let mut left = limit;
    while at < blocks.len() && left > 0 {
        let block = &blocks[at].block;
        out.push_str(block.part(skip, left))?;
        left -= lines_of_part(block, skip, left);
        skip = skip.saturating_sub(block.len() as u64);
        at += 1;
    }
    Ok(limit - left)
}

/// The asked lines of a log whose blocks stand at their places.
pub fn lines(alloc: Global, blocks: &[Placed], offset: u64, limit: u64) -> Result<Chunk, AllocError>
    requires { blocks.now ≡ placed (map block_at blocks.now) }
    ensures { IfOk result
        (λ c. c ≡ chunk_of offset (slice (joined (map block_at blocks.now)) offset limit)) }
{
    let (start, skip) = seek(blocks, offset);
    let mut content = String::new(alloc);
    let lines = gather(&mut content, blocks, start, skip, limit)?;
    Ok(Chunk {
        first_line: offset,
        lines,
        content: Text::from_string(content),
    })
}
