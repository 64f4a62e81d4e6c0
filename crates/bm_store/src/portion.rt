//! A portion of the text of asked lines, which is bounded in bytes.

ghost use Rattle.std.specs.Prelude.{◌≡◌, ◌+◌, ◌++◌, ◌≤◌, ◌<◌, length, map, drop, IfOk, IfSome, MatchOption, string_bytes};
ghost use Rattle.bm_session.specs.Trace.{joined};
ghost use Rattle.bm_store.specs.Book.{placed};
ghost use Rattle.bm_store.specs.Placing.{block_at};
ghost use Rattle.bm_store.specs.Portions.{IsPortion};

use crate::gather::{lines_of_part, seek};
use crate::placed::Placed;
use bm_lines::Text;
use std::alloc::{AllocError, Global};

/// A portion of the text of asked lines, and where the rest begins. It is bounded in bytes: bounded
/// in lines it may have megabytes, and each reader holds one. The price: each look steps over the
/// bytes of its first block that were told before.
#[derive(Drop)]
pub struct Portion {
    /// The text of the asked lines, behind `skip` bytes that were told before.
    pub content: Text,
    /// How many of the asked lines, from the first on, the rest begins behind.
    pub lines: u64,
    /// How many bytes of the text of the lines behind these were told.
    pub skip: usize,
    /// Whether nothing is left.
    pub is_last: bool,
}

/// Appends what a text has behind its first `skip` bytes, as far as there is room for in `most`
/// bytes. Answers how many bytes of the text were told, where some are left. Then there is room
/// for three bytes at most, since characters aren't cut.
///
/// An error where memory is wanting, or where `skip` lies inside of a character.
fn append_part(
    out: &mut String,
    text: &str,
    skip: usize,
    most: usize,
) -> Result<Option<usize>, AllocError>
    requires { length (string_bytes out.old) ≤ most }
    ensures short { IfOk result (λ _. length (string_bytes out.new) ≤ most) }
    ensures full { IfOk result (λ r. IfSome r (λ _. most < length (string_bytes out.new) + 4)) }
    ensures text { IfOk result (λ r. MatchOption r
        (string_bytes out.new ≡ string_bytes out.old ++ drop skip text.now)
        (λ told. (string_bytes out.old ++ drop skip text.now
        ≡ string_bytes out.new ++ drop told text.now)
        × (skip < length text.now) × (told < length text.now))) }
{
    if text.len() <= skip {
        return Ok(None);
    }
    let Some((_, rest)) = text.split_at_checked(skip) else {
        return Err(AllocError);
    };
    let room = most - out.len();
    if rest.len() <= room {
        out.push_str(rest)?;
        return Ok(None);
    }
    let (first, _) = rest.split_at(rest.floor_char_boundary(room));
    out.push_str(first)?;
    Ok(Some(skip + first.len()))
}

/// A portion of the content of the asked lines of a log whose blocks stand at their places. It
/// begins behind the first `skip` bytes, and has `most` bytes at most.
///
/// An error where memory is wanting, or where `skip` lies inside of a character.
pub fn gather_portion(
    alloc: Global,
    blocks: &[Placed],
    offset: u64,
    limit: u64,
    skip: usize,
    most: usize,
) -> Result<Portion, AllocError>
    requires { blocks.now ≡ placed (map block_at blocks.now) }
    ensures { IfOk result
        (λ p. IsPortion (joined (map block_at blocks.now)) offset limit skip most p) }
{
    let (start, before) = seek(blocks, offset);
    let mut content = String::new(alloc);
    let mut at = start;
    let mut before = before;
    let mut left = limit;
    let mut skip = skip;
    while at < blocks.len() && left > 0 {
        let block = &blocks[at].block;
        let text = block.part(before, left);
        if let Some(told) = append_part(&mut content, text, skip, most)? {
            return Ok(Portion {
                content: Text::from_string(content),
                lines: limit - left,
                skip: told,
                is_last: false,
            });
        }
        skip = skip.saturating_sub(text.len());
        left -= lines_of_part(block, before, left);
        before = before.saturating_sub(block.len() as u64);
        at += 1;
    }
    Ok(Portion {
        content: Text::from_string(content),
        lines: limit - left,
        skip: 0,
        is_last: true,
    })
}
