//! Updates of one text as bytes, written without a tree.

ghost use Rattle.std.specs.Prelude.{◌≡◌, ◌<◌, ◌^◌, ◌++◌, pos, codes, length, IfOk, OnOk};
ghost use Rattle.bm_value.specs.Tree.{int, str};
ghost use Rattle.bm_value.specs.Writing.{written, map_head, array_head};
ghost use Rattle.bm_msg.specs.Trees.{stream_of};
ghost use Rattle.bm_work.specs.Stream.{text as text_of, asked_by, request_bytes};

use bm_lines::Letter;
use bm_msg::stream_name;
use bm_value::{array_head, map_head, put_str, unsigned};
use std::alloc::{AllocError, Global};

/// The most bytes that stand before the text.
const FRONT: usize = 82;

/// Appends the keys before the items, and their values. After want of memory a part may stand
/// there.
fn put_front(out: &mut Vec<u8>, seq: u64, command: &str) -> Result<(), AllocError>
    requires { length command.now < 2 ^ 32 }
    ensures { OnOk result (out.new.items ≡ out.old.items ++ map_head 4
        ++ written (str (codes "seq_number")) ++ written (int (pos seq))
        ++ written (str (codes "op")) ++ written (str (codes "update"))
        ++ written (str (codes "command_id")) ++ written (str command.now)) }
{
    map_head(out, 4)?;
    put_str(out, "seq_number")?;
    unsigned(out, seq)?;
    put_str(out, "op")?;
    put_str(out, "update")?;
    put_str(out, "command_id")?;
    put_str(out, command)
}

/// Appends the items: one, which is the text. After want of memory a part may stand there.
fn put_items(out: &mut Vec<u8>, letter: Letter, text: &str) -> Result<(), AllocError>
    requires { length text.now < 2 ^ 32 }
    ensures { OnOk result (out.new.items ≡ out.old.items ++ written (str (codes "args"))
        ++ array_head 1 ++ array_head 2
        ++ written (str (stream_of letter)) ++ written (str text.now)) }
{
    put_str(out, "args")?;
    array_head(out, 1)?;
    array_head(out, 2)?;
    put_str(out, stream_name(letter))?;
    put_str(out, text)
}

/// The bytes of the update with that number and one text of the command.
#[tactic(auto, using(crate::proofs::TextUpdates::text_updates), unfolding(crate::specs::Stream::request_bytes))]
pub(crate) fn text_update(
    alloc: Global,
    seq: u64,
    command: u64,
    letter: Letter,
    text: &str,
) -> Result<Vec<u8>, AllocError>
    requires { length text.now < 2 ^ 32 }
    ensures { IfOk result (λ v. v.items
        ≡ request_bytes seq (asked_by (text_of command letter text.now))) }
{
    let number = command.to_string(alloc)?;
    let mut out = Vec::with_capacity(alloc, FRONT + text.len())?;
    put_front(&mut out, seq, number.as_str())?;
    put_items(&mut out, letter, text)?;
    Ok(out)
}
