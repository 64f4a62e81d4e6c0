//! Updates of one text, seen without a copy.

ghost use Rattle.std.specs.Prelude.{◌≡◌, codes, Some, IfSome, IfNone};
ghost use Rattle.bm_value.specs.Field.{field};
ghost use Rattle.bm_value.specs.Tree.{Tree, array, none, item};
ghost use Rattle.bm_value.specs.View.{tree};
ghost use Rattle.bm_msg.specs.Messages.{IsMessage};
ghost use Rattle.bm_msg.specs.Reading.{items_at, seen};
ghost use Rattle.bm_msg.specs.Updates.{says, IsTextUpdate};

use crate::items::{ReadItem, only_item};
use crate::keys::{command_at, number_at, text_at};
use bm_lines::Letter;
use bm_value::Value;
use std::alloc::Allocator;

/// An update of one text, as most messages of a worker are. The text lies in the message.
#[derive(Clone, Copy)]
pub struct TextUpdate<'a> {
    pub seq: u64,
    pub command: u64,
    pub letter: Letter,
    pub text: &'a str,
}

/// The only item of an update.
fn item_at<A: Allocator>(message: &Value<A>) -> Option<ReadItem<'_>>
    ensures some { IfSome result (λ s. seen s ≡ items_at (tree message.now)) }
    ensures none { IfNone result ((only : Tree)
        → ¬ (field (tree message.now) (codes "args") ≡ Some (array (item only none)))) }
{
    match message.get("args") {
        Some(Value::Array(items)) => only_item(items),
        _ => None,
    }
}

/// The message, where it is an update whose only item is a text. Nothing is copied.
pub fn read_text<A: Allocator>(message: &Value<A>) -> Option<TextUpdate<'_>>
    // What is answered is the message that the value is.
    ensures some { IfSome result (λ u. IsMessage (tree message.now) (says u)) }
    // No update whose only item is a text is passed over.
    ensures none { IfNone result (¬ IsTextUpdate (tree message.now)) }
{
    let seq = number_at(message)?;
    match text_at(message, "op") {
        Some("update") => {}
        Some(_) | None => return None,
    }
    let command = command_at(message)?;
    match item_at(message) {
        Some(ReadItem::Text(letter, text)) => Some(TextUpdate {
            seq,
            command,
            letter,
            text,
        }),
        Some(ReadItem::Named(..) | ReadItem::Rc(_) | ReadItem::Nothing | ReadItem::Wrong) | None =>
            None,
    }
}
