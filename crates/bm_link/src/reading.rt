//! From bytes to a tree, from a tree to its message, and the end of a tree's arena.
//!
//! A link has a function for each kind of message that it reads. One for all would be given by its
//! caller what is made of a tree, and the clause on that.

ghost use Rattle.std.specs.Prelude.{◌≡◌, ◌≤◌, ◌⊎◌, IfOk, IfErr};
ghost use Rattle.bm_value.specs.Spelling.{Spells};
ghost use Rattle.bm_value.specs.Tree.{Tree, depth};
ghost use Rattle.bm_value.specs.View.{tree};
ghost use Rattle.bm_msg.specs.Meaning.{Meaning, meaning};
ghost use Rattle.bm_msg.specs.Messages.{IsMessage};
ghost use Rattle.bm_link.specs.Faults.{unread_fault};

use crate::fault::LinkFault;
use bm_msg::{Message, MsgError, read};
use bm_value::{DecodeError, Value, decode_whole};
use bumpalo::Bump;
use std::alloc::{Allocator, Global};

/// The tree that bytes spell.
pub(crate) fn tree_in<A: Allocator + Copy>(alloc: A, bytes: &[u8]) -> Result<Value<A>, LinkFault>
    ensures found { IfOk result (λ v. Spells bytes.now (tree v) × (depth (tree v) ≤ 32)) }
    ensures only { IfOk result (λ v. (t : Tree) → Spells bytes.now t → depth t ≤ 32 → t ≡ tree v) }
    ensures bad { IfErr result (λ f. f ≡ LinkFault.BadMessage → (t : Tree) → Spells bytes.now t
        → ¬ (depth t ≤ 32)) }
    ensures fault { IfErr result (λ f. (f ≡ LinkFault.BadMessage) ⊎ (f ≡ LinkFault.Mem)) }
{
    match decode_whole(alloc, bytes) {
        Ok(tree) => Ok(tree),
        Err(DecodeError::Mem) => Err(LinkFault::Mem),
        Err(_) => Err(LinkFault::BadMessage),
    }
}

/// The fault of a value that is no message, or for which memory is wanting.
pub(crate) fn unread_fault(error: &MsgError) -> LinkFault
    ensures { result ≡ unread_fault error.now }
{
    match error {
        MsgError::Mem => LinkFault::Mem,
        _ => LinkFault::BadMessage,
    }
}

/// The message that a tree is. What stays is copied, so the tree may be dropped afterwards.
pub(crate) fn message_in<A: Allocator>(
    alloc: Global,
    value: &Value<A>,
) -> Result<Message, LinkFault>
    ensures found { IfOk result (λ m. IsMessage (tree value.now) (meaning m)) }
    ensures only { IfOk result (λ m. (n : Meaning) → IsMessage (tree value.now) n → n ≡ meaning m) }
    ensures bad { IfErr result (λ f. f ≡ LinkFault.BadMessage → (n : Meaning)
        → ¬ IsMessage (tree value.now) n) }
    ensures fault { IfErr result (λ f. (f ≡ LinkFault.BadMessage) ⊎ (f ≡ LinkFault.Mem)) }
{
    match read(alloc, value) {
        Ok(message) => Ok(message),
        Err(error) => Err(unread_fault(&error)),
    }
}

/// Resets an arena whose trees are gone.
pub(crate) fn reset(arena: &mut Bump) -> Result<(), LinkFault>
    ensures { IfErr result (λ f. f ≡ LinkFault.Arena) }
{
    match arena.reset() {
        Ok(()) => Ok(()),
        Err(_) => Err(LinkFault::Arena),
    }
}
