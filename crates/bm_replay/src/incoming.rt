//! A recorded message of the worker, from hex digits to an event.

ghost use Rattle.std.specs.Prelude.{◌≡◌, ◌⊎◌, ℕ, List, Ok, IfOk, IfErr};
ghost use Rattle.bm_replay.specs.Hex.{Write};
ghost use Rattle.bm_replay.specs.Wire.{HearsRequests};
ghost use Rattle.bm_replay.specs.declared.incoming.Unread.TheVariants.{Hex, OutOfMemory};

use bm_msg::MsgError;
use bm_session::Event;
use bm_value::{DecodeError, decode_whole};
use bumpalo::Bump;
use hex::FromHexError;
use std::alloc::{AllocError, Allocator, Global};
use thiserror::Error;

/// Why hex digits are no event.
#[derive(Debug, Drop, Error)]
pub enum Unread {
    /// They are no hex digits, or an odd number of them.
    #[error("bad hex")]
    Hex,
    /// The bytes spell no tree.
    #[error("{0}")]
    Spelling(DecodeError),
    /// The tree is no message.
    #[error("{0}")]
    Meaning(MsgError),
    #[error("out of memory")]
    OutOfMemory,
}

impl From<AllocError> for Unread {
    ghost from_gives = { λ _ e. e ≡ OutOfMemory };

    fn from(_error: AllocError) -> Unread {
        Unread::OutOfMemory
    }
}

/// The bytes that hex digits of either case write, with spaces anywhere among them.
///
/// # Errors
///
/// `Hex` exactly where they write none; `OutOfMemory` where memory ran out.
fn read_hex<A: Allocator + Copy>(alloc: A, text: &[u8]) -> Result<Vec<u8, A>, Unread>
    ensures found { IfOk result (λ v. Write text.now v.items) }
    ensures refused { IfErr result (λ e. (e ≡ OutOfMemory)
        ⊎ ((e ≡ Hex) × ((bytes : List ℕ) → ¬ Write text.now bytes))) }
{
    let digits = text
        .iter()
        .copied()
        .filter(|byte| *byte != b' ')
        .collect::<Vec<u8, A>>(alloc)?;
    match hex::decode(alloc, digits) {
        Ok(bytes) => Ok(bytes),
        Err(FromHexError::OutOfMemory) => Err(Unread::OutOfMemory),
        Err(_) => Err(Unread::Hex),
    }
}

/// Reads the event that hex digits record. The bytes and the tree of the message lie in the arena,
/// and are gone when the call returns. What stays is copied out of it.
pub fn read_event(alloc: Global, arena: &Bump, digits: &[u8]) -> Result<Event, Unread>
    ensures { IfOk result
        (λ event. (bytes : List ℕ) × Write digits.now bytes × HearsRequests bytes (Ok event)) }
{
    let bytes = read_hex(arena, digits)?;
    event_of(alloc, arena, bytes.as_slice())
}

/// The event that the bytes of a message are. Its tree lies in the arena, and is gone when the call
/// returns. For the bytes of each request that a worker can say it is the event that schedules
/// deliver, or want of memory. What other bytes are, `decode_whole` and `Event::of_value` say, and
/// nothing else is called.
fn event_of(alloc: Global, arena: &Bump, bytes: &[u8]) -> Result<Event, Unread>
    ensures { HearsRequests bytes.now result }
{
    let tree = match decode_whole(arena, bytes) {
        Ok(tree) => tree,
        Err(DecodeError::Mem) => return Err(Unread::OutOfMemory),
        Err(fault) => return Err(Unread::Spelling(fault)),
    };
    match Event::of_value(alloc, &tree) {
        Ok(event) => Ok(event),
        Err(MsgError::Mem) => Err(Unread::OutOfMemory),
        Err(fault) => Err(Unread::Meaning(fault)),
    }
}
