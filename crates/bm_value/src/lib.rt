//! MessagePack trees: read from bytes and written as bytes under any allocator.
//!
//! The format is that of the MessagePack specification (msgpack.org,
//! github.com/msgpack/msgpack/blob/master/spec.md). A reader meets every format of a kind; a writer
//! uses the one with the fewest bytes. Floats are kept as their bits, timestamps as the ext that
//! they are, since the protocol interprets neither.
//!
//! Promised: `decode` gives just the tree that bytes spell, or the first fault from the left. What
//! `encode` writes is read back as the same tree. A body could still want memory at any growth.
#![tactic(auto)]

mod bytes;
mod copying;
mod decoding;
mod fault;
mod heads;
pub mod laws;
mod limits;
mod lookup;
mod num;
mod reader;
mod row;
mod value;
mod value_text;
mod writing;

pub use bytes::Bytes;
pub use decoding::{decode, decode_whole};
pub use fault::{DecodeError, EncodeError};
pub use heads::{array_head, map_head, unsigned};
pub use limits::{is_short, nests_within};
pub use num::Num;
pub use value::{Items, Pair, Pairs, Value};
pub use value_text::ValueText;
pub use writing::{encode, put_str};
