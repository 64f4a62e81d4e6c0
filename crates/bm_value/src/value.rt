//! The kinds of value.

ghost use Rattle.std.specs.Prelude.{◌≡◌, IfOk};
ghost use Rattle.bm_value.specs.Tree.{str};
ghost use Rattle.bm_value.specs.View.{tree};

use crate::bytes::Bytes;
use crate::num::Num;
use crate::value_text::ValueText;
use std::alloc::{AllocError, Allocator, Global};

/// A MessagePack value, whose parts lie in the allocator `A`. The calls that make one want an `A`
/// that is `Copy`: an arena or a small heap is given as `&Bump` or `&LocalHeap`.
#[cycle(value)]
#[derive(Drop)]
pub enum Value<A: Allocator = Global> {
    Nil,
    Bool(bool),
    Int(Num),
    /// A float of 32 bits, as its bits.
    Bits32(u32),
    /// A float of 64 bits, as its bits.
    Bits64(u64),
    Str(ValueText<A>),
    Bin(Bytes<A>),
    Array(Items<A>),
    Map(Pairs<A>),
    /// An application's own type, and its bytes.
    Ext(i8, Bytes<A>),
}

impl<A: Allocator + Copy> Value<A> {
    /// The str of this text, under the allocator.
    pub fn from_str(alloc: A, text: &str) -> Result<Value<A>, AllocError>
        ensures { IfOk result (λ v. tree v ≡ str text.now) }
    {
        Ok(Value::Str(ValueText::from_str(alloc, text)?))
    }
}

/// The items of an array, in order.
#[cycle(value)]
#[derive(Drop)]
pub struct Items<A: Allocator> {
    pub vec: Vec<Value<A>, A>,
}

/// The pairs of a map, in order. Keys are of any kind, and the same key may come twice.
#[cycle(value)]
#[derive(Drop)]
pub struct Pairs<A: Allocator> {
    pub vec: Vec<Pair<A>, A>,
}

/// A key and its value.
#[cycle(value)]
#[derive(Drop)]
pub struct Pair<A: Allocator> {
    pub key: Value<A>,
    pub value: Value<A>,
}
