//! A value under another allocator.

ghost use Rattle.std.specs.Prelude.{◌≡◌, IfOk};
ghost use Rattle.bm_value.specs.View.{tree, items_tree, pair_tree, pairs_tree};

use crate::bytes::Bytes;
use crate::value::{Items, Pair, Pairs, Value};
use crate::value_text::ValueText;
use std::alloc::{AllocError, Allocator};

fn text<A: Allocator, B: Allocator + Copy>(
    alloc: B,
    text: &ValueText<A>,
) -> Result<ValueText<B>, AllocError>
    ensures { IfOk result (λ t. t ≡ text.now) }
{
    ValueText::from_str(alloc, text.as_str())
}

fn bytes<A: Allocator, B: Allocator>(alloc: B, bytes: &Bytes<A>) -> Result<Bytes<B>, AllocError>
    ensures { IfOk result (λ b. b ≡ bytes.now) }
{
    Ok(Bytes::from_vec(Vec::from_slice(alloc, bytes.as_slice())?))
}

#[cycle(copy)]
fn copied<A: Allocator, B: Allocator + Copy>(
    alloc: B,
    value: &Value<A>,
) -> Result<Value<B>, AllocError>
    ensures { IfOk result (λ v. tree v ≡ tree value.now) }
{
    match value {
        Value::Nil => Ok(Value::Nil),
        Value::Bool(b) => Ok(Value::Bool(*b)),
        Value::Int(n) => Ok(Value::Int(*n)),
        Value::Bits32(n) => Ok(Value::Bits32(*n)),
        Value::Bits64(n) => Ok(Value::Bits64(*n)),
        Value::Str(s) => Ok(Value::Str(text(alloc, s)?)),
        Value::Bin(s) => Ok(Value::Bin(bytes(alloc, s)?)),
        Value::Array(items) => Ok(Value::Array(items_copied(alloc, items)?)),
        Value::Map(pairs) => Ok(Value::Map(pairs_copied(alloc, pairs)?)),
        Value::Ext(kind, s) => Ok(Value::Ext(*kind, bytes(alloc, s)?)),
    }
}

#[cycle(copy)]
fn items_copied<A: Allocator, B: Allocator + Copy>(
    alloc: B,
    items: &Items<A>,
) -> Result<Items<B>, AllocError>
    ensures { IfOk result (λ x. items_tree x ≡ items_tree items.now) }
{
    let mut made = Vec::with_capacity(alloc, items.vec.len())?;
    for item in &items.vec {
        made.push(copied(alloc, item)?)?;
    }
    Ok(Items { vec: made })
}

#[cycle(copy)]
fn pairs_copied<A: Allocator, B: Allocator + Copy>(
    alloc: B,
    pairs: &Pairs<A>,
) -> Result<Pairs<B>, AllocError>
    ensures { IfOk result (λ x. pairs_tree x ≡ pairs_tree pairs.now) }
{
    let mut made = Vec::with_capacity(alloc, pairs.vec.len())?;
    for pair in &pairs.vec {
        made.push(pair_copied(alloc, pair)?)?;
    }
    Ok(Pairs { vec: made })
}

#[cycle(copy)]
fn pair_copied<A: Allocator, B: Allocator + Copy>(
    alloc: B,
    pair: &Pair<A>,
) -> Result<Pair<B>, AllocError>
    ensures { IfOk result (λ x. pair_tree x ≡ pair_tree pair.now) }
{
    let key = copied(alloc, &pair.key)?;
    let value = copied(alloc, &pair.value)?;
    Ok(Pair { key, value })
}

impl<A: Allocator> Value<A> {
    /// An equal tree whose parts lie in `alloc`. Lists and pairs have no `copy` of their own, since
    /// the copy of a tree goes into an allocator that is named.
    /// It only passes on, since the cycle of calls begins behind it.
    ///
    /// # Errors
    ///
    /// `AllocError` where `alloc` refused a request; what was copied so far is given back.
    pub fn copy_into<B: Allocator + Copy>(&self, alloc: B) -> Result<Value<B>, AllocError>
        ensures { IfOk result (λ v. tree v ≡ tree self.now) }
    {
        copied(alloc, self)
    }
}
