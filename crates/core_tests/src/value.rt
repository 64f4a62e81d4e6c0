//! Tests of `bm_value`: vectors from outside, that calls succeed, and refused memory.

mod depth;
mod forms;
mod memory;
mod texts;
mod vectors;

use bm_value::{DecodeError, EncodeError, Value, decode, decode_whole, encode};
use std::alloc::{Allocator, Global};

/// The answer, once the value is dropped: here, where the proof doesn't ask of which type it is.
fn then_drop<T: Drop>(answer: bool, _value: T) -> bool {
    answer
}

/// The written form, under an allocator.
fn written<A: Allocator, B: Allocator>(
    alloc: B,
    value: &Value<A>,
) -> Result<Vec<u8, B>, EncodeError> {
    let mut out = Vec::new(alloc);
    encode(value, &mut out)?;
    Ok(out)
}

fn is_written<A: Allocator, B: Allocator>(alloc: B, value: &Value<A>, bytes: &[u8]) -> bool {
    match written(alloc, value) {
        Ok(out) => then_drop(out.as_slice() == bytes, out),
        Err(_) => false,
    }
}

/// What the bytes decode to, written again.
fn rewritten<A: Allocator + Copy>(alloc: A, bytes: &[u8]) -> Result<Vec<u8, A>, DecodeError> {
    let value = decode_whole(alloc, bytes)?;
    let out = written(alloc, &value);
    drop(value);
    match out {
        Ok(out) => Ok(out),
        Err(_) => Err(DecodeError::Mem),
    }
}

/// Whether what the first bytes decode to is written as the others.
fn is_rewritten<A: Allocator + Copy>(alloc: A, bytes: &[u8], again: &[u8]) -> bool {
    match rewritten(alloc, bytes) {
        Ok(out) => then_drop(out.as_slice() == again, out),
        Err(_) => false,
    }
}

/// Whether the value is copied, and the copy is written as these bytes.
fn is_copied<A: Allocator, B: Allocator + Copy>(
    alloc: Global,
    value: &Value<A>,
    into: B,
    bytes: &[u8],
) -> bool {
    match value.copy_into(into) {
        Ok(copy) => then_drop(is_written(alloc, &copy, bytes), copy),
        Err(_) => false,
    }
}

/// Why the bytes begin with no value.
fn fault_in<A: Allocator + Copy>(alloc: A, bytes: &[u8]) -> Option<DecodeError> {
    decode(alloc, bytes).err()
}
