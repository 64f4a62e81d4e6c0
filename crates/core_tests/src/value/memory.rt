//! Small heaps, claimed lengths, and each request for memory refused in turn.

use super::vectors::{START_ZERO, UPDATE_ZERO, VECTORS};
use super::{fault_in, is_copied, is_rewritten, then_drop};
use bm_value::{Bytes, DecodeError, EncodeError, Value, ValueText, decode, decode_whole, encode};
use linked_list_allocator::LocalHeap;
use refusing::Refusing;
use std::alloc::{AllocError, Allocator, Global};
use std::process::Abort;
use std::test::Fail;

const CLAIMS: [&[u8]; 5] = [
    b"\xdd\xff\xff\xff\xff",
    b"\xdf\xff\xff\xff\xff",
    b"\xdb\xff\xff\xff\xff",
    b"\xc6\xff\xff\xff\xff",
    b"\xc9\xff\xff\xff\xff\x00",
];

/// The heads of so many arrays, each in the one before it.
fn nested(alloc: Global, depth: usize) -> Result<Vec<u8>, AllocError> {
    let mut bytes = Vec::new(alloc);
    for _ in 0..depth {
        bytes.extend_from_slice(b"\xdd\xff\xff\xff\xff")?;
    }
    Ok(bytes)
}

/// Whether so many arrays have the fault.
fn has_fault(alloc: Global, heap: &LocalHeap, depth: usize, fault: DecodeError) -> bool {
    match nested(alloc, depth) {
        Ok(bytes) => then_drop(fault_in(heap, &bytes) == Some(fault), bytes),
        Err(_) => false,
    }
}

/// Whether each claim is truncated.
fn are_truncated(heap: &LocalHeap) -> bool {
    for bytes in &CLAIMS {
        if fault_in(heap, bytes) != Some(DecodeError::Truncated) {
            return false;
        }
    }
    true
}

#[test]
fn no_memory_is_taken_by_a_claimed_length(rt: HostRuntime) -> Result<(), Fail> {
    let heap = LocalHeap::new(rt.alloc(), 4096)?;
    assert!(rt; are_truncated(&heap));
    assert!(rt; has_fault(rt.alloc(), &heap, 32, DecodeError::Truncated));
    assert!(rt; has_fault(rt.alloc(), &heap, 33, DecodeError::TooDeep));
    assert!(rt; then_drop(heap.used() == 0, heap));
    Ok(())
}

#[test]
fn a_small_heap_is_want_of_memory(rt: HostRuntime) -> Result<(), Fail> {
    let heap = LocalHeap::new(rt.alloc(), 64)?;
    assert!(rt; fault_in(&heap, UPDATE_ZERO) == Some(DecodeError::Mem));
    assert!(rt; then_drop(heap.used() == 0, heap));
    Ok(())
}

/// Whether there was such a request: refused, it is want of memory, and then the bytes are read.
fn decode_is_refused(rt: &impl Abort, alloc: Global, bytes: &[u8], at: u64) -> bool {
    let heap = Refusing::new(alloc, at);
    let fault = fault_in(&heap, bytes);
    let is_met = heap.is_spent();
    let is_right = if is_met {
        fault == Some(DecodeError::Mem) && is_rewritten(&heap, bytes, bytes)
    } else {
        fault.is_none()
    };
    drop(heap);
    assert!(rt; is_right, "request {at}");
    is_met
}

#[test]
fn each_refused_request_of_decode_is_want_of_memory(rt: HostRuntime) {
    let mut met = 0u32;
    for bytes in &VECTORS {
        for at in 1..1000 {
            if !decode_is_refused(&rt, rt.alloc(), bytes, at) {
                break;
            }
            met = met.saturating_add(1);
        }
    }
    // Each vector asks at least for its map.
    assert!(rt; met >= 7);
}

#[test]
fn a_fault_before_the_refused_request_is_told(rt: HostRuntime) {
    // Two requests come before the fault: the first item's text, and the places of the items.
    let heap = Refusing::new(rt.alloc(), 3);
    assert!(rt; fault_in(&heap, b"\x92\xb1seventeen letters\xc1") == Some(DecodeError::Reserved));
    assert!(rt; then_drop(!heap.is_spent(), heap));
}

/// Whether want of memory left the output at its one byte, and the value is then written behind it.
fn is_left<A: Allocator>(fault: Option<EncodeError>, value: &Value, out: &mut Vec<u8, A>) -> bool {
    fault == Some(EncodeError::Mem) && out.as_slice() == [7].as_slice() && is_appended(value, out)
}

fn is_appended<A: Allocator>(value: &Value, out: &mut Vec<u8, A>) -> bool {
    encode(value, out).is_ok() && out.as_slice().strip_prefix(&[7]) == Some(START_ZERO)
}

/// Whether want of memory, where there was any, left the output, and the value is written then.
fn is_left_or_written(value: &Value, heap: &Refusing<Global>) -> bool {
    match Vec::from_slice(heap, &[7]) {
        Ok(mut out) => {
            let fault = encode(value, &mut out).err();
            let is_right = if heap.is_spent() {
                is_left(fault, value, &mut out)
            } else {
                fault.is_none()
            };
            then_drop(is_right, out)
        }
        Err(_) => false,
    }
}

/// Whether there was such a request: refused, it leaves the output, and then the value is written.
fn encode_is_refused(rt: &impl Abort, alloc: Global, value: &Value, at: u64) -> bool {
    let heap = Refusing::new(alloc, at);
    let is_right = is_left_or_written(value, &heap);
    let is_met = then_drop(heap.is_spent(), heap);
    assert!(rt; is_right, "request {at}");
    is_met
}

/// How many requests of encode were refused.
fn refused_by_encode(rt: &impl Abort, alloc: Global, value: &Value) -> u32 {
    let mut met = 0u32;
    for at in 2..1000 {
        if !encode_is_refused(rt, alloc, value, at) {
            break;
        }
        met = met.saturating_add(1);
    }
    met
}

#[test]
fn each_refused_request_of_encode_leaves_the_output(rt: HostRuntime) -> Result<(), Fail> {
    let value = decode_whole(rt.alloc(), START_ZERO)?;
    let met = refused_by_encode(&rt, rt.alloc(), &value);
    assert!(rt; then_drop(met >= 1, value));
    Ok(())
}

/// Whether there was such a request: refused, it is an error, and then the value is copied.
fn copy_is_refused(rt: &impl Abort, alloc: Global, value: &Value, at: u64) -> bool {
    let heap = Refusing::new(alloc, at);
    let is_err = value.copy_into(&heap).is_err();
    let is_met = heap.is_spent();
    let is_right = is_err == is_met && (!is_met || is_copied(alloc, value, &heap, START_ZERO));
    drop(heap);
    assert!(rt; is_right, "request {at}");
    is_met
}

/// How many requests of a copy were refused.
fn refused_by_copy(rt: &impl Abort, alloc: Global, value: &Value) -> u32 {
    let mut met = 0u32;
    for at in 1..1000 {
        if !copy_is_refused(rt, alloc, value, at) {
            break;
        }
        met = met.saturating_add(1);
    }
    met
}

#[test]
fn each_refused_request_of_a_copy_is_want_of_memory(rt: HostRuntime) -> Result<(), Fail> {
    let value = decode_whole(rt.alloc(), START_ZERO)?;
    let met = refused_by_copy(&rt, rt.alloc(), &value);
    assert!(rt; then_drop(met >= 2, value));
    Ok(())
}

fn text_is_copied<A: Allocator + Copy>(text: &ValueText<A>, want: &str) -> bool {
    match text.copy() {
        Ok(copy) => then_drop(copy.as_str() == want, copy),
        Err(_) => false,
    }
}

fn bytes_are_copied<A: Allocator + Copy>(bytes: &Bytes<A>, want: &[u8]) -> bool {
    match bytes.copy() {
        Ok(copy) => then_drop(copy.as_slice() == want, copy),
        Err(_) => false,
    }
}

/// Whether the text's first copy is refused, and the second is made.
fn text_is_refused_once(alloc: Global, want: &str) -> bool {
    let heap = Refusing::new(alloc, 2);
    let is_refused = match ValueText::from_str(&heap, want) {
        Ok(text) => then_drop(text.copy().is_err() && text_is_copied(&text, want), text),
        Err(_) => false,
    };
    then_drop(is_refused, heap)
}

/// Whether the first copy of the bytes is refused, and the second is made.
fn bytes_are_refused_once(alloc: Global, want: &[u8]) -> bool {
    let heap = Refusing::new(alloc, 2);
    let is_refused = match Vec::from_slice(&heap, want) {
        Ok(vec) => {
            let bytes = Bytes::from_vec(vec);
            then_drop(
                bytes.copy().is_err() && bytes_are_copied(&bytes, want),
                bytes,
            )
        }
        Err(_) => false,
    };
    then_drop(is_refused, heap)
}

#[test]
fn texts_and_bytes_are_copied_or_refused(rt: HostRuntime) {
    assert!(rt; text_is_refused_once(rt.alloc(), "seventeen letters"));
    assert!(rt; bytes_are_refused_once(rt.alloc(), &[1, 2]));
}
