//! Made for `tests/gate/refused_memory`, which refuses each request for memory in turn. A call that
//! meets want of memory changes nothing, and answers when it's made again. In the gate no request
//! is refused, and no call is made twice.

use super::{
    AUTH_OF_A_SESSION, COMPLETE_ONE, EXCEPTION_ONE, NAMED_UPDATE, START_ZERO, UPDATE_OF_A_BAD_ITEM,
    UPDATE_ZERO, message, then_drop, written,
};
use bm_msg::{Message, MsgError, read};
use bm_value::{DecodeError, EncodeError, Value, decode_whole};
use std::alloc::{AllocError, Global};

fn message_again(alloc: Global, bytes: &[u8]) -> Result<Message, MsgError> {
    match message(alloc, bytes) {
        Ok(read) => Ok(read),
        Err(_) => message(alloc, bytes),
    }
}

fn copied_again(alloc: Global, message: &Message) -> Result<Message, AllocError> {
    match message.copy(alloc) {
        Ok(copied) => Ok(copied),
        Err(_) => message.copy(alloc),
    }
}

fn written_again(alloc: Global, message: &Message) -> Result<Vec<u8>, EncodeError> {
    match written(alloc, message) {
        Ok(bytes) => Ok(bytes),
        Err(_) => written(alloc, message),
    }
}

/// Whether the message is written as these bytes.
fn is_written_again(alloc: Global, message: &Message, want: &[u8]) -> bool {
    match written_again(alloc, message) {
        Ok(bytes) => then_drop(bytes.as_slice() == want, bytes),
        Err(_) => false,
    }
}

/// Whether a copy of the message is written as these bytes.
fn is_copied_again(alloc: Global, message: &Message, want: &[u8]) -> bool {
    match copied_again(alloc, message) {
        Ok(copied) => then_drop(is_written_again(alloc, &copied, want), copied),
        Err(_) => false,
    }
}

/// Whether the message and its copy are written as these bytes, with one refused request at the
/// most.
fn stands_refusal(alloc: Global, bytes: &[u8]) -> bool {
    match message_again(alloc, bytes) {
        Ok(message) => {
            let is_right = is_written_again(alloc, &message, bytes)
                && is_copied_again(alloc, &message, bytes);
            then_drop(is_right, message)
        }
        Err(_) => false,
    }
}

#[test]
fn refused_updates_are_read_and_written_again(rt: HostRuntime) {
    for bytes in &[UPDATE_ZERO, NAMED_UPDATE, COMPLETE_ONE] {
        assert!(&rt; stands_refusal(rt.alloc(), bytes), "{bytes:?}");
    }
}

#[test]
fn refused_orders_and_answers_are_read_and_written_again(rt: HostRuntime) {
    for bytes in &[START_ZERO, EXCEPTION_ONE, AUTH_OF_A_SESSION] {
        assert!(&rt; stands_refusal(rt.alloc(), bytes), "{bytes:?}");
    }
}

fn decoded_again(alloc: Global, bytes: &[u8]) -> Result<Value<Global>, DecodeError> {
    match decode_whole(alloc, bytes) {
        Ok(value) => Ok(value),
        Err(_) => decode_whole(alloc, bytes),
    }
}

/// Whether the reader, which isn't called again, has the fault with the value of the bytes.
fn is_refused(alloc: Global, bytes: &[u8], fault: MsgError) -> bool {
    match decoded_again(alloc, bytes) {
        Ok(value) => then_drop(read(alloc, &value).err() == Some(fault), value),
        Err(_) => false,
    }
}

/// Bad arguments are told whatever memory there is, though an item that could be copied stands
/// before the bad one.
#[test]
fn bad_arguments_are_told_without_memory(rt: HostRuntime) {
    assert!(rt; is_refused(rt.alloc(), UPDATE_OF_A_BAD_ITEM, MsgError::BadArgs(5)));
}
