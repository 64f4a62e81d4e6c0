//! Strs of every width of character, and bytes that are no text, behind each head that fits.

use super::then_drop;
use bm_value::{DecodeError, Value, decode_whole};
use std::alloc::{AllocError, Allocator, Global};

/// Bytes, and whether they are text.
const TEXTS: [(&[u8], bool); 15] = [
    (b"", true),
    (b"a", true),
    (b"\xc3\xa9", true),
    (b"\xe2\x82\xac", true),
    (b"\xf0\x9f\x98\x80", true),
    (b"fifteen letters", true),
    (b"sixteen letters.", true),
    (b"sixteen letters\xc3\xa9", true),
    (b"\xc3\xa9seventeen letters", true),
    (b"\xff", false),
    (b"\x80", false),
    (b"\xc3a", false),
    (b"sixteen letters\xff", false),
    (b"\x80seventeen letters", false),
    (b"sixteen letters\xe2\x82", false),
];

fn is_str<A: Allocator>(value: &Value<A>, text: &[u8]) -> bool {
    match value {
        Value::Str(found) => found.as_str().as_bytes() == text,
        _ => false,
    }
}

/// Whether the input is a str with the text, or is refused where that is none.
fn is_read(alloc: Global, input: &[u8], text: &[u8], good: bool) -> bool {
    match decode_whole(alloc, input) {
        Ok(value) => then_drop(good && is_str(&value, text), value),
        Err(fault) => !good && fault == DecodeError::BadUtf8,
    }
}

fn input_of(alloc: Global, head: &[u8], text: &[u8]) -> Result<Vec<u8>, AllocError> {
    let mut input = Vec::from_slice(alloc, head)?;
    input.extend_from_slice(text)?;
    Ok(input)
}

fn is_read_behind(alloc: Global, head: &[u8], text: &[u8], good: bool) -> bool {
    match input_of(alloc, head, text) {
        Ok(input) => then_drop(is_read(alloc, &input, text, good), input),
        Err(_) => false,
    }
}

/// Whether it is so behind each head that says so few bytes.
fn is_read_behind_each(alloc: Global, text: &[u8], good: bool) -> bool {
    let Ok(length) = u8::try_from(text.len()) else {
        return false;
    };
    is_read_behind(alloc, &[0xa0 | length], text, good)
        && is_read_behind(alloc, &[0xd9, length], text, good)
        && is_read_behind(alloc, &[0xda, 0, length], text, good)
        && is_read_behind(alloc, &[0xdb, 0, 0, 0, length], text, good)
}

#[test]
fn strs_are_read_where_they_are_utf8(rt: HostRuntime) {
    for (text, good) in &TEXTS {
        assert!(rt; is_read_behind_each(rt.alloc(), text, *good), "{text:?}");
    }
}
