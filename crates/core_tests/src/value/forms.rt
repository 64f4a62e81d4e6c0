//! The written forms of each kind, and the first faults, by the tables of the format.

use super::{fault_in, is_rewritten, is_written, then_drop, written};
use bm_value::{
    Bytes, DecodeError, EncodeError, Items, Num, Pair, Pairs, Value, ValueText, decode,
    decode_whole,
};
use std::alloc::{AllocError, Global};
use std::fmt::Display;
use std::process::Abort;
use std::test::Fail;

/// The value is written as these bytes, and they are read as that value.
fn is_form(rt: &impl Abort, alloc: Global, value: Value, bytes: &[u8]) {
    let is_right = then_drop(is_written(alloc, &value, bytes), value);
    assert!(rt; is_right && is_rewritten(alloc, bytes, bytes), "{bytes:?}");
}

fn int_in(alloc: Global, bytes: &[u8]) -> Option<i128> {
    let value = decode_whole(alloc, bytes).ok()?;
    let int = int_of(&value);
    drop(value);
    int
}

fn int_of(value: &Value) -> Option<i128> {
    match value {
        Value::Int(n) => Some(n.value()),
        _ => None,
    }
}

/// The number is written as these bytes, and they are read as that number.
fn is_number(rt: &impl Abort, alloc: Global, num: Num, n: i128, bytes: &[u8]) {
    is_form(rt, alloc, Value::Int(num), bytes);
    assert!(rt; int_in(alloc, bytes) == Some(n), "the number {n}");
}

const UNSIGNED: [(u64, &[u8]); 9] = [
    (0, b"\x00"),
    (127, b"\x7f"),
    (128, b"\xcc\x80"),
    (255, b"\xcc\xff"),
    (256, b"\xcd\x01\x00"),
    (65535, b"\xcd\xff\xff"),
    (65536, b"\xce\x00\x01\x00\x00"),
    (1 << 32, b"\xcf\x00\x00\x00\x01\x00\x00\x00\x00"),
    (u64::MAX, b"\xcf\xff\xff\xff\xff\xff\xff\xff\xff"),
];

const SIGNED: [(i64, &[u8]); 9] = [
    (-1, b"\xff"),
    (-32, b"\xe0"),
    (-33, b"\xd0\xdf"),
    (-128, b"\xd0\x80"),
    (-129, b"\xd1\xff\x7f"),
    (-32768, b"\xd1\x80\x00"),
    (-32769, b"\xd2\xff\xff\x7f\xff"),
    (-(1 << 31), b"\xd2\x80\x00\x00\x00"),
    (i64::MIN, b"\xd3\x80\x00\x00\x00\x00\x00\x00\x00"),
];

#[test]
fn numbers_take_the_fewest_bytes(rt: HostRuntime) {
    for (n, bytes) in &UNSIGNED {
        is_number(&rt, rt.alloc(), Num::of_u64(*n), i128::from(*n), bytes);
    }
    for (n, bytes) in &SIGNED {
        is_number(&rt, rt.alloc(), Num::of_i64(*n), i128::from(*n), bytes);
    }
    assert!(rt; Num::of_i64(5) == Num::of_u64(5));
}

#[derive(Clone, Copy)]
enum Kind {
    Str,
    Array,
    Map,
    Bin,
    Ext,
}

fn value_of(alloc: Global, kind: Kind, length: usize) -> Result<Value, AllocError> {
    match kind {
        Kind::Str => str_of(alloc, length),
        Kind::Array => array_of(alloc, length),
        Kind::Map => map_of(alloc, length),
        Kind::Bin => bin_of(alloc, length),
        Kind::Ext => ext_of(alloc, length),
    }
}

fn str_of(alloc: Global, length: usize) -> Result<Value, AllocError> {
    let mut string = String::new(alloc);
    for _ in 0..length {
        string.push('x')?;
    }
    Ok(Value::Str(ValueText::from_string(string)))
}

fn array_of(alloc: Global, length: usize) -> Result<Value, AllocError> {
    let mut vec = Vec::new(alloc);
    for _ in 0..length {
        vec.push(Value::Nil)?;
    }
    Ok(Value::Array(Items { vec }))
}

fn map_of(alloc: Global, length: usize) -> Result<Value, AllocError> {
    let mut vec = Vec::new(alloc);
    for _ in 0..length {
        vec.push(Pair {
            key: Value::Bool(true),
            value: Value::Nil,
        })?;
    }
    Ok(Value::Map(Pairs { vec }))
}

fn bin_of(alloc: Global, length: usize) -> Result<Value, AllocError> {
    Ok(Value::Bin(Bytes::from_vec(zeros(alloc, length)?)))
}

fn ext_of(alloc: Global, length: usize) -> Result<Value, AllocError> {
    Ok(Value::Ext(5, Bytes::from_vec(zeros(alloc, length)?)))
}

fn zeros(alloc: Global, length: usize) -> Result<Vec<u8>, AllocError> {
    let mut bytes = Vec::new(alloc);
    for _ in 0..length {
        bytes.push(0)?;
    }
    Ok(bytes)
}

/// Whether the written form begins with this head, has this length, and is read back.
fn begins(alloc: Global, value: Value, head: &[u8], length: usize) -> bool {
    let written = written(alloc, &value);
    drop(value);
    match written {
        Ok(bytes) => then_drop(is_headed(alloc, &bytes, head, length), bytes),
        Err(_) => false,
    }
}

fn is_headed(alloc: Global, bytes: &[u8], head: &[u8], length: usize) -> bool {
    bytes.starts_with(head) && bytes.len() == length && is_rewritten(alloc, bytes, bytes)
}

/// A value's kind and length, and its form's head and length.
type Head = (Kind, usize, &'static [u8], usize);

const HEADS: [Head; 20] = [
    (Kind::Str, 31, b"\xbf", 32),
    (Kind::Str, 32, b"\xd9\x20", 34),
    (Kind::Str, 256, b"\xda\x01\x00", 259),
    (Kind::Str, 65536, b"\xdb\x00\x01\x00\x00", 65541),
    (Kind::Array, 15, b"\x9f", 16),
    (Kind::Array, 16, b"\xdc\x00\x10", 19),
    (Kind::Array, 65536, b"\xdd\x00\x01\x00\x00", 65541),
    (Kind::Map, 15, b"\x8f", 31),
    (Kind::Map, 16, b"\xde\x00\x10", 35),
    (Kind::Map, 65536, b"\xdf\x00\x01\x00\x00", 131077),
    (Kind::Bin, 0, b"\xc4\x00", 2),
    (Kind::Bin, 256, b"\xc5\x01\x00", 259),
    (Kind::Bin, 65536, b"\xc6\x00\x01\x00\x00", 65541),
    (Kind::Ext, 0, b"\xc7\x00\x05", 3),
    (Kind::Ext, 1, b"\xd4\x05", 3),
    (Kind::Ext, 2, b"\xd5\x05", 4),
    (Kind::Ext, 8, b"\xd7\x05", 10),
    (Kind::Ext, 16, b"\xd8\x05", 18),
    (Kind::Ext, 256, b"\xc8\x01\x00\x05", 260),
    (Kind::Ext, 65536, b"\xc9\x00\x01\x00\x00\x05", 65542),
];

fn has_head(alloc: Global, (kind, length, head, whole): &Head) -> bool {
    match value_of(alloc, *kind, *length) {
        Ok(value) => begins(alloc, value, head, *whole),
        Err(_) => false,
    }
}

#[test]
fn heads_take_the_fewest_bytes(rt: HostRuntime) {
    for head in &HEADS {
        assert!(rt; has_head(rt.alloc(), head), "the head {:?}", head.2);
    }
}

fn ext(alloc: Global, kind: i8, bytes: &[u8]) -> Result<Value, AllocError> {
    Ok(Value::Ext(kind, Bytes::from_vec(Vec::from_slice(alloc, bytes)?)))
}

#[test]
fn scalars_and_exts_are_written_as_the_format_says(rt: HostRuntime) -> Result<(), Fail> {
    let alloc = rt.alloc();
    is_form(&rt, alloc, Value::Nil, b"\xc0");
    is_form(&rt, alloc, Value::Bool(false), b"\xc2");
    is_form(&rt, alloc, Value::Bool(true), b"\xc3");
    is_form(
        &rt,
        alloc,
        Value::Bits32(0x3f80_0000),
        b"\xca\x3f\x80\x00\x00",
    );
    is_form(
        &rt,
        alloc,
        Value::Bits64(0x3ff0_0000_0000_0000),
        b"\xcb\x3f\xf0\x00\x00\x00\x00\x00\x00",
    );
    let four = ext(alloc, -1, &[1, 2, 3, 4])?;
    is_form(&rt, alloc, four, b"\xd6\xff\x01\x02\x03\x04");
    let three = ext(alloc, 5, &[1, 2, 3])?;
    is_form(&rt, alloc, three, b"\xc7\x03\x05\x01\x02\x03");
    Ok(())
}

/// Whether the bytes are read whole, and what they spell is written as these fewer.
fn is_read_short(alloc: Global, long: &[u8], short: &[u8]) -> bool {
    match decode(alloc, long) {
        Ok((value, taken)) => {
            then_drop(
                taken == long.len() && is_written(alloc, &value, short),
                value,
            )
        }
        Err(_) => false,
    }
}

#[test]
fn longer_formats_are_read_and_written_short(rt: HostRuntime) {
    let alloc = rt.alloc();
    assert!(rt; is_read_short(alloc, b"\xcc\x05", b"\x05"));
    assert!(rt; int_in(alloc, b"\xd1\x01\x00") == Some(256));
    assert!(rt; is_rewritten(alloc, b"\xd1\x01\x00", b"\xcd\x01\x00"));
}

const FAULTS: [(&[u8], DecodeError); 8] = [
    (b"\xc1", DecodeError::Reserved),
    (b"\xa1\xff", DecodeError::BadUtf8),
    (b"\xa2\x61", DecodeError::Truncated),
    (b"", DecodeError::Truncated),
    (b"\x91\xc1", DecodeError::Reserved),
    (b"\x92\xc0", DecodeError::Truncated),
    (b"\xd9", DecodeError::Truncated),
    (b"\xa1\xff\x00", DecodeError::BadUtf8),
];

#[test]
fn tells_the_first_fault(rt: HostRuntime) {
    for (bytes, fault) in &FAULTS {
        assert!(rt; fault_in(rt.alloc(), bytes) == Some(*fault), "in {bytes:?}");
    }
}

fn int_under(value: &Value, key: &str) -> Option<i128> {
    int_of(value.get(key)?)
}

fn count_of_pairs(value: &Value) -> Option<usize> {
    match value {
        Value::Map(pairs) => Some(pairs.vec.len()),
        _ => None,
    }
}

/// Whether the value has these two pairs alone, of which the last counts.
fn has_the_last(value: &Value) -> bool {
    int_under(value, "a") == Some(2) && value.get("b").is_none() && count_of_pairs(value) == Some(2)
}

fn last_pair_is_found(alloc: Global) -> bool {
    match decode_whole(alloc, b"\x82\xa1a\x01\xa1a\x02") {
        Ok(value) => then_drop(has_the_last(&value), value),
        Err(_) => false,
    }
}

/// Whether an array has no fields.
fn array_has_none(alloc: Global) -> bool {
    match decode_whole(alloc, b"\x91\xa1a") {
        Ok(array) => then_drop(array.get("a").is_none(), array),
        Err(_) => false,
    }
}

#[test]
fn the_last_pair_with_a_key_counts(rt: HostRuntime) {
    assert!(rt; last_pair_is_found(rt.alloc()));
    assert!(rt; array_has_none(rt.alloc()));
}

fn is_told<D: Display>(alloc: Global, fault: &D, text: &str) -> bool {
    match format!(in alloc; "{fault}") {
        Ok(told) => then_drop(told.as_str() == text, told),
        Err(_) => false,
    }
}

const READ: [(DecodeError, &str); 6] = [
    (DecodeError::Truncated, "truncated"),
    (DecodeError::Reserved, "reserved byte"),
    (DecodeError::BadUtf8, "bad utf-8"),
    (DecodeError::TooDeep, "too deep"),
    (DecodeError::Trailing, "trailing bytes"),
    (DecodeError::Mem, "out of memory"),
];

const WRITE: [(EncodeError, &str); 3] = [
    (EncodeError::TooDeep, "too deep"),
    (EncodeError::TooLong, "too long"),
    (EncodeError::Mem, "out of memory"),
];

#[test]
fn refusals_have_their_texts(rt: HostRuntime) {
    for (fault, text) in &READ {
        assert!(rt; is_told(rt.alloc(), fault, text));
    }
    for (fault, text) in &WRITE {
        assert!(rt; is_told(rt.alloc(), fault, text));
    }
}
