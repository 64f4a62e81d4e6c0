//! Tests of `bm_msg`: vectors from outside, worked examples, and that calls succeed.

mod faults;
mod forms;
mod logins;
mod memory;

use bm_lines::{Letter, Text};
use bm_msg::{
    Field, Message, MsgError, Numbered, Request, Response, read, read_text, write_answer,
    write_request, write_response,
};
use bm_value::{EncodeError, Value, decode_whole};
use std::alloc::{AllocError, Global};

const UPDATE_ZERO: &[u8] =
    b"\x84\xaaseq_number\x00\xa2op\xa6update\xaacommand_id\xa10\xa4args\x91\x92\xa6stdout\xa2a\n";

const COMPLETE_ONE: &[u8] =
    b"\x84\xaaseq_number\x01\xa2op\xa8complete\xaacommand_id\xa10\xa4args\xc0";

const RESPONSE_ZERO: &[u8] = b"\x83\xaaseq_number\x00\xa2op\xa8response\xa6result\xc0";

const EXCEPTION_ONE: &[u8] =
    b"\x84\xaaseq_number\x01\xa2op\xa8response\xa6result\xafno such command\xacis_exception\xc3";

const START_ZERO: &[u8] =
    b"\x85\xaaseq_number\x00\xa2op\xadstart_command\xaacommand_id\xa10\xaccommand_name\xa5shell\xa4args\x81\xa7command\x91\xa4true";

const AUTH_ZERO: &[u8] = b"\x84\xaaseq_number\x00\xa2op\xa4auth\xa8username\xa2w0\xa8password\xa1p";

const UPDATE_WITH_A_FLOAT: &[u8] =
    b"\x84\xaaseq_number\x00\xa2op\xa6update\xaacommand_id\xa10\xa4args\x91\x92\xa6stdout\x93\xa2x\n\x91\x01\x91\xcb\x3f\xf0\x00\x00\x00\x00\x00\x00";

const NAMED_UPDATE: &[u8] =
    b"\x84\xaaseq_number\x00\xa2op\xa6update\xaacommand_id\xa10\xa4args\x91\x92\xa3log\x92\xa1l\xa2x\n";

const AUTH_OF_A_SESSION: &[u8] =
    b"\x85\xaaseq_number\x00\xa2op\xa4auth\xa8username\xa2w0\xa8password\xa1p\xa7session\xa1s";

/// Its second item has no text.
const UPDATE_OF_A_BAD_ITEM: &[u8] =
    b"\x84\xaaseq_number\x05\xa2op\xa6update\xaacommand_id\xa10\xa4args\x92\x92\xa6stdout\xa1a\x92\xa6stdout\x90";

/// The answer, once the value is dropped: here, where the proof doesn't ask of which type it is.
fn then_drop<T: Drop>(answer: bool, _value: T) -> bool {
    answer
}

/// The message that the bytes spell. Bytes that spell no value count as no map.
fn message(alloc: Global, bytes: &[u8]) -> Result<Message, MsgError> {
    match decode_whole(alloc, bytes) {
        Ok(value) => {
            let message = read(alloc, &value);
            drop(value);
            message
        }
        Err(_) => Err(MsgError::NotMap),
    }
}

/// Why the bytes are no message.
fn fault(alloc: Global, bytes: &[u8]) -> Option<MsgError> {
    message(alloc, bytes).err()
}

fn written(alloc: Global, message: &Message) -> Result<Vec<u8>, EncodeError> {
    match message {
        Message::Request(request) => write_request(alloc, request),
        Message::Response(response) => write_response(alloc, response),
    }
}

/// Whether the message is written as these bytes.
fn is_written_as(alloc: Global, message: &Message, want: &[u8]) -> bool {
    match written(alloc, message) {
        Ok(bytes) => then_drop(bytes.as_slice() == want, bytes),
        Err(_) => false,
    }
}

/// Whether a copy of the message is written as these bytes.
fn is_copied(alloc: Global, message: &Message, want: &[u8]) -> bool {
    match message.copy(alloc) {
        Ok(copied) => then_drop(is_written_as(alloc, &copied, want), copied),
        Err(_) => false,
    }
}

/// Whether the bytes are a message whose written form is `want`, as is that of a copy.
fn is_written(alloc: Global, bytes: &[u8], want: &[u8]) -> bool {
    match message(alloc, bytes) {
        Ok(message) => {
            let is_right = is_written_as(alloc, &message, want) && is_copied(alloc, &message, want);
            then_drop(is_right, message)
        }
        Err(_) => false,
    }
}

/// A text of an update: its number, the command, the letter and the text.
type OneText = (u64, u64, Letter, &'static str);

/// Whether what is seen of the value's message is this text, or none.
fn is_seen_in(value: &Value<Global>, want: &Option<OneText>) -> bool {
    match (read_text(value), want) {
        (Some(update), Some((seq, command, letter, text))) => {
            update.seq == *seq
                && update.command == *command
                && update.letter == *letter
                && update.text == *text
        }
        (None, None) => true,
        _ => false,
    }
}

fn is_seen(alloc: Global, bytes: &[u8], want: &Option<OneText>) -> bool {
    match decode_whole(alloc, bytes) {
        Ok(value) => then_drop(is_seen_in(&value, want), value),
        Err(_) => false,
    }
}

/// Messages, and the text that is seen of each.
const SEEN: [(&[u8], Option<OneText>); 9] = [
    (UPDATE_ZERO, Some((0, 0, Letter::O, "a\n"))),
    (UPDATE_WITH_A_FLOAT, Some((0, 0, Letter::O, "x\n"))),
    (
        b"\x84\xaaseq_number\xcd\x01\x00\xa2op\xa6update\xaacommand_id\xa212\xa4args\x91\x92\xa6stderr\xa0",
        Some((256, 12, Letter::E, "")),
    ),
    (
        b"\x84\xaaseq_number\x05\xa2op\xa6update\xaacommand_id\xa10\xa4args\x91\x92\xa6header\xa3a\nb",
        Some((5, 0, Letter::H, "a\nb")),
    ),
    (NAMED_UPDATE, None),
    (COMPLETE_ONE, None),
    // No item, two of them, and an exit code.
    (
        b"\x84\xaaseq_number\x05\xa2op\xa6update\xaacommand_id\xa10\xa4args\x90",
        None,
    ),
    (
        b"\x84\xaaseq_number\x05\xa2op\xa6update\xaacommand_id\xa10\xa4args\x92\x92\xa6stdout\xa1a\x92\xa6stdout\xa1b",
        None,
    ),
    (
        b"\x84\xaaseq_number\x05\xa2op\xa6update\xaacommand_id\xa10\xa4args\x91\x92\xa2rc\x00",
        None,
    ),
];

#[test]
fn updates_of_one_text_are_seen(rt: HostRuntime) {
    for (bytes, want) in &SEEN {
        assert!(&rt; is_seen(rt.alloc(), bytes, want), "{bytes:?}");
    }
}

/// Whether it is update 0 of command 0, whose only field is this text of standard output.
fn is_update_zero(message: &Message, said: &str) -> bool {
    let Message::Request(numbered) = message else {
        return false;
    };
    let Request::Update { command, fields } = &numbered.request else {
        return false;
    };
    let [Field::Text(Letter::O, text)] = fields.as_slice() else {
        return false;
    };
    numbered.seq == 0 && *command == 0 && text.as_str() == said
}

fn is_read_as_update_zero(alloc: Global, bytes: &[u8], said: &str) -> bool {
    match message(alloc, bytes) {
        Ok(message) => then_drop(is_update_zero(&message, said), message),
        Err(_) => false,
    }
}

#[test]
fn update_is_read_as_its_field(rt: HostRuntime) {
    assert!(rt; is_read_as_update_zero(rt.alloc(), UPDATE_ZERO, "a\n"));
}

fn are_bytes(written: Result<Vec<u8>, AllocError>, want: &[u8]) -> bool {
    match written {
        Ok(bytes) => then_drop(bytes.as_slice() == want, bytes),
        Err(_) => false,
    }
}

#[test]
fn answers_are_nil_or_an_exception(rt: HostRuntime) {
    let alloc = rt.alloc();
    assert!(rt; are_bytes(write_answer(alloc, 0, None), RESPONSE_ZERO));
    let exception = write_answer(alloc, 1, Some("no such command"));
    assert!(rt; are_bytes(exception, EXCEPTION_ONE));
}

/// Adds empty arrays, one inside another.
fn push_nested(bytes: &mut Vec<u8>, depth: usize) -> Result<(), AllocError> {
    for _ in 1..depth {
        bytes.push(0x91)?;
    }
    bytes.push(0x90)?;
    Ok(())
}

/// Empty arrays, one inside another.
fn nested(alloc: Global, depth: usize) -> Option<Value<Global>> {
    let mut bytes = Vec::new(alloc);
    push_nested(&mut bytes, depth).ok()?;
    let value = decode_whole(alloc, bytes.as_slice()).ok();
    drop(bytes);
    value
}

/// Why a start with these args isn't written.
fn start_fault(alloc: Global, name: Text, args: Value<Global>) -> Option<EncodeError> {
    let request = Request::StartCommand {
        command: 0,
        name,
        args,
    };
    let start = Numbered { seq: 0, request };
    let fault = write_request(alloc, &start).err();
    drop(start);
    fault
}

/// Whether a start with args that nest this deep has the fault, or none.
fn start_has(alloc: Global, depth: usize, want: Option<EncodeError>) -> bool {
    let Ok(name) = Text::from_str(alloc, "shell") else {
        return false;
    };
    match nested(alloc, depth) {
        Some(args) => start_fault(alloc, name, args) == want,
        None => false,
    }
}

/// Why a response whose result is the value isn't written.
fn response_fault(alloc: Global, value: Value<Global>) -> Option<EncodeError> {
    let response = Response {
        seq: 0,
        result: value,
        exception: false,
    };
    let fault = write_response(alloc, &response).err();
    drop(response);
    fault
}

/// Whether a response whose result nests this deep has the fault, or none.
fn response_has(alloc: Global, depth: usize, want: Option<EncodeError>) -> bool {
    match nested(alloc, depth) {
        Some(value) => response_fault(alloc, value) == want,
        None => false,
    }
}

#[test]
fn parts_nest_31_deep_and_no_deeper(rt: HostRuntime) {
    let alloc = rt.alloc();
    let too_deep = Some(EncodeError::TooDeep);
    assert!(rt; start_has(alloc, 31, None) && start_has(alloc, 32, too_deep));
    assert!(rt; response_has(alloc, 31, None) && response_has(alloc, 32, too_deep));
}
