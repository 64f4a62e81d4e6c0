//! What is no message, and what is told of it.

use super::{UPDATE_OF_A_BAD_ITEM, UPDATE_ZERO, fault, is_update_zero, message, then_drop};
use bm_msg::{Incoming, MsgError, read};
use bm_value::{Value, decode_whole};
use std::alloc::{AllocError, Global};

/// Values that are no message, and why.
const NO_MESSAGES: [(&[u8], MsgError); 27] = [
    (b"\x91\xc0", MsgError::NotMap),
    (b"\x80", MsgError::NoSeq),
    (b"\x81\xaaseq_number\xff", MsgError::NoSeq),
    (
        b"\x81\xaaseq_number\xcf\x80\x00\x00\x00\x00\x00\x00\x00",
        MsgError::NoSeq,
    ),
    (b"\x82\xaaseq_number\xa10\xa2op\xa5print", MsgError::NoSeq),
    (b"\x81\xaaseq_number\x00", MsgError::NoOp),
    (b"\x82\xaaseq_number\x00\xa2op\xc4\x05print", MsgError::NoOp),
    (
        b"\x82\xaaseq_number\x03\xa2op\xa5print",
        MsgError::BadArgs(3),
    ),
    (
        b"\x83\xaaseq_number\x05\xa2op\xa6update\xaacommand_id\xa10",
        MsgError::BadArgs(5),
    ),
    (
        b"\x84\xaaseq_number\x05\xa2op\xa8complete\xaacommand_id\xa10\xa4args\x00",
        MsgError::BadArgs(5),
    ),
    (
        b"\x84\xaaseq_number\x05\xa2op\xa8complete\xaacommand_id\x00\xa4args\xc0",
        MsgError::BadArgs(5),
    ),
    (
        b"\x84\xaaseq_number\x05\xa2op\xa8complete\xaacommand_id\xa200\xa4args\xc0",
        MsgError::BadArgs(5),
    ),
    (
        b"\x84\xaaseq_number\x05\xa2op\xa8complete\xaacommand_id\xa0\xa4args\xc0",
        MsgError::BadArgs(5),
    ),
    (
        b"\x84\xaaseq_number\x05\xa2op\xa8complete\xaacommand_id\xa2-1\xa4args\xc0",
        MsgError::BadArgs(5),
    ),
    (
        b"\x84\xaaseq_number\x05\xa2op\xa8complete\xaacommand_id\xb39223372036854775808\xa4args\xc0",
        MsgError::BadArgs(5),
    ),
    (
        b"\x84\xaaseq_number\x05\xa2op\xa6update\xaacommand_id\xa10\xa4args\x91\x93\xa6stdout\xa1a\xc0",
        MsgError::BadArgs(5),
    ),
    (
        b"\x84\xaaseq_number\x05\xa2op\xa6update\xaacommand_id\xa10\xa4args\x91\x92\xa6stdout\x90",
        MsgError::BadArgs(5),
    ),
    (
        b"\x84\xaaseq_number\x05\xa2op\xa6update\xaacommand_id\xa10\xa4args\x91\x92\xa3log\x92\xa0\xa1x",
        MsgError::BadArgs(5),
    ),
    (
        b"\x84\xaaseq_number\x05\xa2op\xa6update\xaacommand_id\xa10\xa4args\x91\x92\xa3log\x91\xa1l",
        MsgError::BadArgs(5),
    ),
    (
        b"\x84\xaaseq_number\x05\xa2op\xa6update\xaacommand_id\xa10\xa4args\x91\x92\x01\xa1l",
        MsgError::BadArgs(5),
    ),
    (
        b"\x84\xaaseq_number\x00\xa2op\xadstart_command\xaacommand_id\xa10\xaccommand_name\xa5shell",
        MsgError::BadArgs(0),
    ),
    // Keys that are missing or of another kind, of each further message that has some.
    (
        b"\x85\xaaseq_number\x05\xa2op\xadstart_command\xaacommand_id\xa10\xaccommand_name\xc0\xa4args\xc0",
        MsgError::BadArgs(5),
    ),
    (
        b"\x83\xaaseq_number\x05\xa2op\xb1interrupt_command\xaacommand_id\xa10",
        MsgError::BadArgs(5),
    ),
    (
        b"\x84\xaaseq_number\x05\xa2op\xb1interrupt_command\xaacommand_id\xa10\xa3why\x01",
        MsgError::BadArgs(5),
    ),
    (
        b"\x83\xaaseq_number\x05\xa2op\xa5print\xa7message\xc4\x02hi",
        MsgError::BadArgs(5),
    ),
    (
        b"\x83\xaaseq_number\x05\xa2op\xa4auth\xa8username\xa2w0",
        MsgError::BadArgs(5),
    ),
    (
        b"\x84\xaaseq_number\x05\xa2op\xa4auth\xa8username\xc0\xa8password\xa1p",
        MsgError::BadArgs(5),
    ),
];

#[test]
fn what_is_no_message_is_told_why(rt: HostRuntime) {
    for (bytes, want) in &NO_MESSAGES {
        assert!(&rt; fault(rt.alloc(), bytes) == Some(*want), "{bytes:?}");
    }
}

/// Adds update 5 with a text of a log whose name has this many bytes.
fn push_update_of_name(bytes: &mut Vec<u8>, length: u16) -> Result<(), AllocError> {
    bytes.extend_from_slice(
        b"\x84\xaaseq_number\x05\xa2op\xa6update\xaacommand_id\xa10\xa4args\x91\x92\xa3log\x92\xda",
    )?;
    bytes.extend_from_slice(&length.to_be_bytes())?;
    for _ in 0..length {
        bytes.push(b'l')?;
    }
    bytes.extend_from_slice(b"\xa1x")
}

fn update_of_name(alloc: Global, length: u16) -> Result<Vec<u8>, AllocError> {
    let mut bytes = Vec::new(alloc);
    push_update_of_name(&mut bytes, length)?;
    Ok(bytes)
}

/// Whether a name of a log with this many bytes is a fault, and which one.
fn has_fault(alloc: Global, length: u16, want: Option<MsgError>) -> bool {
    match update_of_name(alloc, length) {
        Ok(bytes) => then_drop(fault(alloc, bytes.as_slice()) == want, bytes),
        Err(_) => false,
    }
}

#[test]
fn names_of_logs_have_255_bytes_at_most(rt: HostRuntime) {
    assert!(rt; has_fault(rt.alloc(), 255, None));
    assert!(rt; has_fault(rt.alloc(), 256, Some(MsgError::BadArgs(5))));
}

/// What bytes say.
#[derive(Clone, Copy, PartialEq, Eq)]
enum Says {
    UpdateZero,
    BadArgsOfFive,
    NoMap,
    Other,
}

fn what_was_read(read: &Result<Incoming, MsgError>) -> Says {
    match read {
        Ok(Incoming::Message(message)) if is_update_zero(message, "a\n") => Says::UpdateZero,
        Ok(Incoming::BadArgs(5)) => Says::BadArgsOfFive,
        Err(MsgError::NotMap) => Says::NoMap,
        Ok(_) | Err(_) => Says::Other,
    }
}

fn what_is_heard(alloc: Global, value: &Value<Global>) -> Says {
    let read = Incoming::read(alloc, value);
    let says = what_was_read(&read);
    drop(read);
    says
}

fn what_is_said(alloc: Global, bytes: &[u8]) -> Says {
    match decode_whole(alloc, bytes) {
        Ok(value) => {
            let says = what_is_heard(alloc, &value);
            drop(value);
            says
        }
        Err(_) => Says::Other,
    }
}

#[test]
fn bad_arguments_are_no_fault_of_what_is_heard(rt: HostRuntime) {
    let alloc = rt.alloc();
    assert!(rt; what_is_said(alloc, UPDATE_ZERO) == Says::UpdateZero);
    assert!(rt; what_is_said(alloc, UPDATE_OF_A_BAD_ITEM) == Says::BadArgsOfFive);
    assert!(rt; what_is_said(alloc, b"\x91\xc0") == Says::NoMap);
}

/// The text of each fault.
const TEXTS: [(MsgError, &str); 5] = [
    (MsgError::NotMap, "not a map"),
    (MsgError::NoSeq, "no seq_number"),
    (MsgError::NoOp, "no op"),
    (MsgError::BadArgs(5), "bad arguments"),
    (MsgError::Mem, "out of memory"),
];

fn is_told(alloc: Global, fault: MsgError, want: &str) -> bool {
    match fault.to_string(alloc) {
        Ok(told) => then_drop(told.as_str() == want, told),
        Err(_) => false,
    }
}

#[test]
fn faults_have_their_texts(rt: HostRuntime) {
    for (fault, want) in &TEXTS {
        assert!(&rt; is_told(rt.alloc(), *fault, want), "{want}");
    }
}
