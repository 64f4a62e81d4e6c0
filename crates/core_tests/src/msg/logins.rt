//! Logins that name, beside their session, the text of one that begins by them.

use super::{AUTH_OF_A_SESSION, AUTH_ZERO, is_written, then_drop};
use bm_lines::Text;
use bm_msg::{next_session, write_login};
use bm_value::{EncodeError, decode_whole};
use std::alloc::{AllocError, Global};

/// A login that asks for the session `s`, and names `t` for one that begins.
const AUTH_OF_BOTH: &[u8] =
    b"\x86\xaaseq_number\x00\xa2op\xa4auth\xa8username\xa2w0\xa8password\xa1p\xa7session\xa1s\xacnext_session\xa1t";

/// The texts of logins, and how they are written: a first login has the bytes of its `auth`.
const WRITTEN: [(Option<&str>, Option<&str>, &[u8]); 3] = [
    (None, None, AUTH_ZERO),
    (Some("s"), None, AUTH_OF_A_SESSION),
    (Some("s"), Some("t"), AUTH_OF_BOTH),
];

fn text_of(alloc: Global, text: Option<&str>) -> Result<Option<Text>, AllocError> {
    match text {
        Some(text) => Ok(Some(Text::from_str(alloc, text)?)),
        None => Ok(None),
    }
}

fn login(alloc: Global, session: Option<&str>, next: Option<&str>) -> Result<Vec<u8>, EncodeError> {
    let username = Text::from_str(alloc, "w0")?;
    let password = Text::from_str(alloc, "p")?;
    let session = text_of(alloc, session)?;
    let next = text_of(alloc, next)?;
    write_login(alloc, &username, &password, &session, &next)
}

fn is_login(alloc: Global, session: Option<&str>, next: Option<&str>, want: &[u8]) -> bool {
    match login(alloc, session, next) {
        Ok(bytes) => then_drop(bytes.as_slice() == want, bytes),
        Err(_) => false,
    }
}

#[test]
fn a_login_is_written_with_its_next_session(rt: HostRuntime) {
    for (session, next, want) in &WRITTEN {
        assert!(rt; is_login(rt.alloc(), *session, *next, want), "{want:?}");
    }
}

/// Logins, and the next session that each names: a text of 1 to 64 bytes, and nothing else.
const NAMED: [(&[u8], Option<&str>); 6] = [
    (AUTH_OF_A_SESSION, None),
    (AUTH_OF_BOTH, Some("t")),
    (
        b"\x86\xaaseq_number\x00\xa2op\xa4auth\xa8username\xa2w0\xa8password\xa1p\xa7session\xa1s\xacnext_session\x01",
        None,
    ),
    (
        b"\x86\xaaseq_number\x00\xa2op\xa4auth\xa8username\xa2w0\xa8password\xa1p\xa7session\xa1s\xacnext_session\xa0",
        None,
    ),
    (
        b"\x86\xaaseq_number\x00\xa2op\xa4auth\xa8username\xa2w0\xa8password\xa1p\xa7session\xa1s\xacnext_session\xd9\x40ssssssssssssssssssssssssssssssssssssssssssssssssssssssssssssssss",
        Some("ssssssssssssssssssssssssssssssssssssssssssssssssssssssssssssssss"),
    ),
    (
        b"\x86\xaaseq_number\x00\xa2op\xa4auth\xa8username\xa2w0\xa8password\xa1p\xa7session\xa1s\xacnext_session\xd9\x41sssssssssssssssssssssssssssssssssssssssssssssssssssssssssssssssss",
        None,
    ),
];

fn is_text(text: &Option<Text>, want: Option<&str>) -> bool {
    match (text, want) {
        (Some(text), Some(want)) => text.as_str() == want,
        (None, None) => true,
        _ => false,
    }
}

/// Whether the login that the bytes spell names this next session.
fn is_named(alloc: Global, bytes: &[u8], want: Option<&str>) -> bool {
    let Ok(value) = decode_whole(alloc, bytes) else {
        return false;
    };
    let next = next_session(alloc, &value);
    drop(value);
    match next {
        Ok(text) => then_drop(is_text(&text, want), text),
        Err(_) => false,
    }
}

#[test]
fn a_next_session_is_read(rt: HostRuntime) {
    for (bytes, want) in &NAMED {
        assert!(&rt; is_named(rt.alloc(), bytes, *want), "{bytes:?}");
    }
}

/// Whoever doesn't know the key reads the same `auth` without it.
#[test]
fn a_next_session_is_no_part_of_the_message(rt: HostRuntime) {
    for (bytes, _) in &NAMED {
        assert!(&rt;
            is_written(rt.alloc(), bytes, AUTH_OF_A_SESSION),
            "{bytes:?}"
        );
    }
}
