//! Values of a message's keys.

ghost use Rattle.std.specs.Prelude.{◌≡◌, codes, IfOk};
ghost use Rattle.std.specs.Option.{option_copied, option_and_then};
ghost use Rattle.bm_value.specs.Field.{field};
ghost use Rattle.bm_value.specs.View.{tree};
ghost use Rattle.bm_msg.specs.Messages.{session_of, next_session_of, is_exception};
ghost use Rattle.bm_msg.specs.Reading.{str_of, seq_of, command_number, text_at, number_at, command_at};

use bm_lines::Text;
use bm_value::Value;
use std::alloc::{AllocError, Allocator, Global};

/// Numbers of messages and of commands are below this.
pub const NUMBER_LIMIT: u64 = 1 << 63;

/// The longest session, in bytes (this project's profile).
pub(crate) const LONGEST_SESSION: usize = 64;

/// The text of a value that is a str, and nothing of any other.
pub fn str_of<A: Allocator>(value: &Value<A>) -> Option<&str>
    ensures { option_copied result ≡ str_of (tree value.now) }
{
    match value {
        Value::Str(s) => Some(s.as_str()),
        _ => None,
    }
}

/// The str under a key.
pub fn text_at<'a, A: Allocator>(message: &'a Value<A>, key: &str) -> Option<&'a str>
    ensures { option_copied result ≡ text_at (tree message.now) key.now }
{
    match message.get(key) {
        Some(value) => str_of(value),
        None => None,
    }
}

fn seq_of<A: Allocator>(value: &Value<A>) -> Option<u64>
    ensures { result ≡ seq_of (tree value.now) }
{
    match value {
        Value::Int(n) => match u64::try_from(n.value()) {
            Ok(n) if n < NUMBER_LIMIT => Some(n),
            _ => None,
        },
        _ => None,
    }
}

/// The number of a message, 0 to 2^63-1.
pub fn number_at<A: Allocator>(message: &Value<A>) -> Option<u64>
    ensures { result ≡ number_at (tree message.now) }
{
    match message.get("seq_number") {
        Some(value) => seq_of(value),
        None => None,
    }
}

/// The number below 2^63 whose decimal numeral this is: no sign, and no 0 in front of other digits.
fn command_number(text: &str) -> Option<u64>
    ensures { result ≡ command_number text.now }
{
    if text.starts_with('+') {
        return None;
    }
    if text.len() > 1 && text.starts_with('0') {
        return None;
    }
    let Ok(n) = text.parse::<u64>() else {
        return None;
    };
    if n < NUMBER_LIMIT { Some(n) } else { None }
}

/// The command that a message names.
pub fn command_at<A: Allocator>(message: &Value<A>) -> Option<u64>
    ensures { result ≡ command_at (tree message.now) }
{
    match text_at(message, "command_id") {
        Some(text) => command_number(text),
        None => None,
    }
}

/// The text of a session under a key.
fn session_at<A: Allocator>(
    alloc: Global,
    message: &Value<A>,
    key: &str,
) -> Result<Option<Text>, AllocError>
    ensures { IfOk result (λ s. s ≡ session_of (field (tree message.now) key.now)) }
{
    match text_at(message, key) {
        Some(text) if !text.is_empty() && text.len() <= LONGEST_SESSION => Ok(Some(Text::from_str(
            alloc, text,
        )?)),
        _ => Ok(None),
    }
}

/// The session that an `auth` asks to resume.
pub fn session<A: Allocator>(alloc: Global, message: &Value<A>) -> Result<Option<Text>, AllocError>
    ensures { IfOk result (λ s. s ≡ session_of (field (tree message.now) (codes "session"))) }
{
    session_at(alloc, message, "session")
}

/// The text that a session is to have which begins by this `auth`: the str of 1 to 64 bytes under
/// `next_session`. None where the key is missing, or has any other value. It stands beside
/// [`crate::Request::Auth`], whose readers need not know of it.
///
/// # Errors
///
/// Want of memory.
pub fn next_session<A: Allocator>(
    alloc: Global,
    message: &Value<A>,
) -> Result<Option<Text>, AllocError>
    ensures { IfOk result (λ s. s ≡ next_session_of (tree message.now)) }
{
    session_at(alloc, message, "next_session")
}

/// Whether a response is an exception.
pub fn is_exception<A: Allocator>(message: &Value<A>) -> bool
    ensures { result ≡ is_exception (field (tree message.now) (codes "is_exception")) }
{
    match message.get("is_exception") {
        Some(Value::Bool(b)) => *b,
        _ => false,
    }
}
