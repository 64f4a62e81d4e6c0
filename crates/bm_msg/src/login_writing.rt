//! A worker's login as bytes.

ghost use Rattle.std.specs.Prelude.{◌≡◌, ◌<◌, ◌^◌, ◌↔◌, ◌++◌, length, map, IsTrue, IfOk, OnOk, IsErrOf};
ghost use Rattle.bm_value.specs.Decoding.{IsReadBack};
ghost use Rattle.bm_value.specs.Limits.{IsShort};
ghost use Rattle.bm_value.specs.Tree.{depth, dict};
ghost use Rattle.bm_value.specs.View.{pairs_of, pair_tree};
ghost use Rattle.bm_value.specs.Writing.{written};
ghost use Rattle.bm_msg.specs.Limits.{IsShortOption};
ghost use Rattle.bm_msg.specs.Trees.{login_tree, next_session_key};

use crate::limits::{fits, option_is_short};
use crate::writing::{auth_keys, first_keys, text_key, written_map};
use bm_lines::Text;
use bm_value::{EncodeError, Pair};
use std::alloc::{AllocError, Global};

fn texts_are_short(
    username: &Text,
    password: &Text,
    session: &Option<Text>,
    next: &Option<Text>,
) -> bool
    ensures { IsTrue result ↔ ((length username.now < 2 ^ 32) × (length password.now < 2 ^ 32)
        × IsShortOption session.now × IsShortOption next.now) }
{
    fits(username.as_str())
        && fits(password.as_str())
        && option_is_short(session)
        && option_is_short(next)
}

/// Whether no part of the login is longer than 2^32-1.
fn login_is_short(
    username: &Text,
    password: &Text,
    session: &Option<Text>,
    next: &Option<Text>,
) -> bool
    ensures { IsTrue result
        ↔ IsShort (login_tree username.now password.now session.now next.now) }
{
    texts_are_short(username, password, session, next)
}

fn next_session_key(
    alloc: Global,
    keys: &mut Vec<Pair<Global>>,
    next: &Option<Text>,
) -> Result<(), AllocError>
    ensures { OnOk result (map pair_tree keys.new.items
        ≡ map pair_tree keys.old.items ++ next_session_key next.now) }
{
    match next {
        Some(next) => text_key(alloc, keys, "next_session", next),
        None => Ok(()),
    }
}

/// The pairs stand in the order in which they are sent.
fn login_pairs(
    alloc: Global,
    username: &Text,
    password: &Text,
    session: &Option<Text>,
    next: &Option<Text>,
) -> Result<Vec<Pair<Global>>, AllocError>
    ensures { IfOk result (λ v. dict (pairs_of (map pair_tree v.items))
        ≡ login_tree username.now password.now session.now next.now) }
{
    let mut keys = first_keys(alloc, 0, "auth")?;
    auth_keys(alloc, &mut keys, username, password, session)?;
    next_session_key(alloc, &mut keys, next)?;
    Ok(keys)
}

/// The written form of a login, which is request 0 of its connection. First comes the `auth` with
/// the session that the worker asks to resume, then the text of a session that begins by it.
/// Without the second it is the `auth` alone. What is written is read back, whatever follows.
///
/// # Errors
///
/// `TooLong` where a text is longer than 2^32-1 bytes; `Mem` where memory ran out.
pub fn write_login(
    alloc: Global,
    username: &Text,
    password: &Text,
    session: &Option<Text>,
    next: &Option<Text>,
) -> Result<Vec<u8>, EncodeError>
    ensures ok { IfOk result (λ v. v.items
        ≡ written (login_tree username.now password.now session.now next.now)) }
    ensures back { IfOk result (λ v.
        IsReadBack (login_tree username.now password.now session.now next.now)) }
    ensures deep { ¬ IsErrOf result EncodeError.TooDeep }
    ensures long { IsErrOf result EncodeError.TooLong
        ↔ (¬ IsShort (login_tree username.now password.now session.now next.now)) }
{
    if !login_is_short(username, password, session, next) {
        return Err(EncodeError::TooLong);
    }
    let pairs = login_pairs(alloc, username, password, session, next)?;
    Ok(written_map(alloc, pairs)?)
}
