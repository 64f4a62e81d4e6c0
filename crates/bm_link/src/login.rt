//! The first message of a connection: the worker's login.

ghost use Rattle.std.specs.Prelude.{◌≡◌, ◌⊎◌, IfOk, IfErr, IfSome, is_some};
ghost use Rattle.bm_value.specs.View.{tree};
ghost use Rattle.bm_link.specs.declared.credentials.Credentials.{Credentials as Login};
ghost use Rattle.bm_link.specs.Causes.{FailsAtFirst};
ghost use Rattle.bm_msg.specs.Meaning.{meaning};
ghost use Rattle.bm_link.specs.Logins.{is_login, IsLogin, IsLoginOf, AreLogin, GivesNoLogin, ReadsLogin, AdmitsOrFails};

use crate::credentials::{Credentials, Named};
use crate::fault::LinkFault;
use crate::reading::{message_in, reset, tree_in};
use crate::socket::read_first;
use crate::telling::send_refusal;
use crate::user::{User, place_of};
use bm_lines::Text;
use bm_msg::{Message, Numbered, Request, next_session};
use bm_value::Value;
use bumpalo::Bump;
use std::alloc::Global;
use std::io::{Read, Write};
use tungstenite::{NoMask, WebSocket};

/// Why no user is let in. It has no `thiserror`: its crate makes another fault of it, and its text
/// would be read by nobody.
#[derive(Drop)]
pub(crate) enum Unadmitted {
    /// A login with this name was read, which is that of no user.
    Rejected(Text),
    /// No login was read.
    Unread(LinkFault),
}

/// The login that a message is, with the next session that its value names.
fn credentials_of(message: Message, next: Option<Text>) -> Option<Credentials>
    ensures login { IfSome result (λ l. IsLogin (meaning message) l × (l.named.next ≡ next)) }
    ensures other { is_some result ≡ is_login (meaning message) }
{
    match message {
        Message::Request(
            Numbered {
                seq,
                request: Request::Auth {
                    username,
                    password,
                    session,
                },
            },
        ) => Some(Credentials {
            username,
            password,
            named: Named { seq, session, next },
        }),
        _ => None,
    }
}

/// The login that a tree is. What stays is copied, so the tree may be dropped afterwards.
fn login_in(alloc: Global, message: &Value<&Bump>) -> Result<Credentials, LinkFault>
    ensures login { IfOk result (IsLoginOf (tree message.now)) }
    ensures bad { IfErr result (λ f. f ≡ LinkFault.BadMessage → (l : Login)
        → ¬ IsLoginOf (tree message.now) l) }
    ensures fault { IfErr result (λ f. (f ≡ LinkFault.BadMessage) ⊎ (f ≡ LinkFault.Mem)) }
{
    let auth = match message_in(alloc, message) {
        Ok(auth) => auth,
        Err(fault) => return Err(fault),
    };
    let Ok(next) = next_session(alloc, message) else {
        return Err(LinkFault::Mem);
    };
    match credentials_of(auth, next) {
        Some(login) => Ok(login),
        None => Err(LinkFault::BadMessage),
    }
}

/// The login that bytes are, by a tree in the arena that is gone when the call returns.
fn login_from(alloc: Global, arena: &Bump, bytes: &[u8]) -> Result<Credentials, LinkFault>
    ensures login { IfOk result (AreLogin bytes.now) }
    ensures bad { IfErr result (λ f. f ≡ LinkFault.BadMessage → (l : Login)
        → ¬ AreLogin bytes.now l) }
    ensures fault { IfErr result (λ f. (f ≡ LinkFault.BadMessage) ⊎ (f ≡ LinkFault.Mem)) }
{
    match tree_in(arena, bytes) {
        Ok(tree) => login_in(alloc, &tree),
        Err(fault) => Err(fault),
    }
}

/// The login that bytes are. The arena holds the tree during the call, and is reset at its end.
fn login_of_bytes(alloc: Global, arena: &mut Bump, bytes: &[u8]) -> Result<Credentials, LinkFault>
    ensures login { IfOk result (AreLogin bytes.now) }
    ensures fault { IfErr result (GivesNoLogin bytes.now) }
{
    let login = login_from(alloc, arena, bytes);
    reset(arena)?;
    login
}

/// Reads the first message, which is to be a login.
fn read_login<S: Read + Write + Drop>(
    alloc: Global,
    arena: &mut Bump,
    socket: &mut WebSocket<S, NoMask>,
) -> Result<Credentials, LinkFault>
    ensures login { IfOk result (ReadsLogin S.remaining socket.old socket.new) }
    ensures fault { IfErr result
        (λ f. FailsAtFirst GivesNoLogin S.remaining S.contents socket.old f socket.new) }
{
    match read_first(socket) {
        Ok(bytes) => login_of_bytes(alloc, arena, bytes.as_slice()),
        Err(fault) => Err(fault),
    }
}

/// Reads the login, and finds its user. A login of no user is told so.
pub(crate) fn admit<S: Read + Write + Drop>(
    alloc: Global,
    arena: &mut Bump,
    socket: &mut WebSocket<S, NoMask>,
    users: &[User],
) -> Result<(usize, Named), Unadmitted>
    ensures { AdmitsOrFails S.remaining S.contents users.now socket.old result socket.new }
{
    let credentials = match read_login(alloc, arena, socket) {
        Ok(credentials) => credentials,
        Err(fault) => return Err(Unadmitted::Unread(fault)),
    };
    let username = credentials.username.as_str();
    match place_of(users, username, credentials.password.as_str()) {
        Some(place) => Ok((place, credentials.named)),
        None => {
            send_refusal(alloc, socket, credentials.named.seq, "bad login");
            Err(Unadmitted::Rejected(credentials.username))
        }
    }
}
