//! A worker logs in, and reads how its master answers.

ghost use Rattle.std.specs.Prelude.{◌≡◌, IfOk, IfErr};
ghost use Rattle.std.specs.Option.{option_copied};
ghost use Rattle.bm_value.specs.View.{tree};
ghost use Rattle.bm_msg.specs.Meaning.{meaning};
ghost use Rattle.bm_link.specs.declared.attaching.Attached.{Attached as How};
ghost use Rattle.bm_link.specs.Causes.{FailsAtFirst};
ghost use Rattle.bm_link.specs.Greeting.{auth_bytes, IsAnswerOf, IsNoAnswer, IsAnswerIn, IsNoAnswerIn, AreAnswer, AreNoAnswer, FailsToGreet, ReadsAnswer, Greets};
ghost use Rattle.bm_link.specs.Attaching.{IsAttached};

use crate::attaching::Attached;
use crate::fault::LinkFault;
use crate::reading::{message_in, tree_in};
use crate::socket::read_first;
use crate::writing::send;
use bm_lines::Text;
use bm_msg::{Message, Response, write_login};
use bm_value::Value;
use std::alloc::{AllocError, Global};
use std::io::{Read, Write};
use tungstenite::{MaskKeys, WebSocket};

fn text_of(alloc: Global, text: Option<&str>) -> Result<Option<Text>, AllocError>
    ensures { IfOk result (λ t. t ≡ option_copied text.entry) }
{
    match text {
        Some(text) => Ok(Some(Text::from_str(alloc, text)?)),
        None => Ok(None),
    }
}

/// The bytes of the login, which is request 0.
#[tactic(auto, unfolding(crate::specs::Greeting::auth_bytes))]
fn auth_bytes(
    alloc: Global,
    name: &str,
    password: &str,
    session: Option<&str>,
    next: Option<&str>,
) -> Result<Vec<u8>, AllocError>
    ensures { IfOk result (λ v. v.items ≡ auth_bytes name.now password.now
        (option_copied session.entry) (option_copied next.entry)) }
{
    let name = Text::from_str(alloc, name)?;
    let password = Text::from_str(alloc, password)?;
    let session = text_of(alloc, session)?;
    let next = text_of(alloc, next)?;
    match write_login(alloc, &name, &password, &session, &next) {
        Ok(bytes) => Ok(bytes),
        Err(_) => Err(AllocError),
    }
}

/// How the value of a response says that the login was taken.
fn attached_in(value: &Value<Global>) -> Result<Attached, LinkFault>
    ensures attached { IfOk result (IsAttached (tree value.now)) }
    ensures fault { IfErr result (λ f. f ≡ LinkFault.BadMessage) }
    ensures bad { IfErr result (λ f. (a : How) → ¬ IsAttached (tree value.now) a) }
{
    match value {
        Value::Bool(true) => Ok(Attached::Plain),
        Value::Str(text) => {
            let text = text.as_str();
            if text == "new" {
                Ok(Attached::New)
            } else if text == "resumed" {
                Ok(Attached::Resumed)
            } else {
                Err(LinkFault::BadMessage)
            }
        }
        _ => Err(LinkFault::BadMessage),
    }
}

/// How a message answers the login.
fn answered(message: &Message) -> Result<Attached, LinkFault>
    ensures answer { IfOk result (IsAnswerOf (meaning message.now)) }
    ensures fault { IfErr result (IsNoAnswer (meaning message.now)) }
{
    let Message::Response(
        Response {
            seq: 0,
            result: value,
            exception,
            ..
        },
    ) = message
    else {
        return Err(LinkFault::BadMessage);
    };
    if *exception {
        return Err(LinkFault::BadLogin);
    }
    attached_in(value)
}

/// How a tree answers the login.
fn answer_in(alloc: Global, message: &Value<Global>) -> Result<Attached, LinkFault>
    ensures answer { IfOk result (IsAnswerIn (tree message.now)) }
    ensures fault { IfErr result (IsNoAnswerIn (tree message.now)) }
{
    match message_in(alloc, message) {
        Ok(message) => answered(&message),
        Err(fault) => Err(fault),
    }
}

/// How the bytes of a message answer the login.
fn answer_of_bytes(alloc: Global, bytes: &[u8]) -> Result<Attached, LinkFault>
    ensures answer { IfOk result (AreAnswer bytes.now) }
    ensures fault { IfErr result (AreNoAnswer bytes.now) }
{
    match tree_in(alloc, bytes) {
        Ok(tree) => answer_in(alloc, &tree),
        Err(fault) => Err(fault),
    }
}

/// Reads the answer to the login, which is to be the first message.
fn read_answer<S: Read + Write + Drop, K: MaskKeys + Drop>(
    alloc: Global,
    socket: &mut WebSocket<S, K>,
) -> Result<Attached, LinkFault>
    ensures answer { IfOk result (ReadsAnswer S.remaining socket.old socket.new) }
    ensures fault { IfErr result
        (λ f. FailsAtFirst AreNoAnswer S.remaining S.contents socket.old f socket.new) }
{
    match read_first(socket) {
        Ok(bytes) => answer_of_bytes(alloc, bytes.as_slice()),
        Err(fault) => Err(fault),
    }
}

/// Sends the login, and reads its answer.
pub(crate) fn greet<S: Read + Write + Drop, K: MaskKeys + Drop>(
    alloc: Global,
    socket: &mut WebSocket<S, K>,
    name: &str,
    password: &str,
    session: Option<&str>,
    next: Option<&str>,
) -> Result<Attached, LinkFault>
    ensures answer { IfOk result
        (Greets S.remaining S.contents name.now password.now (option_copied session.entry)
        (option_copied next.entry) socket.old socket.new) }
    ensures fault { IfErr result
        (λ f. FailsToGreet S.remaining S.contents name.now password.now
        (option_copied session.entry) (option_copied next.entry) socket.old f socket.new) }
{
    let Ok(bytes) = auth_bytes(alloc, name, password, session, next) else {
        return Err(LinkFault::Mem);
    };
    match send(alloc, socket, bytes.as_slice()) {
        Ok(()) => {}
        Err(fault) => return Err(fault),
    }
    match read_answer(alloc, socket) {
        Ok(attached) => Ok(attached),
        Err(fault) => Err(fault),
    }
}
