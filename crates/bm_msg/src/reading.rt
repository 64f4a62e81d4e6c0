//! Which message a value is.

ghost use Rattle.std.specs.Prelude.{◌≡◌, ◌≢◌, ◌<◌, ◌^◌, true, false, codes, IfOk, IfErr, OnErr, IsErrOf, IsSome, Ok};
ghost use Rattle.std.specs.Option.{option_copied, option_map, option_and_then};
ghost use Rattle.bm_value.specs.Field.{field};
ghost use Rattle.bm_value.specs.View.{tree};
ghost use Rattle.bm_msg.specs.declared.fault.MsgError.{MsgError};
ghost use Rattle.bm_msg.specs.Meaning.{Meaning, asked, meaning};
ghost use Rattle.bm_msg.specs.Messages.{IsMessage, IsFaulty, is_exception, result_of};
ghost use Rattle.bm_msg.specs.Answers.{Reads};
ghost use Rattle.bm_msg.specs.Reading.{reading, op_read, response_at, items_at, fault_at, auth_at, update_at, complete_at, print_at, start_at, interrupt_at, asked_at};

use crate::fault::MsgError;
use crate::field::Fields;
use crate::items::fields;
use crate::keys::{command_at, is_exception, number_at, session, str_of, text_at};
use crate::message::{Message, Numbered, Response};
use crate::request::Request;
use bm_lines::Text;
use bm_value::Value;
use std::alloc::{AllocError, Allocator, Global};

fn auth<A: Allocator>(alloc: Global, message: &Value<A>) -> Result<Option<Request>, AllocError>
    ensures found { IfOk result (λ r. option_map asked r ≡ auth_at (tree message.now)) }
    ensures told { OnErr result (IsSome (auth_at (tree message.now))) }
{
    let Some(username) = text_at(message, "username") else {
        return Ok(None);
    };
    let Some(password) = text_at(message, "password") else {
        return Ok(None);
    };
    Ok(Some(Request::Auth {
        username: Text::from_str(alloc, username)?,
        password: Text::from_str(alloc, password)?,
        session: session(alloc, message)?,
    }))
}

fn items<A: Allocator>(alloc: Global, message: &Value<A>) -> Result<Option<Fields>, AllocError>
    ensures found { IfOk result (λ f. f ≡ items_at (tree message.now)) }
    ensures told { OnErr result (IsSome (items_at (tree message.now))) }
{
    match message.get("args") {
        Some(Value::Array(items)) => fields(alloc, items),
        _ => Ok(None),
    }
}

fn update<A: Allocator>(alloc: Global, message: &Value<A>) -> Result<Option<Request>, AllocError>
    ensures found { IfOk result (λ r. option_map asked r ≡ update_at (tree message.now)) }
    ensures told { OnErr result (IsSome (update_at (tree message.now))) }
{
    let Some(command) = command_at(message) else {
        return Ok(None);
    };
    match items(alloc, message)? {
        Some(fields) => Ok(Some(Request::Update { command, fields })),
        None => Ok(None),
    }
}

/// The fault of a complete: None for a value that is neither nil nor a str.
fn fault<A: Allocator>(
    alloc: Global,
    message: &Value<A>,
) -> Result<Option<Option<Text>>, AllocError>
    ensures found { IfOk result (λ f. f ≡ fault_at (tree message.now)) }
    ensures told { OnErr result (IsSome (fault_at (tree message.now))) }
{
    match message.get("args") {
        Some(Value::Nil) => Ok(Some(None)),
        Some(Value::Str(s)) => Ok(Some(Some(Text::from_str(alloc, s.as_str())?))),
        _ => Ok(None),
    }
}

fn complete<A: Allocator>(alloc: Global, message: &Value<A>) -> Result<Option<Request>, AllocError>
    ensures found { IfOk result (λ r. option_map asked r ≡ complete_at (tree message.now)) }
    ensures told { OnErr result (IsSome (complete_at (tree message.now))) }
{
    let Some(command) = command_at(message) else {
        return Ok(None);
    };
    match fault(alloc, message)? {
        Some(fault) => Ok(Some(Request::Complete { command, fault })),
        None => Ok(None),
    }
}

fn print<A: Allocator>(alloc: Global, message: &Value<A>) -> Result<Option<Request>, AllocError>
    ensures found { IfOk result (λ r. option_map asked r ≡ print_at (tree message.now)) }
    ensures told { OnErr result (IsSome (print_at (tree message.now))) }
{
    match text_at(message, "message") {
        Some(text) => Ok(Some(Request::Print {
            message: Text::from_str(alloc, text)?,
        })),
        None => Ok(None),
    }
}

fn start_command<A: Allocator>(
    alloc: Global,
    message: &Value<A>,
) -> Result<Option<Request>, AllocError>
    ensures found { IfOk result (λ r. option_map asked r ≡ start_at (tree message.now)) }
    ensures told { OnErr result (IsSome (start_at (tree message.now))) }
{
    let Some(command) = command_at(message) else {
        return Ok(None);
    };
    let Some(name) = text_at(message, "command_name") else {
        return Ok(None);
    };
    match message.get("args") {
        Some(args) => Ok(Some(Request::StartCommand {
            command,
            name: Text::from_str(alloc, name)?,
            args: args.copy_into(alloc)?,
        })),
        None => Ok(None),
    }
}

fn interrupt_command<A: Allocator>(
    alloc: Global,
    message: &Value<A>,
) -> Result<Option<Request>, AllocError>
    ensures found { IfOk result (λ r. option_map asked r ≡ interrupt_at (tree message.now)) }
    ensures told { OnErr result (IsSome (interrupt_at (tree message.now))) }
{
    let Some(command) = command_at(message) else {
        return Ok(None);
    };
    match text_at(message, "why") {
        Some(why) => Ok(Some(Request::InterruptCommand {
            command,
            why: Text::from_str(alloc, why)?,
        })),
        None => Ok(None),
    }
}

/// What a request with this operation asks, by the operations of the Buildbot manual's protocol.
/// None where a key is missing or of another kind.
#[tactic(auto, unfolding(crate::specs::Reading::asked_at))]
fn request<A: Allocator>(
    alloc: Global,
    op: &str,
    message: &Value<A>,
) -> Result<Option<Request>, AllocError>
    ensures found { IfOk result (λ r. option_map asked r ≡ asked_at op.now (tree message.now)) }
    ensures told { OnErr result (IsSome (asked_at op.now (tree message.now))) }
{
    match op {
        "auth" => auth(alloc, message),
        "update" => update(alloc, message),
        "complete" => complete(alloc, message),
        "print" => print(alloc, message),
        "keepalive" => Ok(Some(Request::Keepalive)),
        "get_worker_info" => Ok(Some(Request::GetWorkerInfo)),
        "shutdown" => Ok(Some(Request::Shutdown)),
        "start_command" => start_command(alloc, message),
        "interrupt_command" => interrupt_command(alloc, message),
        _ => Ok(Some(Request::Unknown {
            op: Text::from_str(alloc, op)?,
        })),
    }
}

/// A response's result: nil where it is missing.
fn result_at<A: Allocator>(alloc: Global, message: &Value<A>) -> Result<Value<Global>, AllocError>
    ensures { IfOk result (λ v. tree v
        ≡ result_of false (field (tree message.now) (codes "result"))) }
{
    match message.get("result") {
        Some(value) => value.copy_into(alloc),
        None => Ok(Value::Nil),
    }
}

/// An exception's result: the text `unknown` where it is no str.
fn exception_at<A: Allocator>(
    alloc: Global,
    message: &Value<A>,
) -> Result<Value<Global>, AllocError>
    ensures { IfOk result (λ v. tree v
        ≡ result_of true (field (tree message.now) (codes "result"))) }
{
    let text = text_at(message, "result").unwrap_or("unknown");
    Value::from_str(alloc, text)
}

fn response<A: Allocator>(
    alloc: Global,
    seq: u64,
    message: &Value<A>,
) -> Result<Response, AllocError>
    requires { seq < 2 ^ 63 }
    ensures { IfOk result (λ r. meaning (Message.Response r) ≡ response_at seq (tree message.now)) }
{
    let exception = is_exception(message);
    let result = if exception {
        exception_at(alloc, message)?
    } else {
        result_at(alloc, message)?
    };
    Ok(Response {
        seq,
        result,
        exception,
    })
}

/// A message with this number and operation.
fn with_op<A: Allocator>(
    alloc: Global,
    seq: u64,
    op: &str,
    message: &Value<A>,
) -> Result<Message, MsgError>
    requires { seq < 2 ^ 63 }
    ensures { Reads result (op_read seq op.now (tree message.now)) }
{
    if op == "response" {
        return Ok(Message::Response(response(alloc, seq, message)?));
    }
    match request(alloc, op, message)? {
        Some(request) => Ok(Message::Request(Numbered { seq, request })),
        None => Err(MsgError::BadArgs(seq)),
    }
}

/// The message, by the keys of its map.
fn by_keys<A: Allocator>(alloc: Global, message: &Value<A>) -> Result<Message, MsgError>
    ensures { Reads result (reading (tree message.now)) }
{
    let Value::Map(_) = message else {
        return Err(MsgError::NotMap);
    };
    let Some(seq) = number_at(message) else {
        return Err(MsgError::NoSeq);
    };
    match text_at(message, "op") {
        Some(op) => with_op(alloc, seq, op, message),
        None => Err(MsgError::NoOp),
    }
}

/// The message that a value is.
///
/// The keys are read as the Buildbot manual has them; of two pairs with a key the last counts, and
/// other keys are ignored. Texts and values are copied, so the tree may be dropped afterwards.
///
/// # Errors
///
/// The first reason why the value is no message, in the order of [`MsgError`], whatever memory
/// there is. `Mem` where it is one and memory ran out.
pub fn read<A: Allocator>(alloc: Global, message: &Value<A>) -> Result<Message, MsgError>
    // What is answered is the message that the value is.
    ensures found { IfOk result (λ m. IsMessage (tree message.now) (meaning m)) }
    // A value that is a message is answered as that, unless memory runs out.
    ensures only { (m : Meaning) → IsMessage (tree message.now) m → Reads result (Ok m) }
    // A fault that is told is the first reason.
    ensures fault { IfErr result (λ e. e ≢ MsgError.Mem → IsFaulty (tree message.now) e) }
    // The first reason is told, whatever memory there is.
    ensures refused { (f : MsgError) → IsFaulty (tree message.now) f → IsErrOf result f }
{
    by_keys(alloc, message)
}
