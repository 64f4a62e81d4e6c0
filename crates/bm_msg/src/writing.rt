//! Messages as bytes.

ghost use Rattle.std.specs.Prelude.{◌≡◌, ◌<◌, ◌≤◌, ◌^◌, ◌↔◌, length, ◌++◌, ◌∷◌, [], pos, map, codes, IfOk, OnOk, OnErr, IsErrOf, IfSome};
ghost use Rattle.std.specs.Option.{option_copied};
ghost use Rattle.bm_value.specs.Decoding.{IsReadBack};
ghost use Rattle.bm_value.specs.Limits.{IsShort};
ghost use Rattle.bm_value.specs.Tree.{depth, str, int, dict};
ghost use Rattle.bm_value.specs.View.{tree, pairs_of, pair_tree};
ghost use Rattle.bm_value.specs.Writing.{written};
ghost use Rattle.bm_msg.specs.Meaning.{asked, auth, start_command, response, request_of, response_of};
ghost use Rattle.bm_msg.specs.Trees.{at, op_of, session_key, fault_tree, command_key, keys_of, exception_key, tree_of, answer, answer_bytes};
ghost use Rattle.bm_msg.specs.Limits.{outgoing_tree};

use crate::item_writing::items;
use crate::limits::{is_short_message, message_nests};
use crate::message::{Numbered, Outgoing, Response};
use crate::request::Request;
use bm_lines::Text;
use bm_value::{EncodeError, Num, Pair, Pairs, Value, ValueText, encode};
use std::alloc::{AllocError, Global};

/// Appends a key and its value. After want of memory the value is gone.
fn put(
    alloc: Global,
    keys: &mut Vec<Pair<Global>>,
    key: &str,
    value: Value<Global>,
) -> Result<(), AllocError>
    ensures { OnOk result (map pair_tree keys.new.items
        ≡ map pair_tree keys.old.items ++ at key.now (tree value) ∷ []) }
{
    keys.push(Pair {
        key: Value::from_str(alloc, key)?,
        value,
    })?;
    Ok(())
}

/// The keys that every message has.
pub(crate) fn first_keys(alloc: Global, seq: u64, op: &str) -> Result<Vec<Pair<Global>>, AllocError>
    ensures { IfOk result (λ v. map pair_tree v.items
        ≡ at (codes "seq_number") (int (pos seq)) ∷ at (codes "op") (str op.now) ∷ []) }
{
    let mut keys = Vec::with_capacity(alloc, 5)?;
    put(alloc, &mut keys, "seq_number", Value::Int(Num::of_u64(seq)))?;
    put(alloc, &mut keys, "op", Value::from_str(alloc, op)?)?;
    Ok(keys)
}

fn command_key(alloc: Global, keys: &mut Vec<Pair<Global>>, command: u64) -> Result<(), AllocError>
    ensures { OnOk result (map pair_tree keys.new.items
        ≡ map pair_tree keys.old.items ++ command_key command ∷ []) }
{
    let number = command.to_string(alloc)?;
    put(
        alloc,
        keys,
        "command_id",
        Value::Str(ValueText::from_string(number)),
    )
}

pub(crate) fn text_key(
    alloc: Global,
    keys: &mut Vec<Pair<Global>>,
    key: &str,
    said: &Text,
) -> Result<(), AllocError>
    ensures { OnOk result (map pair_tree keys.new.items
        ≡ map pair_tree keys.old.items ++ at key.now (str said.now) ∷ []) }
{
    put(alloc, keys, key, Value::from_str(alloc, said.as_str())?)
}

fn fault(alloc: Global, fault: &Option<Text>) -> Result<Value<Global>, AllocError>
    ensures { IfOk result (λ v. tree v ≡ fault_tree fault.now) }
{
    match fault {
        Some(said) => Value::from_str(alloc, said.as_str()),
        None => Ok(Value::Nil),
    }
}

/// The name of a request's operation.
fn op_of(request: &Request) -> &str
    ensures { result.now ≡ op_of (asked request.now) }
{
    match request {
        Request::Auth { .. } => "auth",
        Request::Print { .. } => "print",
        Request::Keepalive => "keepalive",
        Request::GetWorkerInfo => "get_worker_info",
        Request::StartCommand { .. } => "start_command",
        Request::InterruptCommand { .. } => "interrupt_command",
        Request::Shutdown => "shutdown",
        Request::Update { .. } => "update",
        Request::Complete { .. } => "complete",
        Request::Unknown { op } => op.as_str(),
    }
}

fn session_key(
    alloc: Global,
    keys: &mut Vec<Pair<Global>>,
    session: &Option<Text>,
) -> Result<(), AllocError>
    ensures { OnOk result (map pair_tree keys.new.items
        ≡ map pair_tree keys.old.items ++ session_key session.now) }
{
    match session {
        Some(session) => text_key(alloc, keys, "session", session),
        None => Ok(()),
    }
}

pub(crate) fn auth_keys(
    alloc: Global,
    keys: &mut Vec<Pair<Global>>,
    username: &Text,
    password: &Text,
    session: &Option<Text>,
) -> Result<(), AllocError>
    ensures { OnOk result (map pair_tree keys.new.items
        ≡ map pair_tree keys.old.items ++ keys_of (auth username.now password.now session.now)) }
{
    text_key(alloc, keys, "username", username)?;
    text_key(alloc, keys, "password", password)?;
    session_key(alloc, keys, session)
}

fn start_keys(
    alloc: Global,
    keys: &mut Vec<Pair<Global>>,
    command: u64,
    name: &Text,
    args: &Value<Global>,
) -> Result<(), AllocError>
    ensures { OnOk result (map pair_tree keys.new.items ≡ map pair_tree keys.old.items
        ++ keys_of (start_command command name.now (tree args.now))) }
{
    command_key(alloc, keys, command)?;
    text_key(alloc, keys, "command_name", name)?;
    let args = args.copy_into(alloc)?;
    put(alloc, keys, "args", args)
}

/// Appends the further keys of a request.
fn put_keys(
    alloc: Global,
    keys: &mut Vec<Pair<Global>>,
    request: &Request,
) -> Result<(), AllocError>
    ensures { OnOk result (map pair_tree keys.new.items
        ≡ map pair_tree keys.old.items ++ keys_of (asked request.now)) }
{
    match request {
        Request::Auth {
            username,
            password,
            session,
        } => auth_keys(alloc, keys, username, password, session),
        Request::Print { message } => text_key(alloc, keys, "message", message),
        Request::Keepalive | Request::GetWorkerInfo | Request::Shutdown | Request::Unknown { .. } =>
            Ok(()),
        Request::StartCommand {
            command,
            name,
            args,
        } => start_keys(alloc, keys, *command, name, args),
        Request::InterruptCommand { command, why } => {
            command_key(alloc, keys, *command)?;
            text_key(alloc, keys, "why", why)
        }
        Request::Update { command, fields } => {
            command_key(alloc, keys, *command)?;
            put(alloc, keys, "args", items(alloc, fields)?)
        }
        Request::Complete {
            command,
            fault: said,
        } => {
            command_key(alloc, keys, *command)?;
            put(alloc, keys, "args", fault(alloc, said)?)
        }
    }
}

/// The written form of a map of these pairs.
pub(crate) fn written_map(alloc: Global, keys: Vec<Pair<Global>>) -> Result<Vec<u8>, AllocError>
    requires nests { depth (dict (pairs_of (map pair_tree keys.items))) ≤ 32 }
    requires short { IsShort (dict (pairs_of (map pair_tree keys.items))) }
    ensures ok { IfOk result (λ v. v.items ≡ written (dict (pairs_of (map pair_tree keys.items)))) }
    ensures back { IfOk result (λ v. IsReadBack (dict (pairs_of (map pair_tree keys.items)))) }
{
    let map = Value::Map(Pairs { vec: keys });
    let mut out = Vec::new(alloc);
    match encode(&map, &mut out) {
        Ok(()) => Ok(out),
        Err(_) => Err(AllocError),
    }
}

/// The pairs stand in the order in which they are sent.
fn request_pairs(alloc: Global, message: &Numbered) -> Result<Vec<Pair<Global>>, AllocError>
    ensures { IfOk result (λ v. dict (pairs_of (map pair_tree v.items))
        ≡ tree_of (request_of message.now)) }
{
    let mut keys = first_keys(alloc, message.seq, op_of(&message.request))?;
    put_keys(alloc, &mut keys, &message.request)?;
    Ok(keys)
}

fn put_exception(
    alloc: Global,
    keys: &mut Vec<Pair<Global>>,
    exception: bool,
) -> Result<(), AllocError>
    ensures { OnOk result (map pair_tree keys.new.items
        ≡ map pair_tree keys.old.items ++ exception_key exception) }
{
    if exception {
        put(alloc, keys, "is_exception", Value::Bool(true))?;
    }
    Ok(())
}

fn response_pairs(alloc: Global, message: &Response) -> Result<Vec<Pair<Global>>, AllocError>
    ensures { IfOk result (λ v. dict (pairs_of (map pair_tree v.items))
        ≡ tree_of (response_of message.now)) }
{
    let mut keys = first_keys(alloc, message.seq, "response")?;
    let answered = message.result.copy_into(alloc)?;
    put(alloc, &mut keys, "result", answered)?;
    put_exception(alloc, &mut keys, message.exception)?;
    Ok(keys)
}

#[tactic(auto, unfolding(crate::specs::Limits::outgoing_tree))]
fn message_pairs(alloc: Global, message: Outgoing) -> Result<Vec<Pair<Global>>, AllocError>
    ensures { IfOk result (λ v. dict (pairs_of (map pair_tree v.items))
        ≡ outgoing_tree message.entry) }
{
    match message {
        Outgoing::Request(message) => request_pairs(alloc, message),
        Outgoing::Response(message) => response_pairs(alloc, message),
    }
}

/// The written form of a message: a map of its pairs. What can't be written is told before memory
/// is taken.
fn write_message(alloc: Global, message: Outgoing) -> Result<Vec<u8>, EncodeError>
    ensures ok { IfOk result (λ v. v.items ≡ written (outgoing_tree message.entry)) }
    ensures back { IfOk result (λ v. IsReadBack (outgoing_tree message.entry)) }
    ensures deep { IsErrOf result EncodeError.TooDeep
        ↔ (32 < depth (outgoing_tree message.entry)) }
    ensures long { IsErrOf result EncodeError.TooLong
        ↔ ((depth (outgoing_tree message.entry) ≤ 32) × ¬ IsShort (outgoing_tree message.entry)) }
{
    if !message_nests(message) {
        return Err(EncodeError::TooDeep);
    }
    if !is_short_message(message) {
        return Err(EncodeError::TooLong);
    }
    let pairs = message_pairs(alloc, message)?;
    Ok(written_map(alloc, pairs)?)
}

/// The written form of a request: the number, the operation and its keys in the order of the
/// Buildbot manual's protocol. Each value has the format with the fewest bytes. What is written is
/// read back, whatever follows it.
///
/// # Errors
///
/// `TooDeep` where the args of a `start_command` nest deeper than 31; `TooLong` where a part is
/// longer than 2^32-1; `Mem` where memory ran out.
pub fn write_request(alloc: Global, message: &Numbered) -> Result<Vec<u8>, EncodeError>
    ensures ok { IfOk result (λ v. v.items ≡ written (tree_of (request_of message.now))) }
    ensures back { IfOk result (λ v. IsReadBack (tree_of (request_of message.now))) }
    ensures deep { IsErrOf result EncodeError.TooDeep
        ↔ (32 < depth (tree_of (request_of message.now))) }
    ensures long { IsErrOf result EncodeError.TooLong
        ↔ ((depth (tree_of (request_of message.now)) ≤ 32)
        × ¬ IsShort (tree_of (request_of message.now))) }
{
    write_message(alloc, Outgoing::Request(message))
}

/// The written form of a response, which is read back, whatever follows it. `is_exception` stands
/// only in an exception.
///
/// # Errors
///
/// `TooDeep` where the result nests deeper than 31; `TooLong` where a part of it is longer than
/// 2^32-1; `Mem` where memory ran out.
pub fn write_response(alloc: Global, message: &Response) -> Result<Vec<u8>, EncodeError>
    ensures ok { IfOk result (λ v. v.items ≡ written (tree_of (response_of message.now))) }
    ensures back { IfOk result (λ v. IsReadBack (tree_of (response_of message.now))) }
    ensures deep { IsErrOf result EncodeError.TooDeep
        ↔ (32 < depth (tree_of (response_of message.now))) }
    ensures long { IsErrOf result EncodeError.TooLong
        ↔ ((depth (tree_of (response_of message.now)) ≤ 32)
        × ¬ IsShort (tree_of (response_of message.now))) }
{
    write_message(alloc, Outgoing::Response(message))
}

/// The written form of the response to request `seq` with this result, which nests and fits as a
/// message may. It is read back, whatever follows it.
///
/// # Errors
///
/// `AllocError` where memory ran out.
pub fn write_result(
    alloc: Global,
    seq: u64,
    answered: Value<Global>,
    exception: bool,
) -> Result<Vec<u8>, AllocError>
    requires number { seq < 2 ^ 63 }
    requires nests { depth (tree_of (response seq (tree answered) exception)) ≤ 32 }
    requires short { IsShort (tree_of (response seq (tree answered) exception)) }
    ensures ok { IfOk result (λ v. v.items
        ≡ written (tree_of (response seq (tree answered) exception))) }
    ensures back { IfOk result (λ v.
        IsReadBack (tree_of (response seq (tree answered) exception))) }
{
    let response = Response {
        seq,
        result: answered,
        exception,
    };
    match write_response(alloc, &response) {
        Ok(bytes) => Ok(bytes),
        Err(EncodeError::Mem) => Err(AllocError),
        Err(EncodeError::TooDeep | EncodeError::TooLong) => unreachable!("flat and short"),
    }
}

/// The written form of the response to request `seq` that is nil, or the exception with this text.
/// It is read back, whatever follows it.
#[tactic(auto, unfolding(crate::specs::Trees::answer_bytes))]
pub fn write_answer(alloc: Global, seq: u64, exception: Option<&str>) -> Result<Vec<u8>, AllocError>
    requires number { seq < 2 ^ 63 }
    requires short { IfSome exception (λ text. length text.now < 2 ^ 32) }
    ensures ok { IfOk result (λ v. v.items ≡ answer_bytes seq (option_copied exception.entry)) }
    ensures back { IfOk result (λ v.
        IsReadBack (tree_of (answer seq (option_copied exception.entry)))) }
{
    match exception {
        Some(text) => {
            let answered = Value::from_str(alloc, text)?;
            write_result(alloc, seq, answered, true)
        }
        None => write_result(alloc, seq, Value::Nil, false),
    }
}
