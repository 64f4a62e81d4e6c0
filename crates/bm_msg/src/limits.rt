//! Tests of what can be written.

ghost use Rattle.std.specs.Prelude.{◌≡◌, ◌<◌, ◌≤◌, ◌^◌, ◌↔◌, IsTrue, length, drop};
ghost use Rattle.bm_value.specs.Tree.{depth};
ghost use Rattle.bm_value.specs.Limits.{IsShort};
ghost use Rattle.bm_msg.specs.Meaning.{asked};
ghost use Rattle.bm_msg.specs.Limits.{args_depth, parts_depth, IsShortField, AreShortFields, IsShortOption, IsShortRequest, HasShortParts, outgoing, outgoing_tree};

use crate::field::{Field, Fields};
use crate::message::Outgoing;
use crate::request::Request;
use bm_lines::Text;
use bm_value::{is_short, nests_within};

/// How deep what stands in a message may nest: a message is a map, and takes one of the 32 levels.
const INNER_DEPTH: u32 = 31;

/// Whether a request's args nest no deeper than a map with them may.
fn args_nest(request: &Request) -> bool
    ensures { IsTrue result ↔ (args_depth (asked request.now) ≤ 31) }
{
    match request {
        Request::StartCommand { args, .. } => nests_within(args, INNER_DEPTH),
        _ => true,
    }
}

pub(crate) fn fits(text: &str) -> bool
    ensures { IsTrue result ↔ (length text.now < 2 ^ 32) }
{
    text.len() < 1 << 32
}

fn field_is_short(field: &Field) -> bool
    ensures { IsTrue result ↔ IsShortField field.now }
{
    match field {
        Field::Text(_, said) => fits(said.as_str()),
        Field::Named(name, said) => fits(name.as_str()) && fits(said.as_str()),
        Field::Rc(_) => true,
    }
}

fn each_is_short(fields: &[Field]) -> bool
    ensures { IsTrue result ↔ AreShortFields fields.now }
{
    for field in fields {
        if !field_is_short(field) {
            return false;
        }
    }
    true
}

pub(crate) fn option_is_short(said: &Option<Text>) -> bool
    ensures { IsTrue result ↔ IsShortOption said.now }
{
    match said {
        Some(said) => fits(said.as_str()),
        None => true,
    }
}

fn request_is_short(request: &Request) -> bool
    ensures { IsTrue result ↔ IsShortRequest (asked request.now) }
{
    match request {
        Request::Auth {
            username,
            password,
            session,
        } => fits(username.as_str()) && fits(password.as_str()) && option_is_short(session),
        Request::Print { message } => fits(message.as_str()),
        Request::Keepalive => true,
        Request::GetWorkerInfo => true,
        Request::Shutdown => true,
        Request::StartCommand { name, args, .. } => fits(name.as_str()) && is_short(args),
        Request::InterruptCommand { why, .. } => fits(why.as_str()),
        Request::Update { fields, .. } => {
            let fields = fields.as_slice();
            fields.len() < 1 << 32 && each_is_short(fields)
        }
        Request::Complete { fault, .. } => option_is_short(fault),
        Request::Unknown { op } => fits(op.as_str()),
    }
}

/// Whether the parts of a message nest no deeper than a map with them may.
fn parts_nest(message: Outgoing) -> bool
    ensures { IsTrue result ↔ (parts_depth (outgoing message.entry) ≤ 31) }
{
    match message {
        Outgoing::Request(message) => args_nest(&message.request),
        Outgoing::Response(message) => nests_within(&message.result, INNER_DEPTH),
    }
}

fn parts_are_short(message: Outgoing) -> bool
    ensures { IsTrue result ↔ HasShortParts (outgoing message.entry) }
{
    match message {
        Outgoing::Request(message) => request_is_short(&message.request),
        Outgoing::Response(message) => is_short(&message.result),
    }
}

/// Whether the message's tree nests no deeper than 32. It only passes on, since two views of a
/// message meet here: its parts, and its tree.
pub fn message_nests(message: Outgoing) -> bool
    ensures { IsTrue result ↔ (depth (outgoing_tree message.entry) ≤ 32) }
{
    parts_nest(message)
}

/// Whether no part of the message's tree is longer than 2^32-1.
pub fn is_short_message(message: Outgoing) -> bool
    ensures { IsTrue result ↔ IsShort (outgoing_tree message.entry) }
{
    parts_are_short(message)
}
