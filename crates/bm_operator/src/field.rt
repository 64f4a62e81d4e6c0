//! The two forms of a remark: a line for people, and an object of JSON for programs.

ghost use Rattle.std.specs.Prelude.{◌≡◌, ◌++◌, [], ◌∷◌, IfOk, OnOk, codes, decimal, string_bytes};
ghost use Rattle.std.specs.List.{flat_map};
ghost use Rattle.std.specs.Net.Text.{socket_text};
ghost use Rattle.json.specs.Print.{quoted};
ghost use Rattle.bm_operator.specs.OneLine.{one_line};
ghost use Rattle.bm_operator.specs.Told.{field_text, field_view, fields_view, member_text, shaped};

use crate::names::one_line;
use serde_json::Value;
use std::alloc::{AllocError, Global};
use std::net::SocketAddr;

/// A field of a remark: the words before it in the line, its key in the object, and its value.
#[derive(Clone, Copy)]
pub(crate) enum RemarkField<'a> {
    Number(&'a str, &'a str, u128),
    /// A text from outside, as a worker's name: `one_line` writes it in the line, JSON in the
    /// object.
    Name(&'a str, &'a str, &'a str),
    /// A text of this program, which has no line end and is written as it is in the line.
    Word(&'a str, &'a str, &'a str),
    Address(&'a str, &'a str, SocketAddr),
    /// A number of the object alone, by its key and its value. The line leaves it out.
    Member(&'a str, u64),
}

/// The form that a remark is written in.
#[derive(Clone, Copy)]
pub(crate) enum Shape {
    Line,
    /// An object, so many milliseconds after the master's start.
    Object(u64),
}

/// The remark of this kind with these fields, and the words behind the last of them in the line.
pub(crate) fn shaped(
    alloc: Global,
    shape: Shape,
    kind: &str,
    fields: &[RemarkField<'_>],
    tail: &str,
) -> Result<String, AllocError>
    ensures { IfOk result (λ s. string_bytes s ≡ shaped shape record {
      kind = kind.now;
      fields = fields_view fields.now;
      tail = tail.now;
    }) }
{
    match shape {
        Shape::Line => line_of(alloc, fields, tail),
        Shape::Object(ms) => object_of(alloc, ms, kind, fields),
    }
}

fn line_of(alloc: Global, fields: &[RemarkField<'_>], tail: &str) -> Result<String, AllocError>
    ensures { IfOk result (λ s. string_bytes s
        ≡ flat_map field_text (fields_view fields.now) ++ (tail.now ++ 10 ∷ [])) }
{
    let mut line = String::new(alloc);
    for field in fields {
        push_text(alloc, &mut line, field)?;
    }
    line.push_str(tail)?;
    line.push('\n')?;
    Ok(line)
}

// Appends a field as the line has it.
fn push_text(alloc: Global, line: &mut String, field: &RemarkField<'_>) -> Result<(), AllocError>
    ensures { OnOk result (string_bytes line.new
        ≡ string_bytes line.old ++ field_text (field_view field.now)) }
{
    match *field {
        RemarkField::Number(lead, _, number) => write!(line, "{lead}{number}"),
        RemarkField::Name(lead, _, name) => push_name(alloc, line, lead, name),
        RemarkField::Word(lead, _, word) => write!(line, "{lead}{word}"),
        RemarkField::Address(lead, _, address) => write!(line, "{lead}{address}"),
        RemarkField::Member(..) => Ok(()),
    }
}

// Appends words and a name on one line.
fn push_name(alloc: Global, line: &mut String, lead: &str, name: &str) -> Result<(), AllocError>
    ensures { OnOk result (string_bytes line.new
        ≡ string_bytes line.old ++ (lead.now ++ one_line name.now)) }
{
    let name = one_line(alloc, name)?;
    write!(line, "{lead}{name}")
}

// The object of these fields. It is written field by field: a tree of values would sort its
// members, and the kind would not stand first.
fn object_of(
    alloc: Global,
    ms: u64,
    kind: &str,
    fields: &[RemarkField<'_>],
) -> Result<String, AllocError>
    ensures { IfOk result (λ s. string_bytes s ≡ codes "{\"remark\":\"" ++ (kind.now
        ++ (codes "\",\"ms\":" ++ (decimal ms
        ++ (flat_map member_text (fields_view fields.now) ++ codes "}\n"))))) }
{
    let members = members_of(alloc, fields)?;
    format!(in alloc; "{{\"remark\":\"{kind}\",\"ms\":{ms}{members}}}\n")
}

fn members_of(alloc: Global, fields: &[RemarkField<'_>]) -> Result<String, AllocError>
    ensures { IfOk result (λ s. string_bytes s ≡ flat_map member_text (fields_view fields.now)) }
{
    let mut members = String::new(alloc);
    for field in fields {
        push_member(alloc, &mut members, field)?;
    }
    Ok(members)
}

// Appends a field as the object has it.
fn push_member(
    alloc: Global,
    members: &mut String,
    field: &RemarkField<'_>,
) -> Result<(), AllocError>
    ensures { OnOk result (string_bytes members.new
        ≡ string_bytes members.old ++ member_text (field_view field.now)) }
{
    match *field {
        RemarkField::Number(_, key, number) => write!(members, ",\"{key}\":{number}"),
        RemarkField::Name(_, key, text) | RemarkField::Word(_, key, text) => {
            push_quoted(alloc, members, key, text)
        }
        RemarkField::Address(_, key, address) => push_address(alloc, members, key, address),
        RemarkField::Member(key, number) => write!(members, ",\"{key}\":{number}"),
    }
}

fn push_quoted(alloc: Global, members: &mut String, key: &str, text: &str) -> Result<(), AllocError>
    ensures { OnOk result (string_bytes members.new
        ≡ string_bytes members.old ++ (codes ",\"" ++ (key.now ++ (codes "\":" ++ quoted text.now)))) }
{
    let text = quoted(alloc, text)?;
    write!(members, ",\"{key}\":{text}")
}

fn push_address(
    alloc: Global,
    members: &mut String,
    key: &str,
    address: SocketAddr,
) -> Result<(), AllocError>
    ensures { OnOk result (string_bytes members.new ≡ string_bytes members.old
        ++ (codes ",\"" ++ (key.now ++ (codes "\":" ++ quoted (socket_text address))))) }
{
    let text = format!(in alloc; "{address}")?;
    push_quoted(alloc, members, key, text.as_str())
}

// A text as JSON has it, with its quotes.
fn quoted(alloc: Global, text: &str) -> Result<String, AllocError>
    ensures { IfOk result (λ s. string_bytes s ≡ quoted text.now) }
{
    let text = String::from_str(alloc, text)?;
    Value::String(text).to_string(alloc)
}
