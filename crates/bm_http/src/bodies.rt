//! The bodies of answers, byte for byte.
//!
//! They are written a token at a time, with room for all of a body from the start. Each look at a
//! log makes one.
ghost use Rattle.std.specs.Prelude.{◌≡◌, ◌++◌, [], IfOk};
ghost use Rattle.json.specs.Print.{print, quoted};
ghost use Rattle.bm_http.specs.Bodies.{contents_text, error_text, log_text};
ghost use Rattle.bm_http.specs.Tokens.{first_tokens, last_tokens, lines_tokens, state_tokens};

use json::Writer;
use std::alloc::{AllocError, Global};

/// How many bytes a body has at most beside its texts.
const FRAME_BYTES: usize = 128;

// A writer with room for a body of texts with so many bytes, of which few are escaped.
fn writer(alloc: Global, bytes: usize) -> Result<Writer, AllocError>
    ensures { IfOk result (λ w. (w.before ≡ []) × (w.tokens ≡ [])) }
{
    let escapes = bytes / 16;
    let room = bytes.saturating_add(escapes).saturating_add(FRAME_BYTES);
    Ok(Writer::new(Vec::with_capacity(alloc, room)?))
}

// Begins a page that has one object under this key.
fn page(alloc: Global, bytes: usize, name: &str) -> Result<Writer, AllocError>
    ensures { IfOk result (λ w. (w.before ≡ [])
        × (w.tokens ≡ first_tokens name.now)) }
{
    let mut page = writer(alloc, bytes)?;
    page.begin_object()?;
    page.key(name)?;
    page.begin_array()?;
    page.begin_object()?;
    Ok(page)
}

// Ends the object and the page.
fn ended(page: Writer) -> Result<Vec<u8>, AllocError>
    ensures { IfOk result (λ b. b.items ≡ page.before ++ print (page.tokens
        ++ last_tokens)) }
{
    let mut page = page;
    page.end_object()?;
    page.end_array()?;
    page.key("meta")?;
    page.begin_object()?;
    page.end_object()?;
    page.end_object()?;
    Ok(page.into_inner())
}

/// The body of a refusal.
#[tactic(auto, using(crate::proofs::Texts::print_error))]
pub fn refusal(alloc: Global, text: &str) -> Result<Vec<u8>, AllocError>
    ensures { IfOk result (λ b. b.items ≡ error_text text.now) }
{
    let mut body = writer(alloc, text.len())?;
    body.begin_object()?;
    body.key("error")?;
    body.string(text)?;
    body.end_object()?;
    Ok(body.into_inner())
}

// The page with lines of a log, but for its end.
fn lines_of(alloc: Global, id: u64, first: u64, content: &str) -> Result<Writer, AllocError>
    ensures { IfOk result (λ w. (w.before ≡ []) × (w.tokens ≡ lines_tokens id first content.now)) }
{
    let mut page = page(alloc, content.len(), "logchunks")?;
    page.key("content")?;
    page.string(content)?;
    page.key("firstline")?;
    page.u64(first)?;
    page.key("logid")?;
    page.u64(id)?;
    Ok(page)
}

/// The body for lines of a log.
pub fn contents(alloc: Global, id: u64, first: u64, content: &str) -> Result<Vec<u8>, AllocError>
    ensures { IfOk result (λ b. b.items ≡ contents_text id first content.now) }
{
    ended(lines_of(alloc, id, first, content)?)
}

// The page with a log, but for its end.
fn state_of(
    alloc: Global,
    id: u64,
    name: &str,
    complete: bool,
    lines: u64,
) -> Result<Writer, AllocError>
    ensures { IfOk result (λ w. (w.before ≡ [])
        × (w.tokens ≡ state_tokens id name.now complete lines)) }
{
    let mut page = page(alloc, name.len(), "logs")?;
    page.key("complete")?;
    page.boolean(complete)?;
    page.key("logid")?;
    page.u64(id)?;
    page.key("name")?;
    page.string(name)?;
    page.key("num_lines")?;
    page.u64(lines)?;
    page.key("type")?;
    page.string("s")?;
    Ok(page)
}

/// The body for a log.
pub fn log(
    alloc: Global,
    id: u64,
    name: &str,
    complete: bool,
    lines: u64,
) -> Result<Vec<u8>, AllocError>
    ensures { IfOk result (λ b. b.items ≡ log_text id name.now complete lines) }
{
    ended(state_of(alloc, id, name, complete, lines)?)
}

/// A text as a string of JSON, in its quotes.
#[tactic(auto, using(crate::proofs::Texts::print_quoted))]
pub(crate) fn quoted(alloc: Global, text: &str) -> Result<Vec<u8>, AllocError>
    ensures { IfOk result (λ b. b.items ≡ quoted text.now) }
{
    let mut body = writer(alloc, text.len())?;
    body.string(text)?;
    Ok(body.into_inner())
}
