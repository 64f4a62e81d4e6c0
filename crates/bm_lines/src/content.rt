//! Lines in one text.

ghost use Rattle.std.specs.Prelude.{◌≡◌, ◌<◌, ◌≤◌, ◌+◌, ◌-◌, ◌^◌, ◌==◌, [], ◌∷◌, ◌++◌, length, map, take, drop, if◌then◌else◌, IfOk, OnOk, OnErr, All, string_bytes, IsCharBoundary};
ghost use Rattle.std.specs.List.{slice_split};
ghost use Rattle.bm_lines.specs.Lines.{content_of};
ghost use Rattle.bm_lines.specs.Contents.{IsContent, lines_in};

use crate::letter::Letter;
use crate::one_line::{OneLine, write_line};
use memchr::memchr_iter;
use std::alloc::{AllocError, Global};
use std::marker::Model;

/// At least one line, as one text: the content of the lines, and where each but the first begins in
/// it. So any slice of them is a piece of the text. A list with a text for each line would take a
/// block of memory or two for each.
#[derive(Drop)]
pub struct Content {
    text: String,
    begins: Vec<usize>,
}

impl Model for Content {
    ghost use Rattle.std.specs.Prelude.{List, string_bytes};
    ghost use Rattle.bm_lines.specs.Lines.{Line};
    ghost use Rattle.bm_lines.specs.Contents.{IsContent, lines_in};

    ghost Value = { List Line };

    ghost view = { λ c. lines_in c.begins.items (string_bytes c.text) };

    ghost invariant = { λ c. IsContent (lines_in c.begins.items (string_bytes c.text)) (string_bytes c.text) c.begins.items };
}

impl Content {
    /// A line for each part between the characters `\n`.
    pub fn of(alloc: Global, letter: Letter, parts: &str) -> Result<Content, AllocError>
        ensures { IfOk result (λ c. c ≡ map (λ part. record { letter = letter; text = part })
            (slice_split (λ c. c == 10) parts.now)) }
    {
        let later = memchr_iter(b'\n', parts.as_bytes()).count();
        let bytes = parts.len().saturating_add(later).saturating_add(2);
        let mut text = String::with_capacity(alloc, bytes)?;
        let mut begins = Vec::with_capacity(alloc, later)?;
        write_parts(&mut text, &mut begins, letter, parts)?;
        Ok(Content { text, begins })
    }

    /// An equal line, in a text of its own.
    pub fn of_line(alloc: Global, line: &OneLine) -> Result<Content, AllocError>
        ensures { IfOk result (λ c. c ≡ line.now ∷ []) }
    {
        Ok(Content {
            text: String::from_str(alloc, line.as_str())?,
            begins: Vec::new(alloc),
        })
    }

    /// How many lines they are.
    pub fn count(&self) -> usize
        ensures { result ≡ length self.now }
    {
        self.begins.len() + 1
    }

    /// Where the line with this number begins in the text, and where the text ends if there is
    /// none.
    fn begin(&self, number: usize) -> usize
        ensures place { result ≡ length (content_of (take number self.now)) }
    {
        if number == 0 {
            return 0;
        }
        if number > self.begins.len() {
            return self.text.len();
        }
        self.begins[number - 1]
    }

    /// The content of all lines.
    pub fn as_str(&self) -> &str
        ensures { result.now ≡ content_of self.now }
    {
        self.text.as_str()
    }

    /// The content of the lines from the one up to the other.
    pub fn slice(&self, from: usize, to: usize) -> &str
        requires { from ≤ to }
        ensures { result.now ≡ content_of (take (to - from) (drop from self.now)) }
    {
        let start = self.begin(from);
        let end = self.begin(to);
        &self.text.as_str()[start..end]
    }

    /// Equal lines, in a text of their own.
    pub fn copy(&self) -> Result<Content, AllocError>
        ensures { IfOk result (λ c. c ≡ self.now) }
    {
        Ok(Content {
            text: self.text.clone()?,
            begins: self.begins.clone()?,
        })
    }

    /// Where each line but the first begins in the text.
    pub fn begins(&self) -> &[usize]
        ensures places { IsContent self.now (content_of self.now) result.now }
        ensures lines { lines_in result.now (content_of self.now) ≡ self.now }
    {
        self.begins.as_slice()
    }

    /// Appends other lines: their content, and where each but the first begins in it.
    pub fn append(&mut self, more: &str, begins: &[usize]) -> Result<(), AllocError>
        requires { IsContent (lines_in begins.now more.now) more.now begins.now }
        ensures ok { OnOk result (self.new ≡ self.old ++ lines_in begins.now more.now) }
        ensures err { OnErr result (self.new ≡ self.old) }
    {
        let end = self.text.len();
        self.text.reserve(more.len())?;
        append_begins(&mut self.begins, end, begins)?;
        self.text.push_str(more)?;
        Ok(())
    }
}

/// Writes a line for each part between the characters `\n`.
fn write_parts(
    text: &mut String,
    begins: &mut Vec<usize>,
    letter: Letter,
    parts: &str,
) -> Result<(), AllocError>
    requires text { string_bytes text.old ≡ [] }
    requires begins { begins.old.items ≡ [] }
    ensures { OnOk result (IsContent (map (λ part. record { letter = letter; text = part })
        (slice_split (λ c. c == 10) parts.now)) (string_bytes text.new) begins.new.items) }
{
    for part in parts.split('\n') {
        write_begin(begins, text.as_str())?;
        write_line(text, letter, part)?;
    }
    Ok(())
}

/// Notes that a line begins behind a text, if it isn't the first.
fn write_begin(begins: &mut Vec<usize>, text: &str) -> Result<(), AllocError>
    ensures { OnOk result (begins.new.items
        ≡ begins.old.items ++ (if length text.now == 0 then [] else length text.now ∷ [])) }
{
    if text.is_empty() {
        return Ok(());
    }
    begins.push(text.len())?;
    Ok(())
}

/// Appends where a text begins that is appended to another, and where the lines of that text begin
/// behind its first.
fn append_begins(begins: &mut Vec<usize>, end: usize, more: &[usize]) -> Result<(), AllocError>
    requires { All (λ begin. end + begin < 2 ^ 64) more.now }
    ensures ok { OnOk result (begins.new.items
        ≡ begins.old.items ++ end ∷ map (λ begin. end + begin) more.now) }
    ensures err { OnErr result (begins.new.items ≡ begins.old.items) }
{
    begins.reserve(more.len() + 1)?;
    begins.push_reserved(end);
    for begin in more {
        begins.push_reserved(end + *begin);
    }
    Ok(())
}
