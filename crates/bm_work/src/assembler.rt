//! Texts of a pipe.

ghost use Rattle.std.specs.Prelude.{◌≡◌, ◌++◌, [], ◌+◌, ◌≤◌, ◌<◌, length, IfOk, OnOk, OnErr, IfSome};
ghost use Rattle.std.specs.Str.Lossy.{utf8_lossy};
ghost use Rattle.bm_work.specs.Cuts.{longest, texts_of, left_of, texts_after, left_after, shown, last_text, first_end};

use bm_lines::{Letter, Text};
use memchr::memchr;
use std::alloc::{AllocError, Global};
use std::marker::Model;

/// The most bytes of a line that go into one text. A longer line is cut there, and each text is
/// decoded by itself: a character across such a cut shows as U+FFFD in both. A cut between a pipe's
/// pieces never shows, as the pieces are joined before they are decoded.
const LONGEST: usize = 16_384;

/// Joins what a pipe gives, piece by piece, to texts: each ends with its line, or after 16,384
/// bytes of it.
#[derive(Drop)]
pub struct Assembler {
    letter: Letter,
    kept: Vec<u8>,
}

impl Model for Assembler {
    ghost use Rattle.bm_work.specs.Assembling.{Assembling, IsUnended};

    ghost Value = { Assembling };

    ghost view = { λ a. record { letter = a.letter; kept = a.kept.items } };

    ghost invariant = { λ a. IsUnended a.kept.items };
}

impl Assembler {
    /// Nothing was fed yet.
    pub fn new(alloc: Global, letter: Letter) -> Assembler
        ensures { result ≡ record { letter = letter; kept = [] } }
    {
        Assembler {
            letter,
            kept: Vec::new(alloc),
        }
    }

    /// The stream that the pipe is.
    pub fn letter(&self) -> Letter
        ensures { result ≡ self.now.letter }
    {
        self.letter
    }

    /// The texts that end in the kept bytes followed by the piece; what follows the last of them is
    /// kept. Bytes that are not UTF-8 are shown as U+FFFD. Want of memory changes nothing.
    pub fn feed(&mut self, piece: &[u8]) -> Result<Vec<Text>, AllocError>
        ensures texts { IfOk result (λ texts. texts.items
            ≡ shown (texts_of (self.old.kept ++ piece.now))) }
        ensures kept { OnOk result (self.new
            ≡ record self.old { kept = left_of (self.old.kept ++ piece.now) }) }
        ensures err { OnErr result (self.new ≡ self.old) }
    {
        let alloc = *self.kept.allocator();
        let mut texts = Vec::new(alloc);
        let Some(end) = find_end(self.kept.len(), piece) else {
            self.kept.extend_from_slice(piece)?;
            return Ok(texts);
        };
        let (front, back) = piece.split_at(end);
        texts.push(joined(alloc, self.kept.as_slice(), front)?)?;
        let left = push_texts(alloc, &mut texts, back)?;
        self.kept = Vec::from_slice(alloc, left)?;
        Ok(texts)
    }

    /// The kept bytes as the last text, or None where none are kept. None are kept afterwards. Want
    /// of memory changes nothing.
    pub fn rest(&mut self) -> Result<Option<Text>, AllocError>
        ensures text { IfOk result (λ text. text ≡ last_text self.old.kept) }
        ensures kept { OnOk result (self.new ≡ record self.old { kept = [] }) }
        ensures err { OnErr result (self.new ≡ self.old) }
    {
        if self.kept.is_empty() {
            return Ok(None);
        }
        let text = decoded(*self.kept.allocator(), self.kept.as_slice())?;
        self.kept.clear();
        Ok(Some(text))
    }
}

/// How many bytes end the first text, where `before` bytes of its line stand before them.
fn find_end(before: usize, bytes: &[u8]) -> Option<usize>
    requires { before < longest }
    ensures end { result ≡ first_end before bytes.now }
    ensures within { IfSome result (λ n. (n ≤ length bytes.now) × (0 < n)
        × (before + n ≤ longest)) }
{
    let room = LONGEST - before;
    let len = room.min(bytes.len());
    match memchr(b'\n', &bytes[..len]) {
        Some(place) => Some(place + 1),
        None if len == room => Some(room),
        None => None,
    }
}

/// Pushes the texts that the bytes end, and gives the bytes behind them.
fn push_texts<'a>(
    alloc: Global,
    texts: &mut Vec<Text>,
    bytes: &'a [u8],
) -> Result<&'a [u8], AllocError>
    ensures texts { OnOk result (texts.new.items
        ≡ texts.old.items ++ shown (texts_after [] bytes.now)) }
    ensures left { IfOk result (λ left. left.now ≡ left_after [] bytes.now) }
{
    let mut rest = bytes;
    while let Some(end) = find_end(0, rest) {
        let (front, back) = rest.split_at(end);
        texts.push(decoded(alloc, front)?)?;
        rest = back;
    }
    Ok(rest)
}

/// One text of the bytes of a line.
fn joined(alloc: Global, line: &[u8], front: &[u8]) -> Result<Text, AllocError>
    requires { length line.now + length front.now ≤ longest }
    ensures { IfOk result (λ text. text ≡ utf8_lossy (line.now ++ front.now)) }
{
    if line.is_empty() {
        return decoded(alloc, front);
    }
    let mut whole = Vec::with_capacity(alloc, line.len() + front.len())?;
    whole.extend_from_slice(line)?;
    whole.extend_from_slice(front)?;
    decoded(alloc, whole.as_slice())
}

/// The text of the bytes, with U+FFFD for what is not UTF-8.
fn decoded(alloc: Global, bytes: &[u8]) -> Result<Text, AllocError>
    ensures { IfOk result (λ text. text ≡ utf8_lossy bytes.now) }
{
    Ok(Text::from_string(String::from_utf8_lossy(alloc, bytes)?))
}
