//! Texts of one pipe are joined.

ghost use Rattle.std.specs.Prelude.{◌≡◌, ◌≤◌, [], All, length, IfOk, OnOk, IsFalse, IsTrue, string_bytes, map};
ghost use Rattle.bm_outbox.specs.Joining.{Fit, Adds, IsJoined, texts_of, all_of};
ghost use Rattle.bm_outbox.specs.Stretches.{AddsAll, IsStretch};
ghost use Rattle.bm_work.specs.Cuts.{texts_of as cut_texts, left_of, shown};

use crate::said::{MOST_BYTES, Said};
use crate::stretch::stretch_end;
use bm_lines::{Letter, Text};
use std::alloc::{AllocError, Global};
use std::marker::Model;
use std::mem;

/// Texts that were joined, and the one that may grow.
#[derive(Drop)]
struct Joiner {
    letter: Letter,
    done: Vec<Said>,
    current: String,
}

impl Model for Joiner {
    ghost use Rattle.std.specs.Prelude.{string_bytes};
    ghost use Rattle.bm_outbox.specs.Joining.{Joining, IsJoining, texts_of};

    ghost Value = { Joining };

    ghost view = { λ j. record {
      letter = j.letter;
      done = texts_of j.done.items;
      current = string_bytes j.current;
    } };

    ghost invariant = { λ j. IsJoining j.letter j.done.items (string_bytes j.current) };
}

impl Joiner {
    /// One text, which may grow.
    fn new(alloc: Global, letter: Letter, first: String) -> Joiner
        requires { length (string_bytes first) ≤ 65536 }
        ensures { result ≡ record { letter = letter; done = []; current = string_bytes first } }
    {
        Joiner {
            letter,
            done: Vec::new(alloc),
            current: first,
        }
    }

    /// Adds a text to the one that may grow, where both fit into one; or else begins another one
    /// with it.
    fn add(&mut self, text: String) -> Result<(), AllocError>
        requires { length (string_bytes text) ≤ 65536 }
        ensures { OnOk result (Adds self.old (string_bytes text) self.new) }
    {
        if fit(self.current.as_str(), text.as_str()) {
            self.current.push_str(text.as_str())?;
            return Ok(());
        }
        let before = mem::replace(&mut self.current, text);
        self.done.push(Said {
            letter: self.letter,
            text: Text::from_string(before),
        })?;
        Ok(())
    }

    /// Adds what is shown of bytes, stretch by stretch, and gives the bytes behind the last text.
    fn add_all<'a>(&mut self, bytes: &'a [u8]) -> Result<&'a [u8], AllocError>
        ensures added { OnOk result (AddsAll self.old bytes.now self.new) }
        ensures left { IfOk result (λ left. left.now ≡ left_of bytes.now) }
    {
        let alloc = *self.done.allocator();
        let mut rest = bytes;
        while let Some(end) = stretch_end(rest) {
            let (front, back) = rest.split_at(end);
            self.add(String::from_utf8_lossy(alloc, front)?)?;
            rest = back;
        }
        Ok(rest)
    }

    /// All texts, in order.
    fn finish(self) -> Result<Vec<Said>, AllocError>
        ensures texts { IfOk result (λ v. texts_of v.items ≡ all_of self) }
        ensures pipe { IfOk result (λ v. All (λ s. s.letter ≡ self.letter) v.items) }
        ensures short { IfOk result (λ v. All (λ s. length s.text ≤ 65536) v.items) }
    {
        let Joiner {
            letter,
            done: mut all,
            current,
        } = self;
        all.push(Said {
            letter,
            text: Text::from_string(current),
        })?;
        Ok(all)
    }
}

/// Whether a text can follow another one in the same update and its lines stay lines of their own.
/// The first one is empty or ends its line, and both together are short enough.
#[tactic(auto, using(crate::proofs::Joins::ends_line))]
fn fit(first: &str, second: &str) -> bool
    requires first { length first.now ≤ 65536 }
    requires second { length second.now ≤ 65536 }
    ensures fit { IsTrue result → Fit first.now second.now }
    ensures apart { IsFalse result → Fit first.now second.now → ⊥ }
{
    if first.len() + second.len() > MOST_BYTES {
        return false;
    }
    if first.is_empty() {
        return true;
    }
    first.as_bytes()[first.len() - 1] == b'\n'
}

/// What is said of bytes of a pipe whose first stretch ends there. These are their texts in order,
/// each of at most 65,536 bytes, with their lines. All that fits is joined. The bytes behind the
/// last text follow. Joined so the log is the same, and a lane's events last longer.
pub(crate) fn joined<'a>(
    alloc: Global,
    letter: Letter,
    bytes: &'a [u8],
    end: usize,
) -> Result<(Vec<Said>, &'a [u8]), AllocError>
    requires { IsStretch bytes.now end }
    ensures said { IfOk result (λ r. IsJoined letter (shown (cut_texts bytes.now)) r.0.items) }
    ensures left { IfOk result (λ r. r.1.now ≡ left_of bytes.now) }
{
    let (front, back) = bytes.split_at(end);
    let mut joiner = Joiner::new(alloc, letter, String::from_utf8_lossy(alloc, front)?);
    let left = joiner.add_all(back)?;
    match joiner.finish() {
        Ok(said) => Ok((said, left)),
        Err(error) => Err(error),
    }
}
