//! A line by itself.

ghost use Rattle.std.specs.Prelude.{◌≡◌, [], ◌∷◌, ◌++◌, IfOk, OnOk, string_bytes};
ghost use Rattle.bm_lines.specs.Lines.{content_of};

use crate::letter::Letter;
use std::alloc::{AllocError, Global};
use std::marker::Model;

/// One line in the form in which a log keeps it: its letter, its text and a line end.
#[derive(Drop)]
pub struct OneLine {
    text: String,
}

impl Model for OneLine {
    ghost use Rattle.std.specs.Prelude.{◌≡◌, [], ◌∷◌, string_bytes};
    ghost use Rattle.bm_lines.specs.Lines.{Line, content_of};
    ghost use Rattle.bm_lines.specs.Contents.{line_of};

    ghost Value = { Line };

    ghost view = { λ l. line_of (string_bytes l.text) };

    ghost invariant = { λ l. string_bytes l.text ≡ content_of (line_of (string_bytes l.text) ∷ []) };
}

impl OneLine {
    /// The line with this text.
    pub fn of(alloc: Global, letter: Letter, line: &str) -> Result<OneLine, AllocError>
        ensures { IfOk result (λ l. l ≡ record { letter = letter; text = line.now }) }
    {
        let mut text = String::with_capacity(alloc, line.len().saturating_add(2))?;
        write_line(&mut text, letter, line)?;
        Ok(OneLine { text })
    }

    /// The content of the line.
    pub fn as_str(&self) -> &str
        ensures { result.now ≡ content_of (self.now ∷ []) }
    {
        self.text.as_str()
    }
}

/// Appends a line in the form in which a log keeps it. Out of memory a part of it may stand there.
pub fn write_line(text: &mut String, letter: Letter, part: &str) -> Result<(), AllocError>
    ensures { OnOk result (string_bytes text.new
        ≡ string_bytes text.old ++ content_of (record { letter = letter; text = part.now } ∷ [])) }
{
    text.push_str(letter.as_str())?;
    text.push_str(part)?;
    text.push('\n')
}
