//! A text that a value keeps.

ghost use Rattle.std.specs.Prelude.{◌≡◌, string_bytes, IfOk, bytes_eq};

use std::alloc::{AllocError, Global};
use std::marker::Model;

/// A text that a value keeps, seen as its bytes in UTF-8. Calls answer it, and not a `String`,
/// where their contracts speak of these bytes.
#[derive(Drop)]
pub struct Text {
    string: String,
}

impl Model for Text {
    ghost use Rattle.std.specs.Prelude.{List, ℕ, string_bytes};

    ghost Value = { List ℕ };

    ghost view = { λ t. string_bytes t.string };
}

impl Text {
    /// The text of a string, which isn't copied.
    pub fn from_string(string: String) -> Text
        ensures { result ≡ string_bytes string }
    {
        Text { string }
    }

    /// The string of the text, which isn't copied.
    pub fn into_string(self) -> String
        ensures { string_bytes result ≡ self }
    {
        self.string
    }

    /// Lends the characters, without a copy.
    pub fn as_str(&self) -> &str
        ensures { result.now ≡ self.now }
    {
        self.string.as_str()
    }

    /// Whether the bytes are the same.
    pub fn is(&self, other: &Text) -> bool
        ensures { result ≡ bytes_eq self.now other.now }
    {
        self.string == other.string
    }

    /// An equal text.
    pub fn copy(&self) -> Result<Text, AllocError>
        ensures { IfOk result (λ t. t ≡ self.now) }
    {
        Ok(Text {
            string: self.string.clone()?,
        })
    }

    /// A text with these bytes, by one copy of the slice.
    pub fn from_str(alloc: Global, text: &str) -> Result<Text, AllocError>
        ensures { IfOk result (λ t. t ≡ text.now) }
    {
        Ok(Text {
            string: String::from_str(alloc, text)?,
        })
    }
}
