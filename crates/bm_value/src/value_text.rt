//! Texts that a value keeps.

ghost use Rattle.std.specs.Prelude.{◌≡◌, IfOk, string_bytes};

use std::alloc::{AllocError, Allocator};
use std::marker::Model;

/// ValueText that a value keeps.
#[derive(Drop)]
pub struct ValueText<A: Allocator> {
    string: String<A>,
}

impl<A: Allocator> Model for ValueText<A> {
    ghost use Rattle.std.specs.Prelude.{List, ℕ, string_bytes};

    ghost Value = { List ℕ };

    ghost view = { λ t. string_bytes t.string };
}

impl<A: Allocator> ValueText<A> {
    /// Keeps this text.
    pub fn from_string(string: String<A>) -> ValueText<A>
        ensures { result ≡ string_bytes string }
    {
        ValueText { string }
    }

    /// The text, which the value gives up.
    pub fn into_string(self) -> String<A>
        ensures { string_bytes result ≡ self }
    {
        self.string
    }

    /// Lends the text, without a copy.
    pub fn as_str(&self) -> &str
        ensures { result.now ≡ self.now }
    {
        self.string.as_str()
    }
}

impl<A: Allocator + Copy> ValueText<A> {
    /// This text, under the allocator.
    pub fn from_str(alloc: A, text: &str) -> Result<ValueText<A>, AllocError>
        ensures { IfOk result (λ t. t ≡ text.now) }
    {
        Ok(ValueText::from_string(String::from_str(alloc, text)?))
    }

    /// An equal text, under the same allocator.
    pub fn copy(&self) -> Result<ValueText<A>, AllocError>
        ensures { IfOk result (λ t. t ≡ self.now) }
    {
        Ok(ValueText::from_string(self.string.clone()?))
    }
}
