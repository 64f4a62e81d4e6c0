//! What an update carries.

ghost use Rattle.std.specs.Prelude.{◌≡◌, [], ◌∷◌, ◌++◌, IfOk, OnOk, OnErr};

use bm_lines::{Letter, LogName, Text};
use bm_value::Num;
use std::alloc::{AllocError, Global};
use std::marker::Model;

/// An item of an update (this project's profile).
#[derive(Drop)]
pub enum Field {
    /// A text of standard output, standard error or of headers.
    Text(Letter, Text),
    /// A text of the log with this name, whose lines have the letter `o`.
    Named(LogName, Text),
    /// The exit code.
    Rc(Num),
}

impl Field {
    /// An equal item.
    pub fn copy(&self) -> Result<Field, AllocError>
        ensures { IfOk result (λ f. f ≡ self.now) }
    {
        match self {
            Field::Text(letter, text) => Ok(Field::Text(*letter, text.copy()?)),
            Field::Named(name, text) => Ok(Field::Named(name.copy()?, text.copy()?)),
            Field::Rc(n) => Ok(Field::Rc(*n)),
        }
    }
}

/// The items of an update, in order.
#[derive(Drop)]
pub struct Fields {
    vec: Vec<Field>,
}

impl Model for Fields {
    ghost use Rattle.std.specs.Prelude.{List};
    ghost use Rattle.bm_msg.specs.declared.field.Field.{Field};

    ghost Value = { List Field };

    ghost view = { λ f. f.vec.items };
}

impl Fields {
    /// No item.
    pub fn new(alloc: Global) -> Fields
        ensures { result ≡ [] }
    {
        Fields {
            vec: Vec::new(alloc),
        }
    }

    /// The items of a vector, in order.
    pub fn from_vec(vec: Vec<Field>) -> Fields
        ensures { result ≡ vec.items }
    {
        Fields { vec }
    }

    /// The items by value.
    pub fn into_vec(self) -> Vec<Field>
        ensures { result.items ≡ self }
    {
        let Fields { vec } = self;
        vec
    }

    /// The items, in order.
    pub fn as_slice(&self) -> &[Field]
        ensures { result.now ≡ self.now }
    {
        self.vec.as_slice()
    }

    /// Appends an item. After want of memory the item is gone.
    pub fn push(&mut self, field: Field) -> Result<(), AllocError>
        ensures ok { OnOk result (self.new ≡ self.old ++ field ∷ []) }
        ensures err { OnErr result (self.new ≡ self.old) }
    {
        self.vec.push(field)?;
        Ok(())
    }

    /// Equal items.
    pub fn copy(&self) -> Result<Fields, AllocError>
        ensures { IfOk result (λ f. f ≡ self.now) }
    {
        let fields = self.as_slice();
        let mut vec = Vec::with_capacity(*self.vec.allocator(), fields.len())?;
        for field in fields {
            vec.push(field.copy()?)?;
        }
        Ok(Fields { vec })
    }
}
