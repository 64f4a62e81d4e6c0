//! A list of plain items.

ghost use Rattle.std.specs.Prelude.{◌≡◌, IfOk};

use std::alloc::{AllocError, Global};
use std::marker::Model;

/// What has equal copies, which may take memory.
///
/// `Listed::copy` wants it of its items, since one function copies the lists of steps, uses of
/// locks, words and results. `Clone` can't say that memory is wanting.
pub trait Copied: Sized {
    /// An equal value.
    fn copy(&self) -> Result<Self, AllocError>
        ensures { IfOk result (λ copy. copy ≡ self.now) };
}

/// Items in their order. Contracts see them as a list.
///
/// One type serves all lists of builds, steps, words and locks. With a type for each kind of item,
/// each would need the same view and the same copy.
#[derive(Drop)]
pub struct Listed<T> {
    pub(crate) vec: Vec<T>,
}

impl<T> Model for Listed<T> {
    ghost use Rattle.std.specs.Prelude.{List};

    ghost Value = { List T };

    ghost view = { λ l. l.vec.items };
}

impl<T> Listed<T> {
    ghost use Rattle.std.specs.Prelude.{[]};

    /// No item. It takes no memory.
    pub fn new(alloc: Global) -> Listed<T>
        ensures { result ≡ [] }
    {
        Listed {
            vec: Vec::new(alloc),
        }
    }

    /// The items of this vector, in their order.
    pub fn from_vec(vec: Vec<T>) -> Listed<T>
        ensures { result ≡ vec.items }
    {
        Listed { vec }
    }

    /// The items by value.
    pub fn into_vec(self) -> Vec<T>
        ensures { result.items ≡ self }
    {
        self.vec
    }

    /// The items in their order.
    pub fn as_slice(&self) -> &[T]
        ensures { result.now ≡ self.now }
    {
        self.vec.as_slice()
    }
}

impl<T: Copied + Drop> Listed<T> {
    /// Equal items.
    pub fn copy(&self) -> Result<Listed<T>, AllocError>
        ensures { IfOk result (λ l. l ≡ self.now) }
    {
        let mut vec = Vec::with_capacity(*self.vec.allocator(), self.vec.len())?;
        for item in &self.vec {
            vec.push(item.copy()?)?;
        }
        Ok(Listed { vec })
    }
}
