//! A list that has one item most of the time.

ghost use Rattle.std.specs.Prelude.{◌≡◌, [], ◌∷◌, ◌++◌, OnOk, OnErr};
ghost use Rattle.std.specs.Mem.{FitsInMemory};
ghost use Rattle.bm_lines.specs.OneOrMany.{items_of};

use std::alloc::{AllocError, Global};
use std::{mem, slice};

/// A list. One item, the common case, lies in the value and takes no memory of its own.
#[derive(Drop)]
pub enum OneOrMany<T> {
    /// The only item.
    One(T),
    /// Any number of items.
    Many(Vec<T>),
}

impl<T> OneOrMany<T> {
    /// No item.
    pub fn new(alloc: Global) -> OneOrMany<T>
        ensures { items_of result ≡ [] }
    {
        OneOrMany::Many(Vec::new(alloc))
    }

    /// The items, in order.
    pub fn as_slice(&self) -> &[T]
        requires { FitsInMemory T.row }
        ensures { result.now ≡ items_of self.now }
    {
        match self {
            OneOrMany::One(item) => slice::from_ref(item),
            OneOrMany::Many(items) => items.as_slice(),
        }
    }
}

impl<T: Drop> OneOrMany<T> {
    /// Appends an item. After want of memory the item is gone.
    pub fn push(&mut self, alloc: Global, item: T) -> Result<(), AllocError>
        ensures ok { OnOk result (items_of self.new ≡ items_of self.old ++ item ∷ []) }
        ensures err { OnErr result (items_of self.new ≡ items_of self.old) }
    {
        match self {
            OneOrMany::Many(items) => {
                if items.is_empty() {
                    *self = OneOrMany::One(item);
                } else {
                    items.push(item)?;
                }
            }
            OneOrMany::One(_) => {
                let mut items = Vec::with_capacity(alloc, 2)?;
                if let OneOrMany::One(first) = mem::replace(self, OneOrMany::new(alloc)) {
                    items.push_reserved(first);
                }
                items.push_reserved(item);
                *self = OneOrMany::Many(items);
            }
        }
        Ok(())
    }
}
