//! What came of the events of a run.

ghost use Rattle.std.specs.Prelude.{◌≡◌, IfOk};

use crate::item::Item;
use crate::refusal::Refusal;
use crate::reply::Reply;
use std::alloc::AllocError;

/// What came of an event of a run.
#[derive(Drop)]
pub enum Ran {
    /// It was taken: the reply, and the item if it has one.
    Done(Reply, Option<Item>),
    /// It was passed over. The reason is never want of memory.
    Refused(Refusal),
}

impl Ran {
    /// An equal value. The lines of an item are shared.
    pub fn copy(&self) -> Result<Ran, AllocError>
        ensures { IfOk result (λ ran. ran ≡ self.now) }
    {
        Ok(match self {
            Ran::Done(reply, Some(item)) => Ran::Done(*reply, Some(item.copy()?)),
            Ran::Done(reply, None) => Ran::Done(*reply, None),
            Ran::Refused(reason) => Ran::Refused(*reason),
        })
    }
}
