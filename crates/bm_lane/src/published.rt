//! The published book of a lane, and what makes it grow.
use crate::history::Front;
use atomic_table::{Join, Split};
use bm_session::Item;
use bm_store::Book;
use crossbeam_utils::rule::{Outcome, Protocol};
use left_right::Absorb;
use std::alloc::AllocError;

/// The book of the items that it was given, with how many those were, and with their history.
#[derive(Drop)]
pub struct Published {
    pub book: Book,
    pub count: u64,
    pub front: Front,
}

/// An item, with the history that it ends.
#[derive(Drop)]
pub struct Addition {
    pub item: Item,
    pub count: u64,
    pub front: Front,
}

impl Absorb<Addition> for Published {
    ghost use Rattle.bm_store.specs.Kept.{kept_after};

    type State = (Book, u64, Front);

    ghost state = { λ p. (p.book, p.count, p.front) };

    ghost applied = { λ s op. (kept_after s.0 op.item, op.count, op.front) };

    // The two copies share the lines of the item.
    fn absorb_first(&mut self, operation: &Addition, _other: &Published) -> Result<(), AllocError> {
        self.book.apply(&operation.item)?;
        self.count = operation.count;
        self.front = operation.front.again();
        Ok(())
    }
}

/// What a seat has seen, once it was told anything. No value of it is made.
pub type Sight = Option<Front>;

/// The rule of the copy: it is the book of its history, and what each seat has seen is a beginning
/// of that.
pub struct Grows;

impl Protocol<Published, Sight> for Grows {
    ghost use Rattle.std.specs.Prelude.{None};
    ghost use Rattle.bm_lane.specs.Copies.{Keeps};

    ghost holds = { Keeps };

    ghost first = { None };
}

/// A step that sees the copy.
pub struct Sees;

impl Outcome<Published, Sight> for Sees {
    ghost use Rattle.bm_lane.specs.Copies.{Shows};

    ghost then = { Shows };
}

/// The writer tells all that it knows.
pub struct Tells;

impl Split<Sight> for Tells {
    ghost left = { λ v. v };

    ghost right = { λ v. v };
}

impl Join<Sight> for Tells {
    ghost use Rattle.std.specs.Prelude.{None};

    ghost both = { λ v w. w };

    ghost spent = { None };
}
