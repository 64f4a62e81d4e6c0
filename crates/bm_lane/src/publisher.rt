//! The writer's side of the published copy: what is shown, and what is held until there is memory.
ghost use Rattle.std.specs.Prelude.{◌≡◌, ◌∷◌, ◌++◌, [], ◌<◌, ◌^◌, ◌≤◌, ◌↔◌, length, drop, IsTrue};
ghost use Rattle.std.specs.Prelude.{IfOk, OnOk, MatchResult, Some, None};
ghost use Rattle.left_right.specs.Sides.{view};
ghost use mathlib.Core.List.{IsPrefix};
ghost use Rattle.bm_lane.specs.Copies.{kept_book, IsBook};
ghost use Rattle.bm_lane.specs.Additions.{Chain, last_front, kept_list};

use crate::history::{Front, Head};
use crate::published::{Addition, Grows, Published, Sees, Sight};
use bm_session::Item;
use bm_store::Book;
use core::mem::replace_with;
use left_right::writer::Writer;
use std::alloc::AllocError;
use std::marker::Model;
use std::sync::Wait;

/// The writing side of the published copy: it applies additions, which readers then see.
pub type CopyWriter = Writer<Published, Addition, Sight, Grows>;

/// The end of the history, the copy that viewers see, and the addition that the copy had no memory
/// for. It keeps the runtime, since its drop waits for the viewers that are at a look.
pub struct Publisher<R: Wait + Drop> {
    pub rt: R,
    copy: CopyWriter,
    head: Head,
    kept: Option<Addition>,
}

impl<R: Wait + Drop> Model for Publisher<R> {
    ghost use Rattle.std.specs.Prelude.{◌≡◌, ◌++◌, ◌≤◌, length, drop};
    ghost use Rattle.logbook.specs.Pages.{book_coded};
    ghost use Rattle.bm_lane.specs.Copies.{IsBook};
    ghost use Rattle.bm_lane.specs.Additions.{Showing, Chain, last_front, items_of, kept_list};

    ghost Value = { Showing };

    ghost view = { λ p. record {
      history = p.copy.desk.shown.value.front.book;
      shown = p.copy.desk.shown.value.front.log;
      held = items_of (drop p.copy.behind p.copy.log.items ++ kept_list p.kept);
      kept = p.copy.desk.shown.value.book;
    } };

    ghost invariant = { λ p. IsBook p.copy.desk.shown.value
        × Chain p.copy.desk.shown.value.front
        (drop p.copy.behind p.copy.log.items ++ kept_list p.kept)
        × (last_front p.copy.desk.shown.value.front
        (drop p.copy.behind p.copy.log.items ++ kept_list p.kept) ≡ p.head.all)
        × (length (drop p.copy.behind p.copy.log.items ++ kept_list p.kept) ≤ 1) };
}

impl<R: Wait + Drop> Drop for Publisher<R> {
    fn drop(self) {
        let Self {
            rt,
            copy,
            head: _,
            kept: _,
        } = self;
        copy.take(&rt);
    }
}

/// Shows all that was appended.
pub fn publish<R: Wait>(copy: CopyWriter, rt: &R) -> (CopyWriter, Result<(), AllocError>)
    requires { IsBook copy.desk.shown.value
        × Chain copy.desk.shown.value.front (drop copy.behind copy.log.items) }
    ensures { MatchResult result.1
        (λ _. (view result.0.desk.place ≡ Some result.0.desk.shown.value.front)
        × IsBook result.0.desk.shown.value
        × (result.0.desk.shown.value.front
        ≡ last_front copy.desk.shown.value.front (drop copy.behind copy.log.items))
        × (drop result.0.behind result.0.log.items ≡ []))
        (λ _. (result.0.desk.shown.value ≡ copy.desk.shown.value)
        × (drop result.0.behind result.0.log.items ≡ drop copy.behind copy.log.items)) }
{
    copy.publish_as::<Sees, R>(rt)
}

// Gives the copy the addition that met want of memory.
fn refill(copy: &mut CopyWriter, kept: &mut Option<Addition>) -> Result<(), AllocError>
    ensures desk { copy.new.desk ≡ copy.old.desk }
    ensures all { drop copy.new.behind copy.new.log.items ++ kept_list kept.new
        ≡ drop copy.old.behind copy.old.log.items ++ kept_list kept.old }
    ensures none { OnOk result (kept.new ≡ None) }
{
    if let Some(op) = kept.take() {
        if let Err(op) = copy.append(op) {
            *kept = Some(op);
            return Err(AllocError);
        }
    }
    Ok(())
}

impl<R: Wait + Drop> Publisher<R> {
    /// A publisher of what this copy shows.
    pub fn over(rt: R, copy: CopyWriter, head: Head) -> Publisher<R>
        requires book { IsBook copy.desk.shown.value × (drop copy.behind copy.log.items ≡ []) }
        requires head { head.all ≡ copy.desk.shown.value.front }
        ensures { result ≡ record {
          history = head.all.book;
          shown = head.all.log;
          held = [];
          kept = kept_book head.all.log;
        } }
    {
        Publisher {
            rt,
            copy,
            head,
            kept: None,
        }
    }

    /// Whether nothing is held. At most one item is.
    pub fn is_idle(&self) -> bool
        ensures idle { IsTrue result ↔ (self.now.held ≡ []) }
        ensures few { length self.now.held ≤ 1 }
    {
        match self.kept {
            Some(_) => false,
            None => !self.copy.has_pending_operations(),
        }
    }

    /// Holds an item, which no viewer sees before `show`.
    pub fn hold(&mut self, item: Item)
        requires { self.old.held ≡ [] }
        ensures { self.new ≡ record self.old { held = item ∷ [] } }
    {
        self.head.add(&self.rt, &item);
        self.kept = Some(Addition {
            item,
            count: self.head.count,
            front: self.head.all.again(),
        });
    }

    /// Shows what is held to each viewer that looks from now on. Out of memory nothing has changed.
    pub fn show(&mut self) -> Result<(), AllocError>
        ensures { MatchResult result (λ _. self.new ≡ record self.old {
          shown = self.old.shown ++ self.old.held;
          held = [];
          kept = kept_book (self.old.shown ++ self.old.held);
        }) (λ _. self.new ≡ self.old) }
    {
        refill(&mut self.copy, &mut self.kept)?;
        replace_with(&mut self.copy, &self.rt, publish::<R>)
    }

    /// What a viewer of this copy has seen was shown.
    pub fn has(&mut self, seen: &Front)
        requires { (seen.now.book ≡ self.old.history) × (self.old.held ≡ []) }
        ensures prefix { IsPrefix seen.now.log self.old.shown }
        ensures same { self.new ≡ self.old }
    {
        self.head.has(&self.rt, seen)
    }

    /// Ends the copy. Its book is left.
    pub fn end(self) -> Book
        ensures { result ≡ kept_book self.shown }
    {
        let Publisher {
            rt,
            copy,
            head: _,
            kept: _,
        } = self;
        let Published {
            book,
            count: _,
            front: _,
        } = Box::into_inner(copy.take(&rt));
        book
    }
}
