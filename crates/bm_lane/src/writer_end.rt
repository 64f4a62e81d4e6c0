//! The end of a lane that shows its items.
ghost use Rattle.std.specs.Prelude.{◌≡◌, [], MatchBool, true, false};
ghost use Rattle.std.specs.Arc.{arc_value};
ghost use Rattle.crossbeam_queue.specs.Passes.{IsPassOf};
ghost use Rattle.bm_lane.specs.Relay.{hand, known};
ghost use Rattle.bm_lane.specs.Copies.{kept_book};
ghost use Rattle.bm_lane.specs.Ends.{IsWritten, IsSame, IsReady};
ghost use Rattle.bm_lane.specs.Drains.{Drains};

use crate::publisher::Publisher;
use crate::relay::{ItemPass, ItemQueue, Takes};
use crate::yard::Yard;
use std::alloc::AllocError;
use std::marker::{Model, PhantomData};
use std::sync::{Arc, Wait};

/// What a drain found.
#[derive(Clone, Copy, PartialEq, Eq)]
pub enum Drained {
    /// An item, which viewers are shown from now on.
    Took,
    /// The queue had no item.
    Empty,
}

/// The writer's end of a lane: it takes items out of the queue and shows them to the viewers, one
/// by one.
///
/// At all times what it took is what was shown, and then the held item, if any. The published book
/// is the book of what was shown. Its drop waits for the viewers that are at a look.
#[derive(Drop)]
pub struct WriterEnd<Y: Yard, R: Wait + Drop> {
    pub(crate) lane: u64,
    pub(crate) viewers: usize,
    pub(crate) queue: Arc<ItemQueue>,
    pub(crate) pass: ItemPass,
    pub(crate) publisher: Publisher<R>,
    pub(crate) of: PhantomData<Y>,
}

impl<Y: Yard, R: Wait + Drop> Model for WriterEnd<Y, R> {
    ghost use Rattle.std.specs.Prelude.{◌≡◌, ◌++◌, ◌≤◌, [], true, false, length};
    ghost use Rattle.std.specs.Arc.{arc_value};
    ghost use Rattle.crossbeam_queue.specs.Passes.{IsPassOf};
    ghost use Rattle.bm_lane.specs.Relay.{hand, known};
    ghost use Rattle.bm_lane.specs.Copies.{kept_book};
    ghost use Rattle.bm_lane.specs.Ends.{Written};

    ghost Value = { Written };

    ghost view = { λ w. record {
      lane = w.lane;
      viewers = w.viewers;
      taken = (known w.pass).taken;
      shown = w.publisher.shown;
      held = w.publisher.held;
      kept = w.publisher.kept;
    } };

    ghost invariant = { λ w. IsPassOf (arc_value w.queue) w.pass
        × (w.pass.table_id ≡ Y.queue w.lane)
        × (known w.pass ≡ hand false true [] (w.publisher.shown ++ w.publisher.held))
        × (w.publisher.history ≡ Y.copy w.lane) × (w.publisher.kept ≡ kept_book w.publisher.shown)
        × (length w.publisher.held ≤ 1) };
}

// The runtime, of which no contract says anything.
fn runtime<R: Wait + Drop>(publisher: &Publisher<R>) -> &R {
    &publisher.rt
}

impl<Y: Yard, R: Wait + Drop> WriterEnd<Y, R> {
    pub(crate) fn over(
        lane: u64,
        viewers: usize,
        queue: Arc<ItemQueue>,
        pass: ItemPass,
        publisher: Publisher<R>,
    ) -> WriterEnd<Y, R>
        requires queue { IsPassOf (arc_value queue) pass × (pass.table_id ≡ Y.queue lane) }
        requires fresh { known pass ≡ hand false true [] [] }
        requires publisher { (publisher.history ≡ Y.copy lane) × (publisher.shown ≡ [])
            × (publisher.held ≡ []) × (publisher.kept ≡ []) }
        ensures { result ≡ record {
          lane = lane;
          viewers = viewers;
          taken = [];
          shown = [];
          held = [];
          kept = [];
        } }
    {
        WriterEnd {
            lane,
            viewers,
            queue,
            pass,
            publisher,
            of: PhantomData,
        }
    }

    // Whether there is an item to show, which is then held.
    fn ready(&mut self) -> bool
        ensures ready { MatchBool result (IsReady self.old self.new)
            ((self.old.held ≡ []) × (self.new ≡ self.old)) }
        ensures before { IsWritten self.old }
        ensures after { IsWritten self.new }
    {
        if !self.publisher.is_idle() {
            return true;
        }
        match self
            .queue
            .pop_as::<Takes, R>(runtime(&self.publisher), &mut self.pass)
        {
            Some(item) => {
                self.publisher.hold(item);
                true
            }
            None => false,
        }
    }

    /// Shows the viewers one item more: the held one, or else the next of the queue. At want of
    /// memory the item is held, and goes first at the next call.
    pub fn drain(&mut self) -> Result<Drained, AllocError>
        ensures drained { Drains self.old self.new result }
        ensures before { IsWritten self.old }
        ensures after { IsWritten self.new }
    {
        if !self.ready() {
            return Ok(Drained::Empty);
        }
        self.publisher.show()?;
        Ok(Drained::Took)
    }

    /// The number of its lane.
    pub fn lane(&self) -> u64
        ensures { result ≡ self.now.lane }
    {
        self.lane
    }

    /// How many viewers its lane has.
    pub fn viewers(&self) -> usize
        ensures { result ≡ self.now.viewers }
    {
        self.viewers
    }
}
