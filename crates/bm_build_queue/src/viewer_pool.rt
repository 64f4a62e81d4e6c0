//! The viewers of a lane that no build has.
ghost use Rattle.std.specs.Prelude.{◌≡◌, [], nat_lt, length, is_ok, true, vec_capacity, IfSome, IfNone, IfErr, OnOk, OnErr};
ghost use Rattle.bm_lane.specs.Ends.{AllOf};
ghost use Rattle.bm_build_queue.specs.ViewerPool.{takes, with_viewer};

use bm_lane::{Viewer, Yard};
use std::marker::Model;

/// The viewers of a worker's lane that no build has. Contracts see the number of the lane, how many
/// viewers there is room for, and the viewers.
#[derive(Drop)]
pub struct ViewerPool<Y: Yard> {
    lane: u64,
    viewers: Vec<Viewer<Y>>,
}

impl<Y: Yard> Model for ViewerPool<Y> {
    ghost use Rattle.std.specs.Prelude.{vec_capacity};
    ghost use Rattle.bm_lane.specs.Ends.{AllOf};
    ghost use Rattle.bm_build_queue.specs.ViewerPool.{PoolState};

    ghost Value = { PoolState };

    ghost view = { λ p. record {
      lane = p.lane;
      room = vec_capacity p.viewers;
      viewers = p.viewers.items;
    } };

    ghost invariant = { λ p. AllOf p.lane p.viewers.items };
}

impl<Y: Yard> ViewerPool<Y> {
    /// A pool of these viewers, with the room of their list. None where one of them is of another
    /// lane.
    pub fn new(lane: u64, viewers: Vec<Viewer<Y>>) -> Option<ViewerPool<Y>>
        ensures pool { IfSome result (λ p. p ≡ record {
          lane = lane;
          room = vec_capacity viewers;
          viewers = viewers.items;
        }) }
        ensures own { IfSome result (λ _. AllOf lane viewers.items) }
    {
        if viewers.iter().all(|viewer| viewer.lane() == lane) {
            Some(ViewerPool { lane, viewers })
        } else {
            None
        }
    }

    /// The lane's number.
    pub fn lane(&self) -> u64
        ensures { result ≡ self.now.lane }
    {
        self.lane
    }

    /// Whether a viewer is here.
    pub fn has_viewer(&self) -> bool
        ensures { result ≡ nat_lt 0 (length self.now.viewers) }
    {
        !self.viewers.is_empty()
    }

    /// Takes a viewer, which is one of this lane, and has its place here until it comes back. None
    /// where builds have all of them.
    pub fn take(&mut self) -> Option<Viewer<Y>>
        ensures own { IfSome result (λ v. v.lane ≡ self.old.lane) }
        ensures taken { IfSome result (λ v. self.old ≡ with_viewer self.new v) }
        ensures room { IfSome result (λ v. takes self.new v ≡ true) }
        ensures empty { IfNone result (self.old.viewers ≡ []) }
        ensures unchanged { IfNone result (self.new ≡ self.old) }
    {
        self.viewers.pop()
    }

    /// Gives a viewer back, which takes no memory. The viewer comes back in `Err` exactly where it
    /// is of another lane, or there is no room. There is as much room as came with the pool's list.
    pub fn give(&mut self, viewer: Viewer<Y>) -> Result<(), Viewer<Y>>
        ensures taken { is_ok result ≡ takes self.old viewer }
        ensures given { OnOk result (self.new ≡ with_viewer self.old viewer) }
        ensures unchanged { OnErr result (self.new ≡ self.old) }
        ensures back { IfErr result (λ v. v ≡ viewer) }
    {
        if viewer.lane() != self.lane {
            return Err(viewer);
        }
        if self.viewers.len() >= self.viewers.capacity() {
            return Err(viewer);
        }
        self.viewers.push_reserved(viewer);
        Ok(())
    }

    /// The viewers, given back: each is one of this lane.
    pub fn into_viewers(self) -> Vec<Viewer<Y>>
        ensures all { result.items ≡ self.viewers }
        ensures own { AllOf self.lane result.items }
    {
        self.viewers
    }
}
