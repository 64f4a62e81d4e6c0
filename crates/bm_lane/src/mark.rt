//! What a viewer had seen at some moment.
ghost use Rattle.std.specs.Prelude.{◌≡◌, length, IsTrue};
ghost use mathlib.Core.List.{IsPrefix};

use crate::history::Front;
use crate::yard::Yard;
use std::marker::{Model, PhantomData};

/// What a viewer of a lane had seen at some moment. Contracts see the lane and the items.
#[derive(Drop)]
pub struct Mark<Y: Yard> {
    lane: u64,
    front: Front,
    count: u64,
    of: PhantomData<Y>,
}

impl<Y: Yard> Model for Mark<Y> {
    ghost use Rattle.std.specs.Prelude.{◌≡◌, length};
    ghost use Rattle.bm_lane.specs.Ends.{Watched};

    ghost Value = { Watched };

    ghost view = { λ m. record { lane = m.lane; seen = m.front.log } };

    ghost invariant = { λ m. (m.front.book ≡ Y.copy m.lane) × (m.count ≡ length m.front.log) };
}

impl<Y: Yard> Mark<Y> {
    pub(crate) fn over(lane: u64, front: Front, count: u64) -> Mark<Y>
        requires { (front.book ≡ Y.copy lane) × (count ≡ length front.log) }
        ensures { result ≡ record { lane = lane; seen = front.log } }
    {
        Mark {
            lane,
            front,
            count,
            of: PhantomData,
        }
    }

    /// The number of its lane.
    pub fn lane(&self) -> u64
        ensures { result ≡ self.now.lane }
    {
        self.lane
    }

    /// Whether as much of the same history begins with what it has.
    pub(crate) fn begins(&self, front: &Front, count: u64) -> bool
        requires { (front.now.book ≡ Y.copy self.now.lane) × (count ≡ length front.now.log) }
        ensures { IsTrue result → IsPrefix self.now.seen front.now.log }
    {
        let mut both = self.front.again();
        both.learn(front);
        self.count <= count
    }
}
