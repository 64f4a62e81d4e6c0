//! The request numbers of a session, as ranges.

ghost use Rattle.std.specs.Prelude.{◌≡◌, ◌+◌, ◌≤◌, ◌<◌, ◌↔◌, [], None, IsTrue, IsOk, OnOk};
ghost use Rattle.bm_session.specs.Seen.{IsMerged, verdict_in};
ghost use Rattle.bm_session.specs.Ranges.{HoldsAlso, IsPlace, JoinsBefore, JoinsAfter};

use crate::reply::Verdict;
use crate::seen::Seen;
use std::alloc::{AllocError, Global};
use std::marker::Model;

/// The request numbers of a session, as sorted ranges of which no two could be one, each with the
/// first verdict on its numbers.
///
/// A worker that numbers its requests downwards by twos makes each message move all ranges, up to
/// the lane's million events. Another form can't give its sorted slice without memory.
#[derive(Drop)]
pub struct Ranges {
    vec: Vec<Seen>,
}

impl Model for Ranges {
    ghost use Rattle.std.specs.Prelude.{◌-◌, vec_len, vec_capacity};
    ghost use Rattle.bm_session.specs.Seen.{IsMerged};
    ghost use Rattle.bm_session.specs.Ranges.{RangeList};

    ghost Value = { RangeList };

    ghost view = { λ r. record {
      ranges = r.vec.items;
      room = vec_capacity r.vec - vec_len r.vec;
    } };

    ghost invariant = { λ r. IsMerged r.vec.items };
}

impl Ranges {
    /// No number.
    pub fn new(alloc: Global) -> Ranges
        ensures { result.ranges ≡ [] }
    {
        Ranges {
            vec: Vec::new(alloc),
        }
    }

    /// The ranges, sorted. No two overlap or could be one.
    pub fn as_slice(&self) -> &[Seen]
        ensures ranges { result.now ≡ self.now.ranges }
        ensures merged { IsMerged self.now.ranges }
    {
        self.vec.as_slice()
    }

    /// The verdict on the number, or None where it isn't in a range.
    pub fn verdict(&self, number: u64) -> Option<Verdict>
        ensures { result ≡ verdict_in self.now.ranges number }
    {
        let place = self.place(number);
        if place == 0 {
            return None;
        }
        let range = self.vec[place - 1];
        if number <= range.last {
            Some(range.verdict)
        } else {
            None
        }
    }

    /// Makes room for so many ranges more.
    pub fn reserve(&mut self, additional: usize) -> Result<(), AllocError>
        ensures ranges { self.new.ranges ≡ self.old.ranges }
        ensures room { self.old.room ≤ self.new.room }
        ensures ok { OnOk result (additional ≤ self.new.room) }
        ensures succeeds { additional ≤ self.old.room → IsOk result }
    {
        self.vec.reserve(additional)
    }

    /// Puts in a number that isn't there yet. It takes no memory.
    pub fn insert(&mut self, number: u64, verdict: Verdict)
        requires fresh { verdict_in self.old.ranges number ≡ None }
        requires room { 0 < self.old.room }
        ensures holds { HoldsAlso self.old.ranges self.new.ranges number verdict }
        ensures room { self.old.room ≤ self.new.room + 1 }
    {
        let place = self.place(number);
        if self.joins_before(place, number, verdict) {
            if self.joins_after(place, number, verdict) {
                let last = self.vec.remove(place).last;
                self.vec[place - 1].last = last;
            } else {
                self.vec[place - 1].last = number;
            }
        } else if self.joins_after(place, number, verdict) {
            self.vec[place].first = number;
        } else {
            let alone = Seen {
                first: number,
                last: number,
                verdict,
            };
            let _ = self.vec.insert(place, alone);
        }
    }

    /// Forgets all numbers, and keeps the room.
    pub fn clear(&mut self)
        ensures ranges { self.new.ranges ≡ [] }
        ensures room { self.old.room ≤ self.new.room }
    {
        self.vec.clear();
    }

    /// How many ranges begin at the number or before it.
    fn place(&self, number: u64) -> usize
        ensures { IsPlace self.now.ranges number result }
    {
        self.vec
            .as_slice()
            .partition_point(|range| range.first <= number)
    }

    /// Whether the range before the place goes on at the number.
    fn joins_before(&self, place: usize, number: u64, verdict: Verdict) -> bool
        requires { IsPlace self.now.ranges number place }
        ensures { IsTrue result ↔ JoinsBefore self.now.ranges place number verdict }
    {
        if place == 0 {
            return false;
        }
        let range = self.vec[place - 1];
        range.last < number && number - range.last == 1 && range.verdict == verdict
    }

    /// Whether the range at the place goes on from the number.
    fn joins_after(&self, place: usize, number: u64, verdict: Verdict) -> bool
        requires { IsPlace self.now.ranges number place }
        ensures { IsTrue result ↔ JoinsAfter self.now.ranges place number verdict }
    {
        if place == self.vec.len() {
            return false;
        }
        let range = self.vec[place];
        range.first - number == 1 && range.verdict == verdict
    }
}
