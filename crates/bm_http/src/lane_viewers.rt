//! The viewers of all lanes, of which each look takes one.
ghost use Rattle.std.specs.Prelude.{◌≡◌, ◌↔◌, ◌<◌, ◌+◌, ◌∷◌, ◌++◌, [], map, Some, None, slice_get, slice_set, vec_len, vec_capacity, IfSome, IfOk, MatchOption};
ghost use Rattle.bm_http.specs.Placed.{InOrder, IsAway, IsMissing, IsPlaced};

use bm_lane::{Viewer, Yard};
use std::alloc::{AllocError, Global};
use std::marker::Model;
use thiserror::Error;

/// Why viewers can't serve.
#[derive(Clone, Copy, Debug, PartialEq, Eq, Error)]
pub enum ViewersError {
    /// Memory is wanting.
    #[error("out of memory")]
    Memory,
    /// They aren't one of each lane, in the order of the lanes.
    #[error("a viewer of another lane")]
    Lane,
}

impl From<AllocError> for ViewersError {
    fn from(_error: AllocError) -> ViewersError {
        ViewersError::Memory
    }
}

/// The viewers of all lanes, each at the place of its lane while no look has it. Contracts see a
/// list with an entry for each lane: its viewer, or none.
#[derive(Drop)]
pub struct LaneViewers<Y: Yard> {
    places: Vec<Option<Viewer<Y>>>,
    // Room for all, so that they can be given back without memory.
    room: Vec<Viewer<Y>>,
}

impl<Y: Yard> Model for LaneViewers<Y> {
    ghost use Rattle.std.specs.Prelude.{◌≡◌, ◌≤◌, [], List, Option, vec_len, vec_capacity};
    ghost use Rattle.bm_lane.specs.Ends.{Watched};
    ghost use Rattle.bm_http.specs.Placed.{IsPlaced};

    ghost Value = { List (Option Watched) };

    ghost view = { λ v. v.places.items };

    ghost invariant = { λ v. IsPlaced v.places.items × (v.room.items ≡ [])
        × (vec_len v.places ≤ vec_capacity v.room) };
}

/// Appends the viewer, which has to be that of the lane whose number is the length of `places`.
fn add<Y: Yard>(places: &mut Vec<Option<Viewer<Y>>>, viewer: Viewer<Y>) -> Result<(), ViewersError>
    requires { IsPlaced places.old.items }
    ensures added { IfOk result (λ _. places.new.items ≡ places.old.items ++ Some viewer ∷ []) }
    ensures placed { IfOk result (λ _. IsPlaced places.new.items) }
    ensures count { IfOk result (λ _. vec_len places.new ≡ vec_len places.old + 1) }
{
    if viewer.lane() != places.len() as u64 {
        return Err(ViewersError::Lane);
    }
    if places.push(Some(viewer)).is_err() {
        return Err(ViewersError::Memory);
    }
    Ok(())
}

/// Appends the viewer that lies at a place. None where none does.
fn keep<Y: Yard>(viewers: &mut Vec<Viewer<Y>>, place: Option<Viewer<Y>>) -> Option<()>
    requires { vec_len viewers.old < vec_capacity viewers.old }
    ensures kept { MatchOption result (place ≡ None)
        (λ _. map Some viewers.old.items ++ place ∷ [] ≡ map Some viewers.new.items) }
    ensures room { vec_capacity viewers.new ≡ vec_capacity viewers.old }
{
    let Some(viewer) = place else {
        return None;
    };
    viewers.push_reserved(viewer);
    Some(())
}

impl<Y: Yard> LaneViewers<Y> {
    /// The viewers of all lanes, in the order of the lanes: no place is empty. This is where each
    /// is compared with its place.
    pub fn new(alloc: Global, viewers: Vec<Viewer<Y>>) -> Result<LaneViewers<Y>, ViewersError>
        ensures { IfOk result (λ all. all ≡ map Some viewers.items) }
    {
        let mut places = Vec::with_capacity(alloc, viewers.len())?;
        let room = Vec::with_capacity(alloc, viewers.len())?;
        for viewer in viewers {
            add(&mut places, viewer)?;
        }
        Ok(LaneViewers { places, room })
    }

    /// Takes the viewer of a lane, whose place is then empty. None exactly where it was empty
    /// before, since another look has the viewer, or there is no such lane. No other place changes.
    pub fn take(&mut self, lane: u64) -> Option<Viewer<Y>>
        ensures missing { (result ≡ None) ↔ IsMissing self.old lane }
        ensures own { IfSome result (λ v. v.lane ≡ lane) }
        ensures taken { MatchOption result (self.new ≡ self.old) (λ v.
            (slice_get self.old lane ≡ Some (Some v)) × (self.new ≡ slice_set self.old lane None)) }
    {
        let place = lane as usize;
        if place >= self.places.len() {
            return None;
        }
        self.places[place].take()
    }

    /// Puts a viewer back to its lane's place. No other place changes.
    pub fn put(&mut self, viewer: Viewer<Y>)
        ensures { self.new ≡ slice_set self.old viewer.lane (Some viewer) }
    {
        let place = viewer.lane() as usize;
        if place < self.places.len() {
            self.places[place] = Some(viewer);
        }
    }

    /// The viewers, given back in the order of the lanes. None exactly where a look has one.
    pub fn into_vec(self) -> Option<Vec<Viewer<Y>>>
        ensures order { IfSome result (λ viewers. InOrder viewers.items) }
        ensures all { MatchOption result (IsAway self) (λ viewers. self ≡ map Some viewers.items) }
    {
        let LaneViewers { places, mut room } = self;
        for place in places {
            keep(&mut room, place)?;
        }
        Some(room)
    }
}
