//! The routes with the viewers that they look at.
ghost use Rattle.std.specs.Prelude.{◌≡◌, ◌⊎◌, ◌<◌, IfOk, IfSome, length};
ghost use Rattle.std.specs.Arc.{arc_value};
ghost use Rattle.bm_http.specs.Placed.{InOrder};
ghost use Rattle.bm_http.specs.FirstLooks.{GoesOn, Tells, lane_asked, shown_by};
ghost use Rattle.bm_http.specs.Replies.{unavailable};
ghost use Rattle.bm_http.specs.Shown.{asked_by};
ghost use Rattle.bm_http.specs.WholeOrLong.{reply_told};
ghost use Rattle.bm_web_server.specs.Serves.{Serves, TellsOf};

use crate::handler::{Handler, Served};
use bm_http::{
    Answer, FirstLook, LaneViewers, LogRequest, LongAnswer, Lookup, PieceError, Routes,
    ViewersError, WholeOrLong,
};
use bm_lane::{Mark, Viewer, Yard};
use bytes::Bytes;
use std::alloc::{AllocError, Global};
use std::sync::{Arc, Mutex, Wait};

/// The routes, and the viewer of each lane.
#[derive(Drop)]
pub struct LogService<Y: Yard> {
    routes: Routes,
    // How many lanes there are.
    lanes: u64,
    // A lock for each lane: whoever holds it may take the lane's viewer.
    // One lock for whole looks would have each lane's readers wait for those of all others.
    turns: Vec<Mutex<()>>,
    // Held for a moment alone. What a lock guards is known by its type. That each viewer is of its
    // place's lane is a fact of all of them, so all lie under one lock.
    viewers: Mutex<LaneViewers<Y>>,
    ghost some: { 0 < lanes },
}

// A lock for each of so many lanes.
fn turns_of(alloc: Global, lanes: usize) -> Result<Vec<Mutex<()>>, AllocError> {
    let mut turns = Vec::with_capacity(alloc, lanes)?;
    for _ in 0..lanes {
        turns.push(Mutex::new(()))?;
    }
    Ok(turns)
}

// What a lane's viewer shows of a request, and the mark of all that it has then seen.
fn newest_look<'t, Y: Yard>(
    alloc: Global,
    request: LogRequest<'t>,
    lanes: u64,
    viewer: &mut Viewer<Y>,
) -> (Result<FirstLook<'t, Y>, AllocError>, Mark<Y>)
    requires some { 0 < lanes }
    requires own { IfSome (lane_asked (asked_by request) lanes) (λ lane. viewer.old.lane ≡ lane) }
    ensures on { GoesOn viewer.old viewer.new }
    ensures newest { result.1 ≡ viewer.new }
    ensures told { IfOk result.0
        (λ g. Tells (asked_by request.entry) lanes result.1 (shown_by g)) }
{
    let look = request.first_look(alloc, lanes, viewer);
    (look, viewer.mark())
}

impl<Y: Yard> LogService<Y> {
    /// The service of so many lanes as there are viewers, which are in the order of their lanes.
    pub fn new(alloc: Global, viewers: Vec<Viewer<Y>>) -> Result<LogService<Y>, ViewersError>
        requires { 0 < length viewers.items }
        ensures { IfOk result (λ service. service.lanes ≡ length viewers.items) }
    {
        Ok(LogService {
            routes: Routes::new(alloc)?,
            lanes: viewers.len() as u64,
            turns: turns_of(alloc, viewers.len())?,
            viewers: Mutex::new(LaneViewers::new(alloc, viewers)?),
        })
    }

    // Takes the viewer of a lane. None where it isn't there.
    fn take<R: Wait>(&self, rt: &R, lane: u64) -> Option<Viewer<Y>>
        ensures { IfSome result (λ viewer. viewer.lane ≡ lane) }
    {
        self.viewers.lock(rt).take(lane)
    }

    // Puts a viewer back to its lane.
    fn put<R: Wait>(&self, rt: &R, viewer: Viewer<Y>) {
        self.viewers.lock(rt).put(viewer);
    }

    // The answer to what needs a look of a viewer, which is held for the look alone.
    fn look<R: Wait>(
        &self,
        rt: &R,
        alloc: Global,
        request: LogRequest<'_>,
    ) -> Result<Served<LongAnswer<Y>, Mark<Y>>, AllocError>
        ensures { IfOk result (λ served. TellsOf (asked_by request.entry) self.now.lanes served.seen
            (reply_told (λ text. text) served.reply)) }
    {
        let Some(lane) = request.lane(self.lanes) else {
            return Err(AllocError);
        };
        let Some(turn) = self.turns.get(lane as usize) else {
            return Err(AllocError);
        };
        let turn = turn.lock(rt);
        let Some(mut viewer) = self.take(rt, lane) else {
            return Err(AllocError);
        };
        let (look, seen) = newest_look(alloc, request, self.lanes, &mut viewer);
        self.put(rt, viewer);
        drop(turn);
        Ok(Served {
            reply: look?.answer(alloc)?,
            seen: Some(seen),
        })
    }

    // The answer to a request, which needs no viewer where it is refused as it stands.
    fn serve<R: Wait>(
        &self,
        rt: &R,
        alloc: Global,
        request: LogRequest<'_>,
    ) -> Result<Served<LongAnswer<Y>, Mark<Y>>, AllocError>
        ensures { IfOk result (λ served. TellsOf (asked_by request.entry) self.now.lanes served.seen
            (reply_told (λ text. text) served.reply)) }
    {
        match request {
            LogRequest::Refused(refusal) => Ok(Served {
                reply: WholeOrLong::Whole(Lookup::Refused(refusal).answer(alloc)?),
                seen: None,
            }),
            request => self.look(rt, alloc, request),
        }
    }

    fn reply<R: Wait>(
        &self,
        rt: &R,
        alloc: Global,
        method: &str,
        target: &str,
    ) -> Result<Served<LongAnswer<Y>, Mark<Y>>, AllocError>
        ensures { IfOk result (λ served. Serves self.now.lanes method.now target.now served.seen
            (reply_told (λ text. text) served.reply)) }
    {
        let request = self.routes.request(alloc, method, target)?;
        self.serve(rt, alloc, request)
    }

    /// The viewers, given back in the order of the lanes, where nobody else holds the service any
    /// more. They are counted, since of what a lock guards nothing but its type is known.
    pub fn into_viewers(service: Arc<LogService<Y>>) -> Option<Vec<Viewer<Y>>>
        ensures order { IfSome result (λ viewers. InOrder viewers.items) }
        ensures all { IfSome result
            (λ viewers. length viewers.items ≡ (arc_value service).lanes) }
    {
        let service = Arc::into_inner(service)?;
        let viewers = service.viewers.into_inner().into_vec()?;
        if viewers.len() as u64 != service.lanes {
            return None;
        }
        Some(viewers)
    }
}

impl<Y: Yard> Handler for LogService<Y> {
    type Rest = LongAnswer<Y>;

    type Source = Mark<Y>;

    // It is made of a mark, which only a viewer of that lane gives: of what that had then seen.
    ghost gives = { λ service method target seen reply. (reply ≡ unavailable)
        ⊎ Serves service.lanes method target seen reply };

    ghost text = { λ text. text };

    fn answer<R: Wait>(
        &self,
        rt: &R,
        alloc: Global,
        method: &str,
        target: &str,
    ) -> Served<LongAnswer<Y>, Mark<Y>> {
        match self.reply(rt, alloc, method, target) {
            Ok(served) => served,
            Err(_) => Served {
                reply: WholeOrLong::Whole(Answer::unavailable(alloc)),
                seen: None,
            },
        }
    }

    fn piece<R: Wait>(
        &self,
        rt: &R,
        alloc: Global,
        rest: &mut LongAnswer<Y>,
    ) -> Option<Result<Bytes, PieceError>> {
        let Some(turn) = self.turns.get(rest.lane() as usize) else {
            return Some(Err(PieceError::View));
        };
        let turn = turn.lock(rt);
        let Some(mut viewer) = self.take(rt, rest.lane()) else {
            return Some(Err(PieceError::View));
        };
        let next = rest.next(&mut viewer);
        self.put(rt, viewer);
        drop(turn);
        match next {
            Some(Ok(piece)) => Some(piece.told(alloc)),
            Some(Err(error)) => Some(Err(error)),
            None => None,
        }
    }
}
