//! What one viewer shows of what was asked for at the first look: a long answer is only begun.
ghost use Rattle.std.specs.Prelude.{◌≡◌, ◌<◌, ◌/◌, IfOk, IfSome};
ghost use Rattle.std.specs.Cow.{cow_str_bytes};
ghost use Rattle.bm_http.specs.FirstLooks.{GoesOn, ShowsLines, Tells, lane_asked, shown_by};
ghost use Rattle.bm_http.specs.Replies.{chunk_reply};
ghost use Rattle.bm_http.specs.Shown.{asked_by};

use crate::log_request::{LogRequest, Span};
use crate::long_answer::{LongAnswer, MOST_BYTES};
use crate::lookup::{Lookup, state_by};
use bm_lane::{Viewer, Yard};
use bm_store::Chunk;
use std::alloc::{AllocError, Global};
use std::borrow::CowStr;

/// What one viewer showed of what a request asks for, of which the answer is made.
#[derive(Drop)]
pub enum FirstLook<'t, Y: Yard> {
    /// All of it.
    Whole(Lookup<'t>),
    /// Many lines, which are still to be told.
    Long(LongAnswer<Y>),
}

// The beginning of a long answer, by a look at where it ends.
fn long_by<'t, Y: Yard>(
    alloc: Global,
    viewer: &mut Viewer<Y>,
    command: u64,
    id: u64,
    name: CowStr<'t>,
    span: Span,
) -> Result<FirstLook<'t, Y>, AllocError>
    ensures on { GoesOn viewer.old viewer.new }
    ensures shown { IfOk result (λ g. (r : _)
        × ShowsLines viewer.new command (cow_str_bytes name.entry) span.offset span.limit r
        × (shown_by g ≡ chunk_reply id r)) }
{
    let state = match viewer.state(command, name.as_str()) {
        Ok(state) => state,
        Err(refused) => return Ok(FirstLook::Whole(Lookup::Lines(id, Err(refused)))),
    };
    let count = span.limit.min(state.lines.saturating_sub(span.offset));
    // A log of 2^64 lines has no memory, and one that had lines has them still.
    if count == 0 || state.lines == u64::MAX {
        return Err(AllocError);
    }
    let name = name.into_owned(alloc)?;
    let answer = LongAnswer::new(alloc, viewer, id, command, name, span.offset, count)?;
    Ok(FirstLook::Long(answer))
}

// A look of one viewer at lines of a command's log: all of them, where one piece has room for
// their text.
fn lines_by<'t, Y: Yard>(
    alloc: Global,
    viewer: &mut Viewer<Y>,
    command: u64,
    id: u64,
    name: CowStr<'t>,
    span: Span,
) -> Result<FirstLook<'t, Y>, AllocError>
    ensures on { GoesOn viewer.old viewer.new }
    ensures shown { IfOk result (λ g. (r : _)
        × ShowsLines viewer.new command (cow_str_bytes name.entry) span.offset span.limit r
        × (shown_by g ≡ chunk_reply id r)) }
{
    match viewer.portion(
        command,
        name.as_str(),
        span.offset,
        span.limit,
        0,
        MOST_BYTES,
    ) {
        Err(refused) => Ok(FirstLook::Whole(Lookup::Lines(id, Err(refused)))),
        Ok(portion) => {
            if !portion.is_last {
                return long_by(alloc, viewer, command, id, name, span);
            }
            let chunk = Chunk {
                first_line: span.offset,
                lines: portion.lines,
                content: portion.content,
            };
            Ok(FirstLook::Whole(Lookup::Lines(id, Ok(chunk))))
        }
    }
}

impl<'t> LogRequest<'t> {
    /// The lane whose viewer is asked, of so many; none where no viewer is needed.
    pub fn lane(&self, lanes: u64) -> Option<u64>
        requires { 0 < lanes }
        ensures { result ≡ lane_asked (asked_by self.now) lanes }
    {
        match self {
            LogRequest::Refused(_) => None,
            LogRequest::State(id, _) | LogRequest::Lines(id, _, _) => Some(*id % lanes),
        }
    }

    /// What the viewer of that lane shows of it. An error where memory is wanting.
    pub fn first_look<Y: Yard>(
        self,
        alloc: Global,
        lanes: u64,
        viewer: &mut Viewer<Y>,
    ) -> Result<FirstLook<'t, Y>, AllocError>
        requires some { 0 < lanes }
        requires own { IfSome (lane_asked (asked_by self) lanes) (λ lane. viewer.old.lane ≡ lane) }
        ensures on { GoesOn viewer.old viewer.new }
        ensures told { IfOk result
            (λ g. Tells (asked_by self.entry) lanes viewer.new (shown_by g)) }
    {
        match self {
            LogRequest::Refused(refusal) => Ok(FirstLook::Whole(Lookup::Refused(refusal))),
            LogRequest::State(id, name) => {
                Ok(FirstLook::Whole(state_by(viewer, id / lanes, id, name)))
            }
            LogRequest::Lines(id, name, span) => {
                lines_by(alloc, viewer, id / lanes, id, name, span)
            }
        }
    }
}
