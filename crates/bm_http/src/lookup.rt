//! What viewers show of what was asked for.
ghost use Rattle.std.specs.Prelude.{◌≡◌, ◌<◌, ◌/◌, IfOk, length};
ghost use Rattle.std.specs.Cow.{cow_str_bytes};
ghost use mathlib.Core.List.{IsPrefix};
ghost use Rattle.bm_lane.specs.Looks.{GivesChunk, GivesState};
ghost use Rattle.bm_http.specs.Requests.{state, lines};
ghost use Rattle.bm_http.specs.Replies.{Answers, SeesOn};
ghost use Rattle.bm_http.specs.Replies.{chunk_reply, no_view, state_reply};
ghost use Rattle.bm_http.specs.Shown.{reply_of, told_by};

use crate::answer::Answer;
use crate::bodies;
use crate::log_request::Span;
use crate::request_refusal::RequestRefusal;
use bm_lane::{Viewer, Yard};
use bm_store::{Chunk, LogState, ViewRefusal};
use std::alloc::{AllocError, Global};
use std::borrow::CowStr;

/// What the viewers showed of what a request asks for, of which the answer is made.
#[derive(Drop)]
pub enum Lookup<'t> {
    /// The request was refused as it stands.
    Refused(RequestRefusal),
    /// What a viewer said of the log with this id, under this name.
    State(u64, CowStr<'t>, Result<LogState, ViewRefusal>),
    /// The lines that a viewer gave of the log with this id.
    Lines(u64, Result<Chunk, ViewRefusal>),
}

impl<'t> Lookup<'t> {
    /// The answer. No viewer is needed for it.
    pub fn answer(self, alloc: Global) -> Result<Answer, AllocError>
        ensures { IfOk result (λ a. reply_of a ≡ told_by self.entry) }
    {
        match self {
            Lookup::Refused(refusal) => Answer::refusal(alloc, refusal),
            Lookup::State(id, name, seen) => with_state(alloc, id, name.as_str(), seen),
            Lookup::Lines(id, seen) => with_chunk(alloc, id, seen),
        }
    }
}

// The answer where a viewer shows no log.
fn without_view(alloc: Global, refused: ViewRefusal) -> Result<Answer, AllocError>
    ensures { IfOk result (λ a. reply_of a ≡ no_view refused) }
{
    match refused {
        ViewRefusal::NoLog => Answer::refusal(alloc, RequestRefusal::NoSuchLog),
        ViewRefusal::Closed | ViewRefusal::Mem => Ok(Answer::unavailable(alloc)),
    }
}

fn with_state(
    alloc: Global,
    id: u64,
    name: &str,
    seen: Result<LogState, ViewRefusal>,
) -> Result<Answer, AllocError>
    ensures { IfOk result (λ a. reply_of a ≡ state_reply id name.now seen) }
{
    match seen {
        Ok(state) => {
            let body = bodies::log(alloc, id, name, state.ended.is_some(), state.lines)?;
            Ok(Answer::page(body))
        }
        Err(refused) => without_view(alloc, refused),
    }
}

fn with_chunk(
    alloc: Global,
    id: u64,
    seen: Result<Chunk, ViewRefusal>,
) -> Result<Answer, AllocError>
    ensures { IfOk result (λ a. reply_of a ≡ chunk_reply id seen) }
{
    match seen {
        Ok(chunk) => {
            let body = bodies::contents(alloc, id, chunk.first_line, chunk.content.as_str())?;
            Ok(Answer::page(body))
        }
        Err(refused) => without_view(alloc, refused),
    }
}

// A look of one viewer at the state of a command's log.
pub(crate) fn state_by<'t, Y: Yard>(
    viewer: &mut Viewer<Y>,
    command: u64,
    id: u64,
    name: CowStr<'t>,
) -> Lookup<'t>
    ensures seen { (viewer.new.lane ≡ viewer.old.lane) × IsPrefix viewer.old.seen viewer.new.seen }
    ensures told { (r : _) × GivesState viewer.old viewer.new command (cow_str_bytes name.entry) r
        × (told_by result ≡ state_reply id (cow_str_bytes name.entry) r) }
{
    let seen = viewer.state(command, name.as_str());
    Lookup::State(id, name, seen)
}

// A look of one viewer at lines of a command's log.
fn lines_by<'t, Y: Yard>(
    viewer: &mut Viewer<Y>,
    command: u64,
    id: u64,
    name: CowStr<'t>,
    span: Span,
) -> Lookup<'t>
    ensures seen { (viewer.new.lane ≡ viewer.old.lane) × IsPrefix viewer.old.seen viewer.new.seen }
    ensures told { (r : _)
        × GivesChunk viewer.old viewer.new command (cow_str_bytes name.entry) span.offset span.limit
        r
        × (told_by result ≡ chunk_reply id r) }
{
    let seen = viewer.chunk(command, name.as_str(), span.offset, span.limit);
    Lookup::Lines(id, seen)
}

/// The state of the log with this id, under this name.
pub(crate) fn state_of<'t, Y: Yard>(
    viewers: &mut [Viewer<Y>],
    id: u64,
    name: CowStr<'t>,
) -> Lookup<'t>
    requires { 0 < length viewers.old }
    ensures seen { SeesOn viewers.old viewers.new }
    ensures answered { Answers (state id (cow_str_bytes name.entry)) viewers.old viewers.new
        (told_by result) }
{
    let lanes = viewers.len() as u64;
    let lane = (id % lanes) as usize;
    state_by(&mut viewers[lane], id / lanes, id, name)
}

/// Lines of the log with this id, under this name.
pub(crate) fn lines_of<'t, Y: Yard>(
    viewers: &mut [Viewer<Y>],
    id: u64,
    name: CowStr<'t>,
    span: Span,
) -> Lookup<'t>
    requires { 0 < length viewers.old }
    ensures seen { SeesOn viewers.old viewers.new }
    ensures answered { Answers (lines id (cow_str_bytes name.entry) span.offset span.limit)
        viewers.old viewers.new (told_by result) }
{
    let lanes = viewers.len() as u64;
    let lane = (id % lanes) as usize;
    lines_by(&mut viewers[lane], id / lanes, id, name, span)
}
