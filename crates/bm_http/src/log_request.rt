//! What requests ask for.
ghost use Rattle.std.specs.Prelude.{◌≡◌, ◌<◌, ◌-◌, ◌^◌, IfOk, codes, length};
ghost use Rattle.bm_decimal.specs.Decimals.{number_of};
ghost use Rattle.bm_http.specs.Targets.{number_or, parameter};
ghost use Rattle.bm_http.specs.Requests.{lines_asked, name_in, page_asked};
ghost use Rattle.bm_http.specs.Replies.{Answers, SeesOn};
ghost use Rattle.bm_http.specs.Shown.{asked_by, told_by};

use crate::lookup::{Lookup, lines_of, state_of};
use crate::paths::Page;
use crate::request_refusal::RequestRefusal;
use crate::targets::{log_name, number_of_value};
use bm_decimal::read_number;
use bm_lane::{Viewer, Yard};
use std::alloc::{AllocError, Global};
use std::borrow::CowStr;

/// Some lines of a log.
#[derive(Clone, Copy)]
pub struct Span {
    /// The place of the first line.
    pub offset: u64,
    /// How many lines at most.
    pub limit: u64,
}

/// What a request asks for.
#[derive(Drop)]
pub enum LogRequest<'t> {
    /// Nothing that is served.
    Refused(RequestRefusal),
    /// The state of the log with this id, under this name.
    State(u64, CowStr<'t>),
    /// Lines of that log.
    Lines(u64, CowStr<'t>, Span),
}

impl<'t> LogRequest<'t> {
    /// What the viewers show of it, one for each lane. The id of a log is the number of its command
    /// times the number of lanes, plus the lane. No memory is taken but for the lines.
    pub fn look<Y: Yard>(self, viewers: &mut [Viewer<Y>]) -> Lookup<'t>
        requires { 0 < length viewers.old }
        ensures seen { SeesOn viewers.old viewers.new }
        ensures answered { Answers (asked_by self.entry) viewers.old viewers.new (told_by result) }
    {
        match self {
            LogRequest::Refused(refusal) => Lookup::Refused(refusal),
            LogRequest::State(id, name) => state_of(viewers, id, name),
            LogRequest::Lines(id, name, span) => lines_of(viewers, id, name, span),
        }
    }

    /// What is asked of a page of the log with this id by a query.
    pub(crate) fn of_page(
        alloc: Global,
        page: Page,
        id: &str,
        query: &'t str,
    ) -> Result<LogRequest<'t>, AllocError>
        ensures { IfOk result (λ r. asked_by r ≡ page_asked page (number_of id.now) query.now) }
    {
        let Some(id) = read_number(id) else {
            return Ok(LogRequest::Refused(RequestRefusal::NoSuchLog));
        };
        match page {
            Page::Log => Ok(LogRequest::State(id, log_name(alloc, query)?)),
            Page::Contents => LogRequest::of_lines(alloc, id, query),
        }
    }

    fn of_lines(alloc: Global, id: u64, query: &'t str) -> Result<LogRequest<'t>, AllocError>
        ensures { IfOk result (λ r. asked_by r ≡ lines_asked id (name_in query.now)
            (number_or 0 (parameter (codes "offset") query.now))
            (number_or (2 ^ 64 - 1) (parameter (codes "limit") query.now))) }
    {
        let Some(offset) = number_of_value(alloc, query, "offset", 0)? else {
            return Ok(LogRequest::Refused(RequestRefusal::BadNumber));
        };
        let Some(limit) = number_of_value(alloc, query, "limit", u64::MAX)? else {
            return Ok(LogRequest::Refused(RequestRefusal::BadNumber));
        };
        let name = log_name(alloc, query)?;
        Ok(LogRequest::Lines(id, name, Span { offset, limit }))
    }
}
