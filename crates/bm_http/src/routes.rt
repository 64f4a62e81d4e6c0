//! Requests and their answers.
ghost use Rattle.std.specs.Prelude.{◌≡◌, ◌⊎◌, ◌<◌, IfOk, length};
ghost use Rattle.bm_http.specs.Requests.{Asks};
ghost use Rattle.bm_http.specs.Replies.{Replies, SeesOn, unavailable};
ghost use Rattle.bm_http.specs.Shown.{asked_by, reply_of};

use crate::answer::Answer;
use crate::log_request::LogRequest;
use crate::paths::Paths;
use crate::request_refusal::RequestRefusal;
use crate::targets::split;
use bm_lane::{Viewer, Yard};
use std::alloc::{AllocError, Global};

/// The routes of the chunk server.
#[derive(Drop)]
pub struct Routes {
    paths: Paths,
}

impl Routes {
    /// The routes, ready to answer.
    pub fn new(alloc: Global) -> Result<Routes, AllocError> {
        Ok(Routes {
            paths: Paths::new(alloc)?,
        })
    }

    /// What a request with a method and a target asks for. The target is a path and a query, also
    /// in absolute form.
    pub fn request<'t>(
        &self,
        alloc: Global,
        method: &str,
        target: &'t str,
    ) -> Result<LogRequest<'t>, AllocError>
        ensures { IfOk result (λ r. Asks method.now target.now (asked_by r)) }
    {
        let (path, query) = split(target);
        let Some(found) = self.paths.find(path) else {
            return Ok(LogRequest::Refused(RequestRefusal::NoSuchPage));
        };
        if method != "GET" {
            return Ok(LogRequest::Refused(RequestRefusal::MethodNotAllowed));
        }
        LogRequest::of_page(alloc, found.page, found.id, query)
    }

    fn reply<Y: Yard>(
        &self,
        alloc: Global,
        method: &str,
        target: &str,
        viewers: &mut [Viewer<Y>],
    ) -> Result<Answer, AllocError>
        requires { 0 < length viewers.old }
        ensures seen { SeesOn viewers.old viewers.new }
        ensures answered { IfOk result
            (λ a. Replies method.now target.now viewers.old viewers.new (reply_of a)) }
    {
        let request = self.request(alloc, method, target)?;
        request.look(viewers).answer(alloc)
    }

    /// The answer to a request with a method and a target. There is a viewer for each lane.
    ///
    /// Where memory is wanting, the status is 503 and the body is empty.
    pub fn answer<Y: Yard>(
        &self,
        alloc: Global,
        method: &str,
        target: &str,
        viewers: &mut [Viewer<Y>],
    ) -> Answer
        requires { 0 < length viewers.old }
        ensures seen { SeesOn viewers.old viewers.new }
        ensures answered { (reply_of result ≡ unavailable)
            ⊎ Replies method.now target.now viewers.old viewers.new (reply_of result) }
    {
        match self.reply(alloc, method, target, viewers) {
            Ok(answer) => answer,
            Err(_) => Answer::unavailable(alloc),
        }
    }
}
