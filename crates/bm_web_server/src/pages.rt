//! The service of one connection.
ghost use Rattle.std.specs.Prelude.{◌≡◌, ◌⊎◌, ◌↔◌, IfSome, IsSomeAnd, IsOkAnd, IsTrue};
ghost use Rattle.std.specs.Arc.{arc_value};
ghost use Rattle.http.specs.Request as request;
ghost use Rattle.bm_http.specs.Replies.{page};
ghost use Rattle.bm_http.specs.Replies.{unavailable as unavailable_reply};
ghost use Rattle.bm_http.specs.Replies.{bad_request as bad_request_reply};
ghost use Rattle.bm_http.specs.Shown.{reply_of};
ghost use Rattle.bm_http.specs.LongAnswers.{held};
ghost use Rattle.bm_web_server.specs.Responses.{ChecksHost, HasFields, HasHost, HasNoField, Responds, body_text, fields_of, replied, seen_in, seen_of, target_of};

use crate::handler::{Handler, Served};
use crate::page_body::{PageBody, Unsent};
use bm_http::{Answer, WholeOrLong, is_host};
use bytes::Bytes;
use futures::future;
use futures::future::Ready;
use hyper::body::Incoming;
use hyper::header::{ALLOW, CONTENT_TYPE, HOST, HeaderMap, HeaderValue};
use hyper::service::Service;
use hyper::{Request, Response, StatusCode, Uri};
use std::alloc::Global;
use std::convert::Infallible;
use std::sync::{Arc, Wait};

/// The pages of a service. A request's body is never read.
///
/// Clauses go as far as the response that `call` gives. That the connection carries its status and
/// its text is `hyper`'s own promise.
#[derive(Drop)]
pub struct Pages<R, S> {
    pub rt: R,
    pub alloc: Global,
    pub service: Arc<S>,
}

impl<R: Wait + Copy, S: Handler> Pages<R, S> {
    // The response to a request.
    fn page(&self, method: &str, target: &str) -> Response<PageBody<R, S>>
        ensures given { Responds S.text
            (S.gives (arc_value self.now.service) method.now target.now) result }
        ensures fields { HasFields result }
    {
        let Served { reply, seen } = self.service.answer(&self.rt, self.alloc, method, target);
        match reply {
            WholeOrLong::Whole(answer) => response(self.alloc, answer, seen),
            WholeOrLong::Long(rest) => long(self, rest, seen),
        }
    }
}

impl<R: Wait + Copy, S: Handler, I: Drop> Service<Request<Incoming<I>>> for Pages<R, S> {
    type Response = Response<PageBody<R, S>>;

    type Error = Infallible;

    type Future = Ready<Result<Response<PageBody<R, S>>, Infallible>>;

    // The response is a reply that the service gives to a request with this method and target, made
    // of what the response keeps. A request whose field `Host` is no host is refused.
    ghost calls = { λ p req future. IsSomeAnd future.0 (λ given. IsOkAnd given (λ response.
        ChecksHost S.text (S.gives (arc_value p.service) (request.head_of req).method
        (target_of (request.head_of req).uri)) (request.head_of req).headers response)) };

    fn call(&self, req: Request<Incoming<I>>) -> Self::Future {
        if !has_host(req.headers()) {
            return future::ok(bad_request(self.alloc));
        }
        let method = req.method().as_str();
        let target = target_in(req.uri());
        future::ok(self.page(method, target))
    }
}

// Whether the field `Host`, where there is one, is a host (RFC 9112, 3.2). The library refuses a
// second one, and under HTTP/1.1 none.
fn has_host(headers: &HeaderMap) -> bool
    ensures { IsTrue result ↔ HasHost headers.now }
{
    match headers.get(HOST) {
        Some(host) => is_host(host.as_bytes()),
        None => true,
    }
}

// The path and the query, also of a target in absolute form; nothing where there is none.
fn target_in(uri: &Uri) -> &str
    ensures { result.now ≡ target_of uri.now }
{
    let Some(target) = uri.path_and_query() else {
        return "";
    };
    target.as_str()
}

// The fields of a response with this status: JSON under each but 503. Under 405 the one method is
// named that is allowed (RFC 9110). None where memory is wanting.
fn fields(alloc: Global, status: StatusCode) -> Option<HeaderMap>
    ensures { IfSome result (λ headers. headers ≡ fields_of status) }
{
    let mut headers = HeaderMap::new(alloc);
    if status == StatusCode::SERVICE_UNAVAILABLE {
        return Some(headers);
    }
    let json = HeaderValue::from_static("application/json");
    if headers.insert(CONTENT_TYPE, json).is_err() {
        return None;
    }
    if status != StatusCode::METHOD_NOT_ALLOWED {
        return Some(headers);
    }
    let get = HeaderValue::from_static("GET");
    if headers.insert(ALLOW, get).is_err() {
        return None;
    }
    Some(headers)
}

// The response with an answer.
fn response<R: Wait + Drop, S: Handler>(
    alloc: Global,
    answer: Answer,
    seen: Option<S::Source>,
) -> Response<PageBody<R, S>>
    ensures reply { ((replied S.text result ≡ reply_of answer) × (seen_in result ≡ seen))
        ⊎ (replied S.text result ≡ unavailable_reply) }
    ensures fields { HasFields result }
{
    let Answer { status, body } = answer;
    let Ok(body) = Bytes::from_vec(body) else {
        return unavailable(alloc);
    };
    let Ok(status) = StatusCode::from_u16(status) else {
        return unavailable(alloc);
    };
    let Some(headers) = fields(alloc, status) else {
        return unavailable(alloc);
    };
    let mut response = Response::new(alloc, whole(body, seen));
    *response.status_mut() = status;
    *response.headers_mut() = headers;
    response
}

// A page that is told piece by piece.
fn long<R: Wait + Copy, S: Handler>(
    pages: &Pages<R, S>,
    rest: S::Rest,
    seen: Option<S::Source>,
) -> Response<PageBody<R, S>>
    ensures reply { ((replied S.text result ≡ page (S.text rest)) × (seen_in result ≡ seen))
        ⊎ (replied S.text result ≡ unavailable_reply) }
    ensures fields { HasFields result }
{
    let Ok(service) = Arc::try_clone(&pages.service) else {
        return unavailable(pages.alloc);
    };
    let unsent = Unsent {
        rt: pages.rt,
        alloc: pages.alloc,
        service,
        rest,
        seen,
        told_bytes: 0,
        owes_turn: false,
    };
    let mut response = Response::new(pages.alloc, PageBody::Long(unsent));
    let json = HeaderValue::from_static("application/json");
    if response.headers_mut().insert(CONTENT_TYPE, json).is_err() {
        return unavailable(pages.alloc);
    }
    response
}

fn whole<R: Wait + Drop, S: Handler>(body: Bytes, seen: Option<S::Source>) -> PageBody<R, S>
    ensures { (body_text S.text result ≡ body) × (seen_of result ≡ seen) }
{
    if body.is_empty() {
        return PageBody::Whole(None, seen);
    }
    PageBody::Whole(Some(body), seen)
}

// The response to a field `Host` that is no host, before anything else is looked at. It has no
// body, as for what isn't HTTP: JSON would be one more text for what no client sends.
fn bad_request<R: Drop, S: Handler>(alloc: Global) -> Response<PageBody<R, S>>
    ensures reply { replied S.text result ≡ bad_request_reply }
    ensures fields { HasNoField result }
{
    let mut response = Response::new(alloc, PageBody::Whole(None, None));
    *response.status_mut() = StatusCode::BAD_REQUEST;
    response
}

fn unavailable<R: Wait + Drop, S: Handler>(alloc: Global) -> Response<PageBody<R, S>>
    ensures reply { replied S.text result ≡ unavailable_reply }
    ensures fields { HasFields result }
{
    let mut response = Response::new(alloc, PageBody::Whole(None, None));
    *response.status_mut() = StatusCode::SERVICE_UNAVAILABLE;
    response
}
