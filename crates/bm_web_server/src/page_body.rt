//! The bodies of answers.
ghost use Rattle.std.specs.Prelude.{◌≡◌, ◌++◌, ◌+◌, ◌-◌, ◌^◌, [], length, min, IfOk, IfSome, MatchOption, IsTrue};
ghost use Rattle.bm_http.specs.LongAnswers.{held};
ghost use Rattle.bm_web_server.specs.Tells.{Tells};
ghost use Rattle.bm_web_server.specs.Turns.{gives_way};
ghost use Rattle.bm_web_server.specs.declared.page_body.PageBody.TheVariants.{Whole, Long};

use crate::handler::Handler;
use bm_http::PieceError;
use bytes::Bytes;
use futures::task::{Context, Poll};
use http_body::{Body, Frame, SizeHint};
use std::alloc::Global;
use std::sync::{Arc, Wait};

/// How many bytes of an answer are told without a turn of other tasks between its pieces. A page of
/// some thousand lines so leaves in as few writes as the connection makes of it.
const TOLD_AT_ONCE_BYTES: u64 = 1_048_576;

/// What is left of a long answer, with the service that tells it, and what it was made of.
#[derive(Drop)]
pub struct Unsent<R, S: Handler> {
    pub rt: R,
    pub alloc: Global,
    pub service: Arc<S>,
    pub rest: S::Rest,
    pub seen: Option<S::Source>,
    /// How many bytes of it were told.
    pub told_bytes: u64,
    /// Whether other tasks have their turn before the next piece.
    pub owes_turn: bool,
}

impl<R: Wait + Drop, S: Handler> Unsent<R, S> {
    // The next piece, as the service stands now.
    fn next(&mut self) -> Option<Result<Bytes, PieceError>>
        ensures piece { MatchOption result (S.text self.old.rest ≡ [])
            (λ r. IfOk r (λ b. S.text self.old.rest ≡ b ++ S.text self.new.rest)) }
        ensures counted { IfSome result (λ r. IfOk r (λ b.
            self.new.told_bytes ≡ min (self.old.told_bytes + length b) (2 ^ 64 - 1))) }
        ensures turn { self.new.owes_turn ≡ gives_way self.new.told_bytes }
    {
        let piece = self.service.piece(&self.rt, self.alloc, &mut self.rest);
        if let Some(Ok(bytes)) = &piece {
            self.told_bytes = self.told_bytes.saturating_add(bytes.len() as u64);
        }
        self.owes_turn = gives_way(self.told_bytes);
        piece
    }
}

// Whether other tasks have their turn before the next piece of an answer of which so much was told.
fn gives_way(told_bytes: u64) -> bool
    ensures { result ≡ gives_way told_bytes }
{
    told_bytes > TOLD_AT_ONCE_BYTES
}

/// The body of an answer: whole, or told piece by piece as the connection asks for it.
#[derive(Drop)]
pub enum PageBody<R, S: Handler> {
    /// One piece, or none any more, and what it was made of.
    Whole(Option<Bytes>, Option<S::Source>),
    /// Pieces that are still to come.
    Long(Unsent<R, S>),
}

impl<R: Wait + Drop, S: Handler> Body for PageBody<R, S> {
    type Data = Bytes;

    type Error = PieceError;

    ghost yields = { elim [
      | Whole b seen ↦ Tells (held b)
      | Long t ↦ Tells (S.text t.rest)
    ] };

    fn poll_frame(
        &mut self,
        cx: &mut Context<'_>,
    ) -> Poll<Option<Result<Frame<Bytes>, PieceError>>> {
        match self {
            PageBody::Whole(held, _) => match held.take() {
                Some(bytes) => Poll::Ready(Some(Ok(Frame::data(bytes)))),
                None => Poll::Ready(None),
            },
            // A thread looks at its sockets only once its tasks wait. So readers of long logs would
            // hold up all others, for as long as they take what they are sent.
            PageBody::Long(unsent) if unsent.owes_turn => {
                unsent.owes_turn = false;
                cx.yield_now()
            }
            PageBody::Long(unsent) => match unsent.next() {
                Some(Ok(bytes)) => Poll::Ready(Some(Ok(Frame::data(bytes)))),
                Some(Err(error)) => Poll::Ready(Some(Err(error))),
                None => Poll::Ready(None),
            },
        }
    }

    fn is_end_stream(&self) -> bool {
        matches!(self, PageBody::Whole(None, _))
    }

    fn size_hint(&self) -> SizeHint {
        match self {
            PageBody::Whole(Some(bytes), _) => SizeHint::with_exact(bytes.len() as u64),
            PageBody::Whole(None, _) => SizeHint::with_exact(0),
            PageBody::Long(_) => SizeHint::new(),
        }
    }
}
