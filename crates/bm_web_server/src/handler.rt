//! What answers requests.
ghost use Rattle.std.specs.Prelude.{◌≡◌, ◌<◌, ◌++◌, ℕ, [], IfOk, IfSome, List, MatchOption, Option, length};
ghost use Rattle.bm_http.specs.Replies.{Reply};
ghost use Rattle.bm_http.specs.WholeOrLong.{reply_told};

use bm_http::{PieceError, WholeOrLong};
use bytes::Bytes;
use std::alloc::Global;
use std::sync::Wait;

/// An answer, and what it was made of.
#[derive(Drop)]
pub struct Served<T, E> {
    pub reply: WholeOrLong<T>,
    /// What was seen, which nothing but contracts reads: none where nothing had to be.
    pub seen: Option<E>,
}

/// What answers requests, whatever carries them.
///
/// It is a trait so that the clauses of connections name no lane: types of lanes in them would make
/// each check longer.
pub trait Handler: Drop {
    /// What is left to tell of a long answer.
    type Rest: Drop;

    /// What an answer is made of.
    type Source: Drop;

    // Which replies a request with this method and target may get, made of what was seen.
    ghost gives: { Self → List ℕ → List ℕ → Option Self.Source → Reply → Type 0 };

    // The text that is left to tell.
    ghost text: { Self.Rest → List ℕ };

    /// The answer to a request.
    fn answer<R: Wait>(
        &self,
        rt: &R,
        alloc: Global,
        method: &str,
        target: &str,
    ) -> Served<Self::Rest, Self::Source>
        ensures { gives self.now method.now target.now result.seen (reply_told text result.reply) };

    /// The next piece of a long answer, which has some of it; none once all was told.
    fn piece<R: Wait>(
        &self,
        rt: &R,
        alloc: Global,
        rest: &mut Self::Rest,
    ) -> Option<Result<Bytes, PieceError>>
        ensures piece { MatchOption result (text rest.old ≡ [])
            (λ r. IfOk r (λ b. text rest.old ≡ b ++ text rest.new)) }
        ensures shorter { IfSome result
            (λ r. IfOk r (λ b. length (text rest.new) < length (text rest.old))) };
}
