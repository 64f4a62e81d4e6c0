//! Callers of a worker's side of a session.

ghost use Rattle.std.specs.Prelude.{◌≡◌, ◌≤◌, ◌∷◌, [], length, IfOk, IfSome};
ghost use Rattle.bm_work.specs.Core.{numbers, unanswered_requests};

use bm_lines::Letter;
use bm_work::{Sent, Worker};
use std::alloc::AllocError;

/// What a worker sends again has the numbers of its requests without an answer, in their order. So
/// none is numbered anew, and none is left out.
pub fn nothing_new_is_numbered(worker: &Worker) -> Result<Vec<Sent>, AllocError>
    ensures { IfOk result (λ v. numbers v.items ≡ numbers (unanswered_requests worker.now)) }
{
    worker.resend()
}

/// Two texts without an answer are sent again as they were first sent, the older one first.
pub fn said_texts_are_sent_again(
    worker: &mut Worker,
    command: u64,
    letter: Letter,
    first: &str,
    second: &str,
) -> Option<(Sent, Sent, Vec<Sent>)>
    requires new { worker.old.reports ≡ [] }
    requires unanswered { worker.old.answered ≡ [] }
    requires short { length first.now ≤ 65536 }
    requires short_too { length second.now ≤ 65536 }
    ensures { IfSome result (λ r. r.2.items ≡ r.0 ∷ r.1 ∷ []) }
{
    let Ok(older) = worker.say(command, letter, first) else {
        return None;
    };
    let Ok(newer) = worker.say(command, letter, second) else {
        return None;
    };
    match worker.resend() {
        Ok(all) => Some((older, newer, all)),
        Err(_) => None,
    }
}
