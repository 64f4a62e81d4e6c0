//! Callers of a lane's session.

ghost use Rattle.std.specs.Prelude.{◌≡◌, ◌∷◌, [], Some, None, IsSome, IfOk};
ghost use Rattle.bm_session.specs.Trace.{outcome};
ghost use Rattle.callers.specs.SessionEvents.{update, complete};

use bm_lines::LineBatch;
use bm_session::{Body, Event, Item, Plan, Refusal, Reply, Results, Session, Verdict};

/// A repeat of an update adds no lines, also where the session had other numbers since.
pub fn repeat_adds_no_lines(
    session: &mut Session,
    batch: LineBatch,
) -> Result<Plan, (Event, Refusal)>
    requires { session.old.trace ≡ Event.Up ∷ Event.Go ∷ update 0 0 ∷ update 1 0 ∷ [] }
    ensures { IfOk result (λ plan. plan.given ≡ None) }
{
    let command = 0;
    let rc = None;
    session.ready(Event::In(0, Body::Update { command, batch, rc }))
}

/// No lines are added to a command that has ended.
pub fn ended_command_gets_no_lines(
    session: &mut Session,
    number: u64,
    command: u64,
    batch: LineBatch,
) -> Result<Plan, (Event, Refusal)>
    requires { IsSome (outcome session.old.trace command) }
    ensures { IfOk result (λ plan. plan.given ≡ None) }
{
    let rc = None;
    session.ready(Event::In(number, Body::Update { command, batch, rc }))
}

/// Numbers begin anew with a session. An update adds its lines, though the session that was given
/// up had its number.
pub fn new_session_counts_anew(
    session: &mut Session,
    batch: LineBatch,
) -> Result<Plan, (Event, Refusal)>
    requires { session.old.trace
        ≡ Event.Up ∷ Event.Go ∷ update 0 0 ∷ Event.Down ∷ Event.Up ∷ Event.Go ∷ [] }
    ensures { IfOk result (λ plan. plan.given ≡ Some (Item.Lines 1 batch)) }
{
    let command = 1;
    let rc = None;
    session.ready(Event::In(0, Body::Update { command, batch, rc }))
}

/// A repeat gets the answer that its request got first, though its command has ended since.
pub fn repeat_is_answered_as_first(session: &mut Session) -> Result<Reply, (Event, Refusal)>
    requires { session.old.trace ≡ Event.Up ∷ Event.Go ∷ complete 0 0 ∷ [] }
    ensures { IfOk result (λ reply. reply ≡ Reply.Answer 0 Verdict.Done) }
{
    let command = 0;
    let fault = false;
    match session.ready(Event::In(0, Body::Complete { command, fault })) {
        Ok(plan) => {
            let (reply, _) = session.commit(plan);
            Ok(reply)
        }
        Err(back) => Err(back),
    }
}

/// The giving up of a session ends every open command with `Retry`, not just the newest.
pub fn giving_up_ends_older_commands(session: &Session) -> Option<Results>
    requires { session.now.trace ≡ Event.Up ∷ Event.Go ∷ Event.Go ∷ Event.Down ∷ [] }
    ensures { result ≡ Some Results.Retry }
{
    session.outcome(0)
}
