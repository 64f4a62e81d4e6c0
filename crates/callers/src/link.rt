//! Callers of a master's link.

ghost use Rattle.std.specs.Prelude.{◌≡◌, ◌≢◌, ◌<◌, ◌∷◌, ◌++◌, [], true, length, is_some, codes, IfSome, IfOk, IfErr};
ghost use Rattle.bm_link.specs.declared.credentials.Named.{Named};
ghost use Rattle.bm_link.specs.declared.attaching.Attached.TheVariants as attached;
ghost use Rattle.bm_link.specs.declared.fault.LinkFault.TheVariants as fault;
ghost use Rattle.bm_link.specs.declared.ending.Stage.TheVariants as stage;
ghost use Rattle.bm_link.specs.declared.turn.Turn.TheVariants as turned;
ghost use Rattle.bm_lane.specs.declared.refusals.HearRefusal.TheVariants as hearing;
ghost use Rattle.bm_session.specs.declared.event.Event.{Event as LaneEvent};
ghost use Rattle.bm_session.specs.declared.event.Event.TheVariants.{Cut};
ghost use Rattle.bm_session.specs.declared.refusal.Refusal.{Refusal};
ghost use Rattle.bm_session.specs.Trace.{is_up, refusal, orders};
ghost use Rattle.bm_work.specs.declared.sent.Sent.{Sent as SentOrder};
ghost use Rattle.bm_link.specs.Parts.{Comes};
ghost use Rattle.bm_link.specs.Sending.{SendsBytes};
ghost use Rattle.bm_link.specs.Texts.{AreShort};
ghost use Rattle.callers.specs.Link.{BeginsWithBinary, EndsCut, IsAsRead, SendsAgain, TellsLogin, TookNone};

use bm_lane::{ReaderEnd, Yard};
use bm_lines::Text;
use bm_link::{Ask, Attached, LinkFault, MasterLink, ResumeState, Turn};
use bumpalo::Bump;
use std::alloc::Global;
use std::io::{Read, Write};
use std::sync::Wait;

/// A turn doesn't fail because its lane is busy.
pub fn busy_lane_keeps_its_link<S: Read + Write + Drop, Y: Yard, R: Wait>(
    link: &mut MasterLink<S>,
    rt: &R,
    alloc: Global,
    arena: &mut Bump,
    reader: &mut ReaderEnd<Y>,
    resume_state: &mut ResumeState,
) -> Result<Turn, LinkFault>
    ensures { result ≢ Err (fault.Lane hearing.Busy) }
{
    link.turn(rt, alloc, arena, reader, resume_state)
}

/// An event that a turn calls noted was taken by the lane. It is the one that waited, or else that
/// of the message which was read.
pub fn noted_event_was_taken<S: Read + Write + Drop, Y: Yard, R: Wait>(
    link: &mut MasterLink<S>,
    rt: &R,
    alloc: Global,
    arena: &mut Bump,
    reader: &mut ReaderEnd<Y>,
    resume_state: &mut ResumeState,
) -> Result<Turn, LinkFault>
    ensures { result ≡ Ok turned.Noted
        → (e : LaneEvent) × Comes S.remaining link.old.kept link.old.socket e link.new.socket
        × (reader.new.trace ≡ reader.old.trace ++ e ∷ []) }
{
    link.turn(rt, alloc, arena, reader, resume_state)
}

/// A binary message whose bytes have come whole isn't passed over.
pub fn message_in_hand_is_not_passed_over<S: Read + Write + Drop, Y: Yard, R: Wait>(
    link: &mut MasterLink<S>,
    rt: &R,
    alloc: Global,
    arena: &mut Bump,
    reader: &mut ReaderEnd<Y>,
    resume_state: &mut ResumeState,
) -> Result<Turn, LinkFault>
    requires { BeginsWithBinary link.old.socket }
    ensures { result ≢ Ok turned.Dropped }
{
    link.turn(rt, alloc, arena, reader, resume_state)
}

/// A turn sends nothing but what a read replies to, unless the lane took the event that came. That
/// is the one that waits, or that of the message which is read.
pub fn untaken_request_is_not_answered<S: Read + Write + Drop, Y: Yard, R: Wait>(
    link: &mut MasterLink<S>,
    rt: &R,
    alloc: Global,
    arena: &mut Bump,
    reader: &mut ReaderEnd<Y>,
    resume_state: &mut ResumeState,
) -> Result<Turn, LinkFault>
    ensures { TookNone S.remaining link.old.kept link.old.socket reader.old.trace reader.new.trace
        → IsAsRead S.remaining S.contents link.old.kept link.old.socket link.new.socket }
{
    link.turn(rt, alloc, arena, reader, resume_state)
}

/// Where nothing has come, a turn whose stream fails leaves nothing to be sent.
pub fn failed_read_leaves_nothing_to_send<S: Read + Write + Drop, Y: Yard, R: Wait>(
    link: &mut MasterLink<S>,
    rt: &R,
    alloc: Global,
    arena: &mut Bump,
    reader: &mut ReaderEnd<Y>,
    resume_state: &mut ResumeState,
) -> Result<Turn, LinkFault>
    requires came { (link.old.socket.input ≡ []) × (S.remaining link.old.socket.stream ≡ Some []) }
    requires waits { (link.old.kept ≡ None) × (link.old.socket.output ≡ []) }
    ensures { result ≡ Err fault.Stream → link.new.socket.output ≡ [] }
{
    link.turn(rt, alloc, arena, reader, resume_state)
}

/// After a turn that failed the next one hears nothing: it fails, or waits for the lane.
pub fn failed_link_hears_nothing<S: Read + Write + Drop, Y: Yard, R: Wait>(
    link: &mut MasterLink<S>,
    rt: &R,
    alloc: Global,
    arena: &mut Bump,
    reader: &mut ReaderEnd<Y>,
    resume_state: &mut ResumeState,
) -> Option<Result<Turn, LinkFault>>
    ensures { IfSome result (λ next. IfOk next (λ t. t ≡ turned.Busy)) }
{
    match link.turn(rt, alloc, arena, reader, resume_state) {
        Ok(_) => None,
        Err(_) => Some(link.turn(rt, alloc, arena, reader, resume_state)),
    }
}

/// A turn that fails cuts the lane, behind the event that it took at most. This holds where the
/// session's text is kept and no message was bad.
pub fn session_is_cut_after_a_fault<S: Read + Write + Drop, Y: Yard, R: Wait>(
    link: &mut MasterLink<S>,
    rt: &R,
    alloc: Global,
    arena: &mut Bump,
    reader: &mut ReaderEnd<Y>,
    resume_state: &mut ResumeState,
) -> Result<Turn, LinkFault>
    requires up { link.old.stage ≡ stage.Up }
    requires named { is_some resume_state.old.text ≡ true }
    requires lane { (is_up reader.old.trace ≡ true) × (length reader.old.trace < 999998) }
    ensures { IfErr result
        (λ f. f ≢ fault.BadMessage → EndsCut reader.old.trace reader.new.trace) }
{
    link.turn(rt, alloc, arena, reader, resume_state)
}

/// A link that fails as it asks has its lane cut, where the session's text is kept.
pub fn session_is_cut_after_a_failed_ask<S: Read + Write + Drop, Y: Yard, R: Wait>(
    link: &mut MasterLink<S>,
    rt: &R,
    alloc: Global,
    arena: &mut Bump,
    reader: &mut ReaderEnd<Y>,
    resume_state: &mut ResumeState,
) -> Result<(), LinkFault>
    requires up { link.old.stage ≡ stage.Up }
    requires named { is_some resume_state.old.text ≡ true }
    requires fits { refusal reader.old.trace Cut ≡ None }
    ensures { IfErr result (λ _. reader.new.trace ≡ reader.old.trace ++ Cut ∷ []) }
{
    match link.ask(alloc, resume_state, Ask::Keepalive) {
        Ok(()) => Ok(()),
        Err(why) => {
            let _ = link.turn(rt, alloc, arena, reader, resume_state);
            Err(why)
        }
    }
}

/// A worker whose lane is up already, busy or full is told so by an exception, or is told nothing.
pub fn refused_login_is_told_why<S: Read + Write + Drop, Y: Yard, R: Wait>(
    link: &mut MasterLink<S>,
    rt: &R,
    alloc: Global,
    reader: &mut ReaderEnd<Y>,
    resume_state: &mut ResumeState,
) -> Result<Attached, LinkFault>
    ensures up { (why : Refusal) → result ≡ Err (fault.Lane (hearing.Session why))
        → TellsLogin S.contents link.old.login (codes "already up") link.old.socket
        link.new.socket }
    ensures busy { result ≡ Err (fault.Lane hearing.Busy)
        → TellsLogin S.contents link.old.login (codes "busy") link.old.socket link.new.socket }
    ensures full { result ≡ Err fault.Full
        → TellsLogin S.contents link.old.login (codes "full") link.old.socket link.new.socket }
{
    link.attach(rt, alloc, reader, resume_state)
}

/// An order is kept under the number that the lane gave to it.
pub fn order_keeps_its_number<S: Read + Write + Drop, Y: Yard, R: Wait>(
    link: &mut MasterLink<S>,
    rt: &R,
    alloc: Global,
    reader: &mut ReaderEnd<Y>,
    resume_state: &mut ResumeState,
    argv: &[Text],
) -> Result<u64, LinkFault>
    requires { AreShort argv.now }
    ensures { IfOk result (λ _. (o : SentOrder) × (o.seq ≡ orders reader.old.trace)
        × (resume_state.new.orders ≡ resume_state.old.orders ++ o ∷ [])) }
{
    link.start(rt, alloc, reader, resume_state, argv)
}

/// An order is kept with the bytes that were sent.
pub fn order_is_kept_as_it_was_sent<S: Read + Write + Drop, Y: Yard, R: Wait>(
    link: &mut MasterLink<S>,
    rt: &R,
    alloc: Global,
    reader: &mut ReaderEnd<Y>,
    resume_state: &mut ResumeState,
    command: u64,
) -> Result<(), LinkFault>
    ensures { IfOk result (λ _. (o : SentOrder)
        × (resume_state.new.orders ≡ resume_state.old.orders ++ o ∷ [])
        × SendsBytes S.contents o.bytes link.old.socket link.new.socket) }
{
    link.interrupt(rt, alloc, reader, resume_state, command)
}

/// An order that a link gave is sent again by the next one, under its number and by its bytes. It
/// is behind all orders before it. That is so where the login resumes the session.
pub fn order_is_sent_again<S: Read + Write + Drop, Y: Yard, R: Wait>(
    link: &mut MasterLink<S>,
    next: &mut MasterLink<S>,
    rt: &R,
    alloc: Global,
    reader: &mut ReaderEnd<Y>,
    resume_state: &mut ResumeState,
    argv: &[Text],
) -> Option<Result<Attached, LinkFault>>
    requires { AreShort argv.now }
    ensures { IfSome result (λ r. r ≡ Ok attached.Resumed
        → (login : Named) → next.old.login ≡ Some login
        → SendsAgain S.contents reader.old.trace resume_state.old.orders argv.now login.seq
        next.old.socket next.new.socket) }
{
    match link.start(rt, alloc, reader, resume_state, argv) {
        Ok(_) => Some(next.attach(rt, alloc, reader, resume_state)),
        Err(_) => None,
    }
}
